#![tactic(auto)]

// Text as programs read and write it.
//
// `Hex` prints bytes in capital hexadecimal, and `hex_text` writes them to a text; `hex_byte`, `hex_array` and `read_hex` read them.
// `split_line` gives the first line of a text, and `Lines` all of them, one after another.
mod hex;
mod lines;
#[cfg(test)]
mod tests;

pub use hex::{Hex, hex_array, hex_byte, hex_text, read_hex};
pub use lines::{Lines, split_line};
