#![tactic(auto)]

// Block ciphers: what one is, and the words that the standards are written in.
mod cipher;
mod words;

pub use cipher::Cipher;
pub use words::{block_of, words_of};
