#![tactic(auto)]

// Seals by lines of text.
//
// Each line of the input is `ALG,KEY,MESSAGE` in capital hexadecimal: two digits, 32 digits, and pairs of digits of at most 47 bytes. For
// each, numbered from 1, `answer_lines` gives one line: the number in decimal, a comma, and the seal as eight capital hexadecimal digits,
// or `not registered` where the sealer does not have the algorithm registered, or `form` where the line has another form.
mod answers;
mod requests;

pub use answers::answer_lines;
