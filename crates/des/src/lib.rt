#![tactic(auto)]

// Triple DES with two keys, as FIPS 46-3 has it, as a block cipher.
mod des;
mod function;
mod keys;
mod permutations;
mod tables;
mod triple_des;

pub use triple_des::TripleDes;
