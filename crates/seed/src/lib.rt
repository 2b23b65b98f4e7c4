#![tactic(auto)]

// The block cipher SEED (RFC 4269).
mod function;
mod keys;
mod rounds;
mod seed;
mod tables;
mod words;

pub use seed::Seed;
