#![tactic(auto)]

// A card and the outcome of a call in words, for a tester. Keys are never shown.
mod lines;

pub use lines::{describe, outcome};
