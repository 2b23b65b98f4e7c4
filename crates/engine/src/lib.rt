#![tactic(auto)]

// The calls of a host on a card. Each is generic over the memory that holds the card, and asks nothing of what it is handed.
mod issuing;
mod powering;

pub use issuing::issue;
pub use powering::power_on;
