#![tactic(auto)]

// Seals: four bytes worked out of an algorithm byte, a key of 16 bytes and a message, on bytes that the host lends.
//
// The trait `Sealer` states what gives seals. `Single` is a sealer over one cipher, under one algorithm byte; `Pair` answers by the first of
// two sealers that has the algorithm registered. The padding and the chaining are the same for every cipher. `Workpad` holds the lent
// bytes, and zeroes them when it is dropped; `WorkpadMessage` is a message that stands on them, with room for its padding. `seal_message` seals a
// message that stands elsewhere; `same_seal` compares two seals.
mod chaining;
mod comparing;
mod message;
mod pair;
mod sealer;
mod single;
mod workpad;
mod workpad_message;

pub use comparing::same_seal;
pub use message::{SealRefusal, seal_message};
pub use pair::Pair;
pub use sealer::Sealer;
pub use single::Single;
pub use workpad::Workpad;
pub use workpad_message::WorkpadMessage;
