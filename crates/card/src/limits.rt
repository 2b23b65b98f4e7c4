ghost use Rattle.std.specs.Prelude.{◌≡◌};
ghost use Rattle.card.specs.Limits.{limits_bytes, limits_of};

use crate::bytes::{all_zero, word_at};
use crate::codec::Codec;

// What page 1 holds, in whole won: the most that a ride may cost, and the most that the total may be.
#[derive(Clone, Copy, PartialEq, Eq, Debug)]
pub struct Limits {
    pub ceiling: u32,
    pub limit: u32,
}

impl Codec<16> for Limits {
    ghost writes = { limits_bytes };

    ghost reads = { limits_of };

    // None where a fixed 00 is missing.
    fn decode(page: &[u8; 16]) -> Option<Limits> {
        if !all_zero(&page[8..16]) {
            return None;
        }
        Some(Limits {
            ceiling: word_at(page, 0),
            limit: word_at(page, 4),
        })
    }

    #[tactic(auto, using(crate::proofs::RoundTrips::limits_round))]
    fn encode(self) -> [u8; 16] {
        let mut page = [0; 16];
        page[0..4].copy_from_slice(&self.ceiling.to_be_bytes());
        page[4..8].copy_from_slice(&self.limit.to_be_bytes());
        page
    }
}
