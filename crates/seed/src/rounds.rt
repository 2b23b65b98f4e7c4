// The sixteen rounds on the halves of a block.
ghost use Rattle.std.specs.Prelude.{◌≡◌};
ghost use Rattle.seed.specs.Keys.{subkeys};
ghost use Rattle.seed.specs.Seed.{halves_of, block_of, round, exchanged, sixteen_rounds};

use crate::function::function_f;
use crate::keys::{KC, KeyState, Subkeys};
use cipher::{block_of, words_of};

// The halves L and R of a block.
#[derive(Clone, Copy)]
pub(crate) struct Halves {
    left: u64,
    right: u64,
}

impl Halves {
    pub(crate) fn new(block: [u8; 16]) -> Halves
        ensures { result ≡ halves_of block }
    {
        let (left, right) = words_of(block);
        Halves { left, right }
    }

    // The bytes of the block.
    pub(crate) fn to_block(self) -> [u8; 16]
        ensures { result ≡ block_of self }
    {
        block_of(self.left, self.right)
    }

    // One round.
    fn round(self, k: Subkeys) -> Halves
        ensures { result ≡ round k self }
    {
        Halves {
            left: self.right,
            right: self.left ^ function_f(k, self.right),
        }
    }

    fn exchanged(self) -> Halves
        ensures { result ≡ exchanged self }
    {
        Halves {
            left: self.right,
            right: self.left,
        }
    }
}

// Sixteen rounds with the subkeys of a key, the last without the exchange.
#[tactic(auto, using(crate::proofs::Steps::no_round, crate::proofs::Steps::round_more, crate::proofs::Steps::rotated_more))]
pub(crate) fn sixteen_rounds(key: KeyState, block: Halves) -> Halves
    ensures { result ≡ sixteen_rounds (subkeys key) block }
{
    let mut keys = key;
    let mut halves = block;
    for (i, kc) in KC.iter().enumerate() {
        halves = halves.round(keys.subkeys(*kc));
        keys = keys.rotated(i + 1);
    }
    halves.exchanged()
}
