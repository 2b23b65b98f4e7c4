// SEED on a block, and as a cipher.
ghost use Rattle.std.specs.Prelude.{◌≡◌};
ghost use Rattle.seed.specs.Field.{BoxesByRule};
ghost use Rattle.seed.specs.Function.{GExtended};
ghost use Rattle.seed.specs.Keys.{ConstantsByRotation};
ghost use Rattle.seed.specs.Seed.{seed_enciphered, DecipheringUndoes};
ghost use Rattle.seed.specs.Vectors.{VectorsAsPublished};
ghost use Rattle.std.proofs.Common.{rules};

use crate::keys::KeyState;
use crate::rounds::{Halves, sixteen_rounds};
use cipher::Cipher;

// The cipher SEED.
#[derive(Clone, Copy, Drop)]
pub struct Seed;

impl Cipher for Seed {
    const BLOCK: usize = 16;

    ghost BLOCK = { 16 };

    ghost enciphered = { seed_enciphered };

    ghost sized = { Prim.search rules };

    // SEED of a block under a key. The clauses after the first are laws of the definition: the S-boxes follow their algebraic rule, G is the
    // sum of the extended S-boxes, the constants are rotations of the first, the subkeys in reverse order decipher, and the test vectors hold.
    #[tactic(auto, unfolding(crate::specs::Seed::seed_enciphered))]
    fn encipher(key: [u8; 16], block: [u8; 16]) -> [u8; 16]
        ensures value { result ≡ seed_enciphered key block }
        ensures boxes { BoxesByRule }
        ensures extended { GExtended }
        ensures constants { ConstantsByRotation }
        ensures deciphering { DecipheringUndoes }
        ensures vectors { VectorsAsPublished }
    {
        sixteen_rounds(KeyState::new(key), Halves::new(block)).to_block()
    }
}
