#![tactic(auto)]

// The sealer that cards are issued for: SEED under the algorithm byte 00, two-key Triple DES under 10.
ghost use Rattle.std.specs.Prelude.{◌≡◌, length};
ghost use Rattle.seal.specs.Message.{message_seal, message_workpad};
ghost use Rattle.sealers.specs.CardSealer.{card_registered, card_sealed};
ghost use Rattle.sealers.specs.Examples.{ExamplesHold};

use des::TripleDes;
use seal::{Pair, SealRefusal, Single, seal_message};
use seed::Seed;

// The algorithm byte of SEED.
// Form: numbers and not an enum, since a host's own sealer may have any algorithm byte registered.
const SEED: u8 = 0x00;

// The algorithm byte of two-key Triple DES.
const TRIPLE_DES: u8 = 0x10;

// The pair of both sealers.
pub fn card_sealer() -> Pair<Single<Seed>, Single<TripleDes>>
    ensures seed { result.first.algorithm ≡ 0x00 }
    ensures triple_des { result.second.algorithm ≡ 0x10 }
{
    Pair {
        first: Single {
            algorithm: SEED,
            cipher: Seed,
        },
        second: Single {
            algorithm: TRIPLE_DES,
            cipher: TripleDes,
        },
    }
}

// The seal of a message by the card's sealer, worked out on the lent workpad. The last clause says that the examples of docs/SEALS.md hold.
// Form: a host's inputs stay apart: a struct of algorithm, key and message would borrow what its caller owns, and be taken apart here at once.
#[tactic(auto, using(crate::proofs::Examples::examples_hold))]
pub fn card_seal(
    algorithm: u8,
    key: [u8; 16],
    message: &[u8],
    workpad: &mut [u8],
) -> Result<[u8; 4], SealRefusal>
    ensures answer { result ≡ message_seal (card_registered algorithm) (card_sealed algorithm key message.now) (length message.now) (length workpad.old) }
    ensures workpad { workpad.new ≡ message_workpad (length message.now) workpad.old }
    ensures examples { ExamplesHold }
{
    seal_message(&card_sealer(), algorithm, key, message, workpad)
}
