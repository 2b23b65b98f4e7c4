// The seal of a message that stands elsewhere than on the workpad.
ghost use Rattle.std.specs.Prelude.{◌≡◌, ◌+◌, ◌≤◌, length};
ghost use Rattle.seal.specs.Chain.{ShortMessages};
ghost use Rattle.seal.specs.Padding.{PaddingRule, padding_rows, RowsHold};
ghost use Rattle.seal.specs.Message.{message_seal, message_workpad};
ghost use Rattle.seal.specs.Sealer.{seal_answer};

use crate::sealer::Sealer;
use crate::workpad::Workpad;
use crate::workpad_message::WorkpadMessage;

// Why a message gets no seal.
#[derive(Clone, Copy, Debug, PartialEq, Eq, Drop)]
pub enum SealRefusal {
    // the workpad has fewer bytes than the message and 16 more
    SmallWorkpad,
    // the sealer does not have the algorithm registered
    NotRegistered,
}

// The seal of a message, worked out on the lent workpad. A workpad that is too small is left as it was; any other is all zero afterwards.
// The clauses after the first two are laws of the definitions: of the padding, and of the chaining of a short message.
// Form: a host's inputs stay apart: a struct of algorithm, key and message would borrow what its caller owns, and be taken apart here at once.
#[tactic(auto, using(crate::proofs::Padded::padding_rule, crate::proofs::Padded::padding_table, crate::proofs::Chains::short_messages))]
pub fn seal_message<S: Sealer>(
    sealer: &S,
    algorithm: u8,
    key: [u8; 16],
    message: &[u8],
    workpad: &mut [u8],
) -> Result<[u8; 4], SealRefusal>
    ensures answer { result ≡ message_seal (S.registered sealer.now algorithm) (S.sealed sealer.now algorithm key message.now) (length message.now) (length workpad.old) }
    ensures workpad { workpad.new ≡ message_workpad (length message.now) workpad.old }
    ensures padding { PaddingRule }
    ensures padded_lengths { RowsHold padding_rows }
    ensures short { ShortMessages }
{
    if workpad.len() < 16 || workpad.len() - 16 < message.len() {
        return Err(SealRefusal::SmallWorkpad);
    }
    let guard = Workpad { bytes: workpad };
    seal_copied(sealer, algorithm, key, message, guard.bytes).ok_or(SealRefusal::NotRegistered)
}

// Copies the message to the workpad's start and seals it there.
#[tactic(auto, using(std::proofs::lemmas::List::take_at))]
fn seal_copied<S: Sealer>(
    sealer: &S,
    algorithm: u8,
    key: [u8; 16],
    message: &[u8],
    workpad: &mut [u8],
) -> Option<[u8; 4]>
    requires { length message.now + 16 ≤ length workpad.old }
    ensures { result ≡ seal_answer (S.registered sealer.now algorithm) (S.sealed sealer.now algorithm key message.now) }
{
    workpad[..message.len()].copy_from_slice(message);
    let mut copy = WorkpadMessage {
        workpad,
        len: message.len(),
    };
    sealer.seal(algorithm, key, &mut copy)
}
