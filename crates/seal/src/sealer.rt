// What a sealer is.
ghost use Rattle.std.specs.Prelude.{◌≡◌, ℕ, Bool, List};
ghost use Rattle.seal.specs.Sealer.{seal_answer, seal_workpad};
ghost use Rattle.seal.specs.WorkpadMessage.{message_bytes, WorkpadBecomes};

use crate::workpad_message::WorkpadMessage;

// A sealer gives a seal for an algorithm byte, a key of 16 bytes and a message, or "not registered" by the algorithm byte alone. What
// it gives is a function of these: the same each time.
pub trait Sealer {
    // whether it has the algorithm byte registered, that is, gives seals for it
    ghost registered: { Self → ℕ → Bool };
    // the four bytes of the seal, for an algorithm byte, a key and a message
    ghost sealed: { Self → ℕ → List ℕ → List ℕ → List ℕ };
    // what it leaves on a workpad whose first n bytes it sealed, for an algorithm byte, a key, the workpad before and n
    ghost leaves: { Self → ℕ → List ℕ → List ℕ → ℕ → List ℕ };

    // The seal of the message on the workpad.
    // Form: algorithm and key stay two parameters: one picks the sealer, the other goes to the cipher, and a struct of both is only taken apart.
    fn seal(
        &self,
        algorithm: u8,
        key: [u8; 16],
        message: &mut WorkpadMessage<'_>,
    ) -> Option<[u8; 4]>
        ensures answer { result ≡ seal_answer (registered self.now algorithm) (sealed self.now algorithm key (message_bytes message.old)) }
        ensures workpad { WorkpadBecomes message.old message.new (seal_workpad (registered self.now algorithm) (leaves self.now algorithm key message.old.workpad.now message.old.len) message.old.workpad.now) };
}
