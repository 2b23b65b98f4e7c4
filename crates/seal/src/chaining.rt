// The chaining of a message's blocks, for every cipher.
ghost use Rattle.std.specs.Prelude.{◌≡◌, ◌/◌, ◌≤◌, length};
ghost use Rattle.seal.specs.Padding.{padded_workpad};
ghost use Rattle.seal.specs.Chain.{xored, chained, last_result};
ghost use Rattle.seal.specs.WorkpadMessage.{message_bytes, WorkpadBecomes};

use crate::workpad_message::WorkpadMessage;
use cipher::Cipher;

// The block with a block of the text XORed in.
#[tactic(auto, using(crate::proofs::Chains::xor_steps))]
fn xor_in(mut block: [u8; 16], part: &[u8]) -> [u8; 16]
    requires { length part.now ≤ 16 }
    ensures { result ≡ xored block part.now }
{
    // Form: by index, since of what an adapter of `iter_mut` writes the proof learns nothing (`returns`).
    for (i, byte) in part.iter().enumerate() {
        block[i] ^= *byte;
    }
    block
}

// The result after the whole blocks of a text.
#[tactic(auto, using(crate::proofs::Chains::chain_steps))]
fn chain<C: Cipher>(key: [u8; 16], text: &[u8]) -> [u8; 16]
    ensures { result ≡ chained (C.enciphered key) C.BLOCK text.now (length text.now / C.BLOCK) }
{
    let mut block = [0u8; 16];
    for part in text.chunks_exact(C::BLOCK) {
        block = C::encipher(key, xor_in(block, part));
    }
    block
}

// The last result for a message on a workpad; it is padded there.
#[tactic(auto, using(crate::proofs::Padded::at_most_16, crate::proofs::Padded::at_most_one_more, crate::proofs::Chains::chain_padded))]
pub(crate) fn last_result<C: Cipher>(key: [u8; 16], message: &mut WorkpadMessage<'_>) -> [u8; 16]
    ensures value { result ≡ last_result (C.enciphered key) C.BLOCK (message_bytes message.old) }
    ensures workpad { WorkpadBecomes message.old message.new (padded_workpad C.BLOCK message.old.workpad.now message.old.len) }
{
    let end = message.pad(C::BLOCK);
    chain::<C>(key, message.start(end))
}
