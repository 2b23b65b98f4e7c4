// A message on a workpad, and its padding.
ghost use Rattle.std.specs.Prelude.{◌≡◌, ◌+◌, ◌*◌, ◌≤◌, length, take};
ghost use Rattle.cipher.specs.Cipher.{BlockSize};
ghost use Rattle.seal.specs.Padding.{blocks, padded, padded_workpad};

// A message of `len` bytes that stands at the start of a workpad, with at least 16 bytes behind it for its padding.
// Form: a length beside the bytes, since the padding goes into the bytes behind the message.
#[derive(Drop)]
pub struct WorkpadMessage<'a> {
    pub workpad: &'a mut [u8],
    pub len: usize,
    ghost room: { len + 16 ≤ length workpad.now },
}

impl WorkpadMessage<'_> {
    ghost use Rattle.seal.specs.WorkpadMessage.{message_bytes, WorkpadBecomes};

    // Pads the message in place to whole blocks of `size` bytes, and returns how long it then is.
    #[tactic(auto, using(crate::proofs::Padded::padding_steps), unfolding(crate::specs::Padding::blocks))]
    pub(crate) fn pad(&mut self, size: usize) -> usize
        requires { BlockSize size }
        ensures end { result ≡ blocks size self.old.len * size }
        ensures text { take result self.new.workpad.now ≡ padded size (message_bytes self.old) }
        ensures workpad { WorkpadBecomes self.old self.new (padded_workpad size self.old.workpad.now self.old.len) }
    {
        let end = (self.len / size + 1) * size;
        self.workpad[self.len] = 0x80;
        self.workpad[self.len + 1..end].fill(0);
        end
    }

    // The first `end` bytes of the workpad.
    pub fn start(&self, end: usize) -> &[u8]
        requires { end ≤ length self.now.workpad.now }
        ensures { result.now ≡ take end self.now.workpad.now }
    {
        &self.workpad[..end]
    }
}
