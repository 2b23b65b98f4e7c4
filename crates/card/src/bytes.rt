ghost use Rattle.std.specs.Prelude.{◌≡◌, ◌+◌, ◌≤◌, length};
ghost use Rattle.card.specs.Bytes.{all_zero, part, word_at};

// Whether there is nothing but 00.
pub(crate) fn all_zero(bytes: &[u8]) -> bool
    ensures { result ≡ all_zero bytes.now }
{
    bytes.iter().all(|b| *b == 0)
}

// N bytes from `at` on.
pub(crate) fn part_at<const N: usize>(bytes: &[u8], at: usize) -> [u8; N]
    requires { at + N ≤ length bytes.now }
    ensures { result ≡ part at N bytes.now }
{
    bytes[at..at + N].try_into().unwrap()
}

// The number whose four bytes, highest first, stand at `at`.
#[tactic(auto, unfolding(crate::specs::Bytes::word))]
pub(crate) fn word_at(bytes: &[u8], at: usize) -> u32
    requires { at + 4 ≤ length bytes.now }
    ensures { result ≡ word_at at bytes.now }
{
    u32::from_be_bytes(part_at(bytes, at))
}
