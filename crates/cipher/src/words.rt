// A key or a block of 16 bytes as two words of 64 bits, the highest byte first.
ghost use Rattle.std.specs.Prelude.{◌≡◌, ◌++◌};
ghost use Rattle.cipher.specs.Words.{word_at, bytes_of};

// The words of bytes 0 to 7 and of bytes 8 to 15.
#[tactic(auto, unfolding(crate::specs::Words::word_of))]
pub fn words_of(bytes: [u8; 16]) -> (u64, u64)
    ensures first { result.0 ≡ word_at bytes 0 }
    ensures second { result.1 ≡ word_at bytes 8 }
{
    let (words, _) = bytes.as_chunks::<8>();
    (u64::from_be_bytes(words[0]), u64::from_be_bytes(words[1]))
}

// Two words as 16 bytes.
#[tactic(auto, using(crate::proofs::Joined::put_second), unfolding(crate::specs::Words::bytes_of))]
pub fn block_of(first: u64, second: u64) -> [u8; 16]
    ensures { result ≡ bytes_of first ++ bytes_of second }
{
    let mut block = [0u8; 16];
    block[..8].copy_from_slice(&first.to_be_bytes());
    block[8..].copy_from_slice(&second.to_be_bytes());
    block
}
