// A test vector of a cipher.
use cipher::Cipher;

#[derive(Clone, Copy, Drop)]
pub(crate) struct Vector {
    pub key: u128,
    pub block: u128,
    pub result: u128,
}

impl Vector {
    // Whether the cipher makes the result of the block under the key.
    pub(crate) fn holds_for<C: Cipher>(self) -> bool {
        u128::from_be_bytes(C::encipher(self.key.to_be_bytes(), self.block.to_be_bytes()))
            == self.result
    }
}

// Whether the cipher meets all of the vectors.
pub(crate) fn all_hold<C: Cipher>(vectors: &[Vector]) -> bool {
    vectors.iter().all(|v| v.holds_for::<C>())
}
