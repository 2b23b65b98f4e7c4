// What a block cipher is.
ghost use Rattle.std.specs.Prelude.{◌≡◌, ℕ, List};
ghost use Rattle.cipher.specs.Cipher.{BlockSize};

// A cipher turns a key of 16 bytes and one block into one block. A block is handed over as 16 bytes, of which a cipher with the
// block size 8 uses the first 8; the others come out as its definition says.
pub trait Cipher {
    // the block size in bytes
    const BLOCK: usize;

    // the block size as clauses name it
    ghost BLOCK: { ℕ };
    // what a block becomes under a key
    ghost enciphered: { List ℕ → List ℕ → List ℕ };

    // The block under the key.
    fn encipher(key: [u8; 16], block: [u8; 16]) -> [u8; 16]
        ensures { result ≡ enciphered key block };

    ghost sized: { BlockSize BLOCK };
}
