// The Data Encryption Algorithm on a block of 64 bits.
ghost use Rattle.std.specs.Prelude.{◌≡◌};
ghost use Rattle.des.specs.Des.{preoutput, des, des_enciphered, des_deciphered};

use crate::function::cipher_function;
use crate::keys::key_schedule;
use crate::tables::{IP, IP_INVERSE};

// A round with each key, then the preoutput: the right half before the left.
#[tactic(auto, using(crate::proofs::Halves::after_words), unfolding(crate::specs::Des::preoutput))]
fn preoutput(keys: &[u64], x: u64) -> u64
    ensures { result ≡ preoutput keys.now x }
{
    let mut left = x >> 32;
    let mut right = x % 0x1_0000_0000;
    for key in keys {
        (left, right) = (right, left ^ cipher_function(right, *key));
    }
    right * 0x1_0000_0000 + left
}

// The whole computation with the given keys.
fn des_with(keys: &[u64], x: u64) -> u64
    ensures { result ≡ des keys.now x }
{
    IP_INVERSE.apply(preoutput(keys, IP.apply(x)))
}

// Enciphers one block.
pub(crate) fn des_encipher(key: u64, x: u64) -> u64
    ensures { result ≡ des_enciphered key x }
{
    des_with(&key_schedule(key), x)
}

// Deciphers one block: the keys in reverse order.
pub(crate) fn des_decipher(key: u64, x: u64) -> u64
    ensures { result ≡ des_deciphered key x }
{
    let mut keys = key_schedule(key);
    keys.reverse();
    des_with(&keys, x)
}
