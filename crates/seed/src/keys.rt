// The key schedule.
ghost use Rattle.std.specs.Prelude.{◌≡◌};
ghost use Rattle.seed.specs.Keys.{key_state, subkeys_with, rotated};

use crate::function::function_g;
use crate::words::split;
use cipher::words_of;

// The constants KC0 to KC15.
#[rattlefmt::skip]
pub(crate) const KC: [u32; 16] = [
    0x9e3779b9, 0x3c6ef373, 0x78dde6e6, 0xf1bbcdcc,
    0xe3779b99, 0xc6ef3733, 0x8dde6e67, 0x1bbcdccf,
    0x3779b99e, 0x6ef3733c, 0xdde6e678, 0xbbcdccf1,
    0x779b99e3, 0xef3733c6, 0xde6e678d, 0xbcdccf1b,
];

// The subkeys of a round, Ki0 and Ki1.
#[derive(Clone, Copy)]
pub(crate) struct Subkeys {
    pub(crate) k0: u32,
    pub(crate) k1: u32,
}

// The key between two rounds: A || B and C || D.
#[derive(Clone, Copy)]
pub(crate) struct KeyState {
    ab: u64,
    cd: u64,
}

impl KeyState {
    // The key before the first round.
    pub(crate) fn new(key: [u8; 16]) -> KeyState
        ensures { result ≡ key_state key }
    {
        let (ab, cd) = words_of(key);
        KeyState { ab, cd }
    }

    // The subkeys of a round with the constant `kc`.
    pub(crate) fn subkeys(self, kc: u32) -> Subkeys
        ensures { result ≡ subkeys_with self kc }
    {
        let (a, b) = split(self.ab);
        let (c, d) = split(self.cd);
        Subkeys {
            k0: function_g(a.wrapping_add(c).wrapping_sub(kc)),
            k1: function_g(b.wrapping_sub(d).wrapping_add(kc)),
        }
    }

    // The key after round `i`.
    pub(crate) fn rotated(self, i: usize) -> KeyState
        ensures { result ≡ rotated self i }
    {
        if i % 2 == 1 {
            KeyState {
                ab: self.ab.rotate_right(8),
                ..self
            }
        } else {
            KeyState {
                cd: self.cd.rotate_left(8),
                ..self
            }
        }
    }
}
