// The key schedule KS.
ghost use Rattle.std.specs.Prelude.{◌≡◌, ◌^◌, ◌<◌, ◌≤◌};
ghost use Rattle.des.specs.Keys.{left_shifts, key_schedule};

use crate::tables::{PC_1, PC_2, shifts};

// C or D after `s` left shifts.
#[tactic(auto, using(crate::proofs::Shifted::shifted_is))]
fn shifted_half(s: u8, c: u64) -> u64
    requires least { 1 ≤ s }
    requires most { s ≤ 2 }
    requires half { c < 2 ^ 28 }
    ensures { result ≡ left_shifts s c }
{
    (c << s) % 0x1000_0000 | c >> (28 - s)
}

// The keys K1 to K16.
#[tactic(auto, using(crate::proofs::Shifted::c_half_lt, crate::proofs::Shifted::d_half_lt))]
pub(crate) fn key_schedule(key: u64) -> [u64; 16]
    ensures { result ≡ key_schedule key }
{
    let chosen = PC_1.apply(key);
    let mut c = chosen >> 28;
    let mut d = chosen % 0x1000_0000;
    let mut keys = [0u64; 16];
    // Form: by index, since of what an adapter of `iter_mut` writes the proof learns nothing (goal `returns`).
    for (n, s) in shifts().iter().enumerate() {
        c = shifted_half(*s, c);
        d = shifted_half(*s, d);
        keys[n] = PC_2.apply(c * 0x1000_0000 + d);
    }
    keys
}
