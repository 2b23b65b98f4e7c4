// The cipher function f.
ghost use Rattle.std.specs.Prelude.{◌≡◌, ◌+◌, ◌<◌};
ghost use Rattle.des.specs.Boxes.{entry};
ghost use Rattle.des.specs.Function.{six_bits, selected, f};

use crate::tables::{E, P, S};

// The entry of a table that the six bits `b` choose.
fn entry(table: &[u8; 64], b: usize) -> u8
    requires { b < 64 }
    ensures { result ≡ entry table.now b }
{
    let row = b / 32 * 2 + b % 2;
    let column = b / 2 % 16;
    table[row * 16 + column]
}

// Of 48 bits, the block of six bits after the first `i` blocks.
fn six_bits(x: u64, i: usize) -> usize
    requires { i < 8 }
    ensures { result ≡ six_bits x (i + 1) }
{
    ((x >> (42 - 6 * i)) % 64) as usize
}

// S1(B1) S2(B2) .. S8(B8): 32 bits.
#[tactic(auto, using(crate::proofs::Selected::selected_lt, crate::proofs::Selected::selected_more))]
fn selections(x: u64) -> u64
    ensures { result ≡ selected x 8 }
{
    let mut out = 0u64;
    for (i, table) in S.iter().enumerate() {
        out = out * 16 + u64::from(entry(table, six_bits(x, i)));
    }
    out
}

// f of the right half and the key of the round.
pub(crate) fn cipher_function(r: u64, k: u64) -> u64
    ensures { result ≡ f r k }
{
    P.apply(selections(k ^ E.apply(r)))
}
