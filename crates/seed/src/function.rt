// The functions G and F.
ghost use Rattle.std.specs.Prelude.{◌≡◌};
ghost use Rattle.seed.specs.Function.{g, f};

use crate::keys::Subkeys;
use crate::tables::ss;
use crate::words::{join, split};

// The function G: SS0(X0) ^ SS1(X1) ^ SS2(X2) ^ SS3(X3).
#[tactic(auto, using(crate::proofs::Extended::g_extended))]
pub(crate) fn function_g(x: u32) -> u32
    ensures { result ≡ g x }
{
    let [x3, x2, x1, x0] = x.to_be_bytes();
    ss(0, x0) ^ ss(1, x1) ^ ss(2, x2) ^ ss(3, x3)
}

// The function F of the 64 bits R = R0 || R1.
pub(crate) fn function_f(k: Subkeys, r: u64) -> u64
    ensures { result ≡ f k r }
{
    let (r0, r1) = split(r);
    let inner = function_g(r0 ^ k.k0 ^ (r1 ^ k.k1));
    let middle = function_g(inner.wrapping_add(r0 ^ k.k0));
    let last = function_g(middle.wrapping_add(inner));
    join(last.wrapping_add(middle), last)
}
