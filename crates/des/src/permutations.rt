// Permutations and selections of the bits of a word. Bit 1 is the leftmost.
ghost use Rattle.std.specs.Prelude.{◌≡◌, ◌≤◌, T, length};
ghost use Rattle.des.specs.Permutations.{permuted, names_bits};

// A permutation or selection: of a word of `width` bits, the bits that the table names, in its order.
pub(crate) struct Permutation {
    pub(crate) width: u32,
    pub(crate) table: &'static [u8],
    ghost wide: { width ≤ 64 },
    ghost short: { length table.now ≤ 64 },
    ghost places: { T (names_bits width table.now) },
}

impl Permutation {
    #[tactic(auto, using(crate::proofs::Permuted::names_at, crate::proofs::Permuted::with_bit_fits, crate::proofs::Permuted::permuted_more), unfolding(crate::specs::Permutations::permuted))]
    pub(crate) fn apply(&self, x: u64) -> u64
        ensures { result ≡ permuted self.now.width self.now.table.now x }
    {
        let mut out = 0u64;
        for entry in self.table {
            out = out * 2 + (x >> (self.width - u32::from(*entry))) % 2;
        }
        out
    }
}
