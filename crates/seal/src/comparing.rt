// The comparison of two seals.
ghost use Rattle.std.specs.Prelude.{◌≡◌, ◌==◌};
ghost use Rattle.std.specs.Str.{bytes_eq};
ghost use Rattle.seal.specs.Compare.{number_of};

// Whether two seals are the same.
pub fn same_seal(a: [u8; 4], b: [u8; 4]) -> bool
    ensures { result ≡ bytes_eq a b }
{
    same_number(a, b)
}

// One comparison of the two numbers that the bytes are, and not byte by byte: the steps are to be the same whatever the bytes are.
// Form: apart from `same_seal`: in one function `using` the lemma that ties numbers and bytes leaves the goal `returns` to a proof file.
fn same_number(a: [u8; 4], b: [u8; 4]) -> bool
    ensures { result ≡ (number_of a == number_of b) }
{
    u32::from_be_bytes(a) == u32::from_be_bytes(b)
}
