ghost use Rattle.std.specs.Prelude.{◌≡◌, ℕ, List, Option};
ghost use Rattle.card.specs.Codec.{RoundTrip};

// A value that stands in N bytes.
pub trait Codec<const N: usize>: Sized {
    // The bytes of a value.
    ghost writes: { Self → List ℕ };

    // The value that bytes are; none where they are none.
    ghost reads: { List ℕ → Option Self };

    fn decode(bytes: &[u8; N]) -> Option<Self>
        ensures { result ≡ reads bytes.now };

    fn encode(self) -> [u8; N]
        ensures bytes { result ≡ writes self }
        ensures back { RoundTrip N writes reads self };
}
