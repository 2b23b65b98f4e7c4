ghost use Rattle.std.specs.Prelude.{◌≡◌, length, replicate};

// A page of a wearing memory, and how many writes it has left.
#[derive(Clone, Copy, Drop)]
pub(crate) struct WearingPage {
    pub bytes: [u8; 16],
    pub left: u16,
    ghost sized: { length bytes ≡ 16 },
}

impl WearingPage {
    // A page of 00.
    pub fn blank(left: u16) -> WearingPage
        ensures bytes { result.bytes ≡ replicate 16 0 }
        ensures left { result.left ≡ left }
    {
        WearingPage {
            bytes: [0; 16],
            left,
        }
    }
}
