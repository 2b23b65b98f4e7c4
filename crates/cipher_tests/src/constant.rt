// A sealer of a host's own: under one algorithm byte it gives the same four bytes for every key and message.
ghost use Rattle.std.specs.Prelude.{◌==◌};

use seal::{Sealer, WorkpadMessage};

#[derive(Drop)]
pub(crate) struct Constant {
    pub algorithm: u8,
    pub seal: [u8; 4],
}

impl Sealer for Constant {
    ghost registered = { λ s a. (a == s.algorithm) };

    ghost sealed = { λ s _ _ _. s.seal };

    ghost leaves = { λ _ _ _ workpad _. workpad };

    fn seal(
        &self,
        algorithm: u8,
        _key: [u8; 16],
        _message: &mut WorkpadMessage<'_>,
    ) -> Option<[u8; 4]> {
        (algorithm == self.algorithm).then_some(self.seal)
    }
}
