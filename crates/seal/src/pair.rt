// Two sealers as one.
ghost use Rattle.std.specs.Prelude.{true, if◌then◌else◌};

use crate::sealer::Sealer;
use crate::workpad_message::WorkpadMessage;

// Answers by the first of the two that has the algorithm registered. A part may be a pair itself.
#[derive(Drop)]
pub struct Pair<A, B> {
    pub first: A,
    pub second: B,
}

impl<A: Sealer, B: Sealer> Sealer for Pair<A, B> {
    ghost registered = { λ s a. (if A.Sealer.registered s.first a then true else B.Sealer.registered s.second a) };

    ghost sealed = { λ s a k m. (if A.Sealer.registered s.first a then A.Sealer.sealed s.first a k m else B.Sealer.sealed s.second a k m) };

    ghost leaves = { λ s a k p n. (if A.Sealer.registered s.first a then A.Sealer.leaves s.first a k p n else B.Sealer.leaves s.second a k p n) };

    fn seal(
        &self,
        algorithm: u8,
        key: [u8; 16],
        message: &mut WorkpadMessage<'_>,
    ) -> Option<[u8; 4]> {
        // Form: a match, since with `or_else` the proof does not learn what the closure leaves on the workpad (`returns-clause-workpad`).
        match self.first.seal(algorithm, key, message) {
            Some(seal) => Some(seal),
            None => self.second.seal(algorithm, key, message),
        }
    }
}
