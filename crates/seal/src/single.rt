// A sealer of one algorithm.
ghost use Rattle.std.specs.Prelude.{◌==◌};
ghost use Rattle.seal.specs.Chain.{seal_by};
ghost use Rattle.seal.specs.Padding.{padded_workpad};

use crate::chaining::last_result;
use crate::sealer::Sealer;
use crate::workpad_message::WorkpadMessage;
use cipher::Cipher;

// One cipher, registered under one algorithm byte.
#[derive(Drop)]
pub struct Single<C> {
    pub algorithm: u8,
    pub cipher: C,
}

impl<C: Cipher> Sealer for Single<C> {
    ghost registered = { λ s a. (a == s.algorithm) };

    ghost sealed = { λ s a k m. seal_by (C.Cipher.enciphered k) C.Cipher.BLOCK m };

    ghost leaves = { λ s a k p n. padded_workpad C.Cipher.BLOCK p n };

    fn seal(
        &self,
        algorithm: u8,
        key: [u8; 16],
        message: &mut WorkpadMessage<'_>,
    ) -> Option<[u8; 4]> {
        if algorithm != self.algorithm {
            return None;
        }
        let [a, b, c, d, ..] = last_result::<C>(key, message);
        Some([a, b, c, d])
    }
}
