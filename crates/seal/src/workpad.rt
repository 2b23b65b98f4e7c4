// The workpad: bytes that the host lends, on which seals are worked out.
ghost use Rattle.std.specs.Prelude.{◌≡◌, length, replicate};

// A guard over the lent bytes of a workpad. When it is dropped, all of them are 00.
pub struct Workpad<'a> {
    pub bytes: &'a mut [u8],
}

impl Drop for Workpad<'_> {
    fn drop(self)
        ensures { self.exit.0.now ≡ replicate (length self.entry.bytes.now) 0 }
    {
        self.bytes.fill(0);
        let Workpad { bytes: _ } = self;
    }
}
