ghost use Rattle.std.specs.Prelude.{◌≡◌};
ghost use Rattle.memory.specs.Faults.{fault_number};

// Why a memory refuses.
#[derive(Clone, Copy, PartialEq, Eq, Debug)]
pub enum Fault {
    // The memory has no page of this number.
    PastEnd = 1,
    // The page is worn: it can be read, and no longer written.
    Worn = 2,
}

impl Fault {
    // The number by which a refusal is reported.
    // Form: a method, since `u8::from(fault)` would not say which number is meant.
    pub fn number(self) -> u8
        ensures { result ≡ fault_number self }
    {
        self as u8
    }
}
