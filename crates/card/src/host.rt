ghost use Rattle.std.specs.Prelude.{◌≡◌};
ghost use Rattle.card.specs.Calls.{host_number, fault_refusal};

use memory::Fault;

// Why a call of the host cannot be served. Nothing that the host handed over has changed then.
#[derive(Clone, Copy, PartialEq, Eq, Debug)]
pub enum HostRefusal {
    // The memory has under 32 pages.
    TooFewPages = 2,
    // The issue record is not 192 bytes, or would not give a card that holds 0 records.
    WrongRecord = 3,
    // One of the pages that issue writes is worn.
    WornPage = 4,
    // The pages are not a card.
    NotACard = 5,
}

impl HostRefusal {
    // The number by which the host is told.
    // Form: a method, since `u8::from(refusal)` would not say which number is meant.
    pub fn number(self) -> u8
        ensures { result ≡ host_number self }
    {
        self as u8
    }
}

// What a refusal of the memory is to the host: where a page is not there, the memory has too few pages.
impl From<Fault> for HostRefusal {
    ghost from_gives = { λ fault refusal. refusal ≡ fault_refusal fault };

    fn from(fault: Fault) -> HostRefusal {
        match fault {
            Fault::PastEnd => HostRefusal::TooFewPages,
            Fault::Worn => HostRefusal::WornPage,
        }
    }
}
