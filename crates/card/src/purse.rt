ghost use Rattle.std.specs.Prelude.{◌≡◌, ◌∷◌, ◌++◌, replicate};
ghost use Rattle.card.specs.Bytes.{four};
ghost use Rattle.card.specs.Purse.{last_byte, last_of, purse_bytes, purse_of, newest_slot};

use crate::bytes::word_at;
use crate::codec::Codec;
use crate::record::Kind;

// What page 2 holds.
#[derive(Clone, Copy, PartialEq, Eq, Debug)]
pub struct Purse {
    // in whole won
    pub total: u32,
    // NT, the transaction number
    pub nt: u32,
    // the slot of the log that the next record goes to, 0 to 9
    pub next: u8,
    // how many records the log holds, 0 to 10
    pub held: u8,
    // what the newest record is: none where nothing is held, a ride, which can be repeated and cancelled, or a cancel
    pub last: Option<Kind>,
}

// The last that the byte is the code of; none where it is no code.
// Form: two functions, as TryFrom and From cannot be written here for an Option, and a type around one would be no plainer.
fn last_from_byte(byte: u8) -> Option<Option<Kind>>
    ensures { result ≡ last_of byte }
{
    match byte {
        0x00 => Some(None),
        0x01 => Some(Some(Kind::Ride)),
        0x02 => Some(Some(Kind::Cancel)),
        _ => None,
    }
}

fn last_byte(last: Option<Kind>) -> u8
    ensures { result ≡ last_byte last }
{
    match last {
        None => 0x00,
        Some(Kind::Ride) => 0x01,
        Some(Kind::Cancel) => 0x02,
    }
}

impl Codec<16> for Purse {
    ghost writes = { purse_bytes };

    ghost reads = { purse_of };

    // None where last is no code, or a fixed 00 is missing.
    fn decode(page: &[u8; 16]) -> Option<Purse> {
        let [.., next, held, last, 0, 0, 0, 0, 0] = *page else {
            return None;
        };
        Some(Purse {
            total: word_at(page, 0),
            nt: word_at(page, 4),
            next,
            held,
            last: last_from_byte(last)?,
        })
    }

    #[tactic(auto, using(crate::proofs::RoundTrips::purse_round))]
    fn encode(self) -> [u8; 16] {
        let mut page = [0; 16];
        page[0..4].copy_from_slice(&self.total.to_be_bytes());
        page[4..8].copy_from_slice(&self.nt.to_be_bytes());
        page[8..11].copy_from_slice(&[self.next, self.held, last_byte(self.last)]);
        page
    }
}

impl Purse {
    // The slot of the newest record; where nothing is held there is none.
    pub fn newest_slot(&self) -> Option<u8>
        ensures { result ≡ newest_slot self.now }
    {
        (self.held > 0).then(|| ((u16::from(self.next) + 9) % 10) as u8)
    }
}
