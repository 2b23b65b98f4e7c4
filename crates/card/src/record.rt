ghost use Rattle.std.specs.Prelude.{◌≡◌};
ghost use Rattle.card.specs.Codec.{Decoded};
ghost use Rattle.card.specs.Record.{kind_byte, kind_of, record_bytes, record_of};

use crate::bytes::{part_at, word_at};
use crate::code::UnknownCode;
use crate::codec::Codec;

// What a record of the log tells of. A repeat has no record.
#[derive(Clone, Copy, PartialEq, Eq, Debug)]
pub enum Kind {
    Ride = 0x20,
    Cancel = 0x22,
}

// A record of the log.
#[derive(Clone, Copy, PartialEq, Eq, Debug)]
pub struct Record {
    pub kind: Kind,
    // NT, the transaction number
    pub nt: u32,
    // M, in whole won
    pub amount: u32,
    // the terminal's number
    pub idsam: [u8; 8],
    // the terminal's counter
    pub ntsam: u32,
    pub time: [u8; 7],
    // the total after it, in whole won
    pub total: u32,
}

impl TryFrom<u8> for Kind {
    type Error = UnknownCode;

    ghost try_from_gives = { λ byte r. Decoded (kind_of byte) byte r };

    fn try_from(byte: u8) -> Result<Kind, UnknownCode> {
        match byte {
            0x20 => Ok(Kind::Ride),
            0x22 => Ok(Kind::Cancel),
            _ => Err(UnknownCode(byte)),
        }
    }
}

impl From<Kind> for u8 {
    ghost from_gives = { λ kind byte. byte ≡ kind_byte kind };

    fn from(kind: Kind) -> u8 {
        kind as u8
    }
}

impl Codec<32> for Record {
    ghost writes = { record_bytes };

    ghost reads = { record_of };

    // None where the first byte is no kind.
    fn decode(bytes: &[u8; 32]) -> Option<Record> {
        let kind = Kind::try_from(bytes[0]).ok()?;
        Some(Record {
            kind,
            nt: word_at(bytes, 1),
            amount: word_at(bytes, 5),
            idsam: part_at(bytes, 9),
            ntsam: word_at(bytes, 17),
            time: part_at(bytes, 21),
            total: word_at(bytes, 28),
        })
    }

    // Written from the last field to the first.
    fn encode(self) -> [u8; 32] {
        let mut bytes = [0; 32];
        bytes[28..32].copy_from_slice(&self.total.to_be_bytes());
        bytes[21..28].copy_from_slice(&self.time);
        bytes[17..21].copy_from_slice(&self.ntsam.to_be_bytes());
        bytes[9..17].copy_from_slice(&self.idsam);
        bytes[5..9].copy_from_slice(&self.amount.to_be_bytes());
        bytes[1..5].copy_from_slice(&self.nt.to_be_bytes());
        bytes[0] = u8::from(self.kind);
        bytes
    }
}
