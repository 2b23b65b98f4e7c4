ghost use Rattle.std.specs.Prelude.{◌≡◌};
ghost use Rattle.card.specs.Codec.{Decoded};
ghost use Rattle.card.specs.Header.{life_cycle_byte, life_cycle_of, block_flag_byte, block_flag_of, header_bytes, header_of};

use crate::bytes::part_at;
use crate::code::UnknownCode;
use crate::codec::Codec;

// Whether the card is before use or in use. Before use it takes no transaction.
#[derive(Clone, Copy, PartialEq, Eq, Debug)]
pub enum LifeCycle {
    BeforeUse = 0x03,
    InUse = 0x07,
}

// Whether the card is blocked. It then serves SELECT FILE, GET CHALLENGE and UNBLOCK alone.
#[derive(Clone, Copy, PartialEq, Eq, Debug)]
pub enum BlockFlag {
    Free = 0x00,
    Blocked = 0x01,
}

// What page 0 holds.
#[derive(Clone, Copy, PartialEq, Eq, Debug)]
pub struct Header {
    pub life: LifeCycle,
    pub block: BlockFlag,
    // ALG, the algorithm of the card's seals
    pub algorithm: u8,
    // VK, the key version
    pub version: u8,
    // IDCENTER, the issuing centre
    pub idcenter: u8,
    // IDEP, the card number
    pub idep: [u8; 8],
}

impl TryFrom<u8> for LifeCycle {
    type Error = UnknownCode;

    ghost try_from_gives = { λ byte r. Decoded (life_cycle_of byte) byte r };

    // Form: here, and for the two other enums, the codes stand again: a pattern takes no `LifeCycle::InUse as u8`, and guards would be no plainer.
    fn try_from(byte: u8) -> Result<LifeCycle, UnknownCode> {
        match byte {
            0x03 => Ok(LifeCycle::BeforeUse),
            0x07 => Ok(LifeCycle::InUse),
            _ => Err(UnknownCode(byte)),
        }
    }
}

impl From<LifeCycle> for u8 {
    ghost from_gives = { λ life byte. byte ≡ life_cycle_byte life };

    fn from(life: LifeCycle) -> u8 {
        life as u8
    }
}

impl TryFrom<u8> for BlockFlag {
    type Error = UnknownCode;

    ghost try_from_gives = { λ byte r. Decoded (block_flag_of byte) byte r };

    fn try_from(byte: u8) -> Result<BlockFlag, UnknownCode> {
        match byte {
            0x00 => Ok(BlockFlag::Free),
            0x01 => Ok(BlockFlag::Blocked),
            _ => Err(UnknownCode(byte)),
        }
    }
}

impl From<BlockFlag> for u8 {
    ghost from_gives = { λ block byte. byte ≡ block_flag_byte block };

    fn from(block: BlockFlag) -> u8 {
        block as u8
    }
}

impl Codec<16> for Header {
    ghost writes = { header_bytes };

    ghost reads = { header_of };

    // None where a byte is no life cycle or no block flag, or a fixed 00 is missing.
    fn decode(page: &[u8; 16]) -> Option<Header> {
        let [life, block, algorithm, version, idcenter, 0, 0, 0, ..] = *page else {
            return None;
        };
        Some(Header {
            life: LifeCycle::try_from(life).ok()?,
            block: BlockFlag::try_from(block).ok()?,
            algorithm,
            version,
            idcenter,
            idep: part_at(page, 8),
        })
    }

    fn encode(self) -> [u8; 16] {
        let mut page = [0; 16];
        page[0] = u8::from(self.life);
        page[1] = u8::from(self.block);
        page[2] = self.algorithm;
        page[3] = self.version;
        page[4] = self.idcenter;
        page[8..16].copy_from_slice(&self.idep);
        page
    }
}
