// Issue accepted, each of its refusals, and wear.
use crate::states::{challenged, numbered};
use card::{State, read_card, sample_record};
use engine::{issue, power_on};
use memory::{Image, Memory, Wearing};
use std::test::Fail;

#[test]
fn is_accepted_on_an_image(rt: HostRuntime) -> Result<(), Fail> {
    // 33 whole pages and five bytes more, all A5
    let mut bytes = [0xA5; 533];
    let mut image = Image::new(&mut bytes);
    let mut state = challenged();
    assert_eq!(rt;
        numbered(issue(&mut image, &mut state, &sample_record())),
        Ok(())
    );
    assert_eq!(rt; state, State::at_rest());
    assert_eq!(rt;
        image.read(1)?,
        [
            0x00, 0x00, 0x0B, 0xB8, 0x00, 0x07, 0xA1, 0x20, 0, 0, 0, 0, 0, 0, 0, 0,
        ]
    );
    assert_eq!(rt; image.read(10)?, [1; 16]);
    assert_eq!(rt; image.read(12)?, [0; 16]);
    assert_eq!(rt; image.read(31)?, [0; 16]);
    assert_eq!(rt; image.read(32)?, [0xA5; 16]);
    let card = read_card(&image).ok_or("no card")?;
    assert_eq!(rt; card.purse.total, 0);
    assert_eq!(rt; card.purse.held, 0);
    assert!(rt; card.newest.is_none());
    assert_eq!(rt; numbered(power_on(&image, &mut state)), Ok(()));
    // the lender finds the card in its bytes, and those past the last whole page as they were
    assert_eq!(rt; bytes[0], 0x07);
    assert_eq!(rt; bytes[527], 0xA5);
    assert_eq!(rt; bytes[532], 0xA5);
    Ok(())
}

#[test]
fn is_refused_by_2_under_32_pages(rt: HostRuntime) -> Result<(), Fail> {
    let mut bytes = [0xA5; 511];
    let mut image = Image::new(&mut bytes);
    let mut state = challenged();
    assert_eq!(rt;
        numbered(issue(&mut image, &mut state, &sample_record())),
        Err(2)
    );
    // an unfit record too: the number of pages decides first
    assert_eq!(rt; numbered(issue(&mut image, &mut state, &[])), Err(2));
    assert_eq!(rt; numbered(power_on(&image, &mut state)), Err(2));
    assert_eq!(rt; state, challenged());
    assert_eq!(rt; image.read(0)?, [0xA5; 16]);
    Ok(())
}

// The sample card's issue record with one byte replaced.
fn record_with(at: usize, byte: u8) -> [u8; 192] {
    let mut record = sample_record();
    if at < 192 {
        record[at] = byte;
    }
    record
}

#[test]
fn is_refused_by_3_for_another_record(rt: HostRuntime) -> Result<(), Fail> {
    // every page is worn: the record decides first
    let mut memory = Wearing::new([0; 64]);
    let mut state = challenged();
    let record = sample_record();
    assert_eq!(rt;
        numbered(issue(&mut memory, &mut state, &record[0..191])),
        Err(3)
    );
    let mut longer = [0; 193];
    longer[0..192].copy_from_slice(&record);
    assert_eq!(rt; numbered(issue(&mut memory, &mut state, &longer)), Err(3));
    // no life cycle, a total of 16,777,216 above the limit, last 01 while nothing is held, a byte of page 11
    assert_eq!(rt;
        numbered(issue(&mut memory, &mut state, &record_with(0, 0x04))),
        Err(3)
    );
    assert_eq!(rt;
        numbered(issue(&mut memory, &mut state, &record_with(32, 0x01))),
        Err(3)
    );
    assert_eq!(rt;
        numbered(issue(&mut memory, &mut state, &record_with(42, 0x01))),
        Err(3)
    );
    assert_eq!(rt;
        numbered(issue(&mut memory, &mut state, &record_with(176, 0x01))),
        Err(3)
    );
    // a card that holds a record: next 1, held 1, last 01
    let mut holds_one = record;
    holds_one[40] = 1;
    holds_one[41] = 1;
    holds_one[42] = 1;
    assert_eq!(rt;
        numbered(issue(&mut memory, &mut state, &holds_one)),
        Err(3)
    );
    assert_eq!(rt; state, challenged());
    assert_eq!(rt; memory.read(0)?, [0; 16]);
    Ok(())
}

// Before use, blocked, with a total of 256 and with an NT of 255.
#[test]
fn is_accepted_with_other_allowed_values(rt: HostRuntime) -> Result<(), Fail> {
    let mut bytes = [0; 512];
    let mut image = Image::new(&mut bytes);
    let mut state = challenged();
    assert_eq!(rt;
        numbered(issue(&mut image, &mut state, &record_with(0, 0x03))),
        Ok(())
    );
    assert_eq!(rt;
        numbered(issue(&mut image, &mut state, &record_with(1, 0x01))),
        Ok(())
    );
    assert_eq!(rt;
        numbered(issue(&mut image, &mut state, &record_with(34, 0x01))),
        Ok(())
    );
    assert_eq!(rt;
        numbered(issue(&mut image, &mut state, &record_with(39, 0xFF))),
        Ok(())
    );
    let card = read_card(&image).ok_or("no card")?;
    assert_eq!(rt; card.purse.nt, 255);
    Ok(())
}

#[test]
fn is_refused_by_4_at_a_worn_page(rt: HostRuntime) -> Result<(), Fail> {
    let mut left = [1; 64];
    left[31] = 0;
    let mut memory = Wearing::new(left);
    let mut state = challenged();
    assert_eq!(rt;
        numbered(issue(&mut memory, &mut state, &sample_record())),
        Err(4)
    );
    assert_eq!(rt; state, challenged());
    assert_eq!(rt; memory.read(0)?, [0; 16]);
    assert_eq!(rt; memory.is_worn(0)?, false);
    assert_eq!(rt; numbered(power_on(&memory, &mut state)), Err(5));
    assert_eq!(rt; state, challenged());
    Ok(())
}

// Each of the 32 pages is written once: with one write left it is taken, all 32 are worn then, and the card can still be powered on.
#[test]
fn wears_each_page_once(rt: HostRuntime) -> Result<(), Fail> {
    let mut left = [1; 64];
    left[32] = 0;
    let mut memory = Wearing::new(left);
    let mut state = challenged();
    assert_eq!(rt;
        numbered(issue(&mut memory, &mut state, &sample_record())),
        Ok(())
    );
    for page in 0..33 {
        assert_eq!(rt; memory.is_worn(page)?, true);
    }
    assert_eq!(rt; memory.is_worn(33)?, false);
    assert_eq!(rt; numbered(power_on(&memory, &mut state)), Ok(()));
    assert_eq!(rt;
        numbered(issue(&mut memory, &mut state, &sample_record())),
        Err(4)
    );
    assert_eq!(rt; memory.read(6)?, [1; 16]);
    Ok(())
}
