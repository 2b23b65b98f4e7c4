// Sealers inside one another, and workpads of several sizes. The seals of ALG 00 and 10 are those of docs/SEALS.md.
use crate::constant::Constant;
use seal::{Pair, SealRefusal, Sealer, WorkpadMessage, same_seal, seal_message};
use sealers::{card_seal, card_sealer};

// the key bytes of the sample card
const KEY: [u8; 16] = [1; 16];

// the message of the MAC that writes AA BB to the start of file 12: for ALG 00, and for ALG 10
#[rattlefmt::skip]
const SEED_MESSAGE: [u8; 23] = [1, 2, 3, 4, 5, 6, 7, 8, 0x80, 0, 0, 0, 0, 0, 0, 0, 0x04, 0xD6, 0x92, 0x00, 0x06, 0xAA, 0xBB];

#[rattlefmt::skip]
const MESSAGE: [u8; 15] = [1, 2, 3, 4, 5, 6, 7, 8, 0x04, 0xD6, 0x92, 0x00, 0x06, 0xAA, 0xBB];

// the message padded to blocks of 8 bytes, and the byte A5 that stood behind them
#[rattlefmt::skip]
const PADDED: [u8; 17] = [1, 2, 3, 4, 5, 6, 7, 8, 0x04, 0xD6, 0x92, 0x00, 0x06, 0xAA, 0xBB, 0x80, 0xA5];

const SEED_MAC: [u8; 4] = [0x08, 0x44, 0xF9, 0x23];

const MAC: [u8; 4] = [0xF8, 0x31, 0xD6, 0x93];

const OWN: [u8; 4] = [9, 9, 9, 9];

#[test]
fn a_pair_in_a_pair_answers_by_the_first_that_has_the_algorithm(rt: HostRuntime) {
    let sealer = Pair {
        first: Constant {
            algorithm: 0x20,
            seal: OWN,
        },
        second: Pair {
            first: card_sealer(),
            second: Constant {
                algorithm: 0x10,
                seal: OWN,
            },
        },
    };
    let mut workpad = [0xA5; 64];
    assert_eq!(rt;
        seal_message(&sealer, 0x20, KEY, &MESSAGE, &mut workpad),
        Ok(OWN)
    );
    assert_eq!(rt; workpad, [0; 64]);
    // both parts of the inner pair have 10: its first answers
    assert_eq!(rt;
        seal_message(&sealer, 0x10, KEY, &MESSAGE, &mut workpad),
        Ok(MAC)
    );
    assert_eq!(rt;
        seal_message(&sealer, 0x30, KEY, &MESSAGE, &mut workpad),
        Err(SealRefusal::NotRegistered)
    );
    assert_eq!(rt;
        seal_message(&sealer, 0x00, KEY, &SEED_MESSAGE, &mut workpad),
        Ok(SEED_MAC)
    );
}

#[test]
fn a_workpad_needs_16_bytes_more_than_the_message(rt: HostRuntime) {
    let mut enough = [0xA5; 31];
    assert_eq!(rt; card_seal(0x10, KEY, &MESSAGE, &mut enough), Ok(MAC));
    assert_eq!(rt; enough, [0; 31]);
    let mut small = [0xA5; 30];
    assert_eq!(rt;
        card_seal(0x10, KEY, &MESSAGE, &mut small),
        Err(SealRefusal::SmallWorkpad)
    );
    assert_eq!(rt; small, [0xA5; 30]);
}

#[test]
fn a_sealer_leaves_the_padded_message_on_the_workpad(rt: HostRuntime) {
    let mut workpad = [0xA5; 31];
    workpad[..15].copy_from_slice(&MESSAGE);
    let mut message = WorkpadMessage {
        workpad: &mut workpad,
        len: 15,
    };
    assert_eq!(rt; card_sealer().seal(0x10, KEY, &mut message), Some(MAC));
    assert_eq!(rt; message.start(17), PADDED.as_slice());
}

#[test]
fn a_workpad_is_zeroed_where_the_algorithm_is_not_registered(rt: HostRuntime) {
    let mut workpad = [0xA5; 64];
    assert_eq!(rt;
        card_seal(0x11, KEY, &MESSAGE, &mut workpad),
        Err(SealRefusal::NotRegistered)
    );
    assert_eq!(rt; workpad, [0; 64]);
}

#[test]
fn seals_that_differ_in_one_byte_are_not_the_same(rt: HostRuntime) {
    assert!(rt; same_seal(MAC, MAC));
    assert!(rt; !same_seal(MAC, [0xF8, 0x31, 0xD6, 0x92]));
    assert!(rt; !same_seal(MAC, [0xF9, 0x31, 0xD6, 0x93]));
}
