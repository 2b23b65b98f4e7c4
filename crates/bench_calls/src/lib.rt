#![tactic(auto)]

// The calls that the benchmark makes from C: one block by each cipher, and the seal of a message.
ghost use Rattle.std.specs.Prelude.{◌≡◌, ◌≤◌, length, is_some};
ghost use Rattle.bench_calls.specs.Calls.{answer, widened, takes_block, takes_message, block_after, seal_after};
ghost use Rattle.des.specs.TripleDes.{triple_des};
ghost use Rattle.seed.specs.Seed.{seed_enciphered};

use cipher::Cipher;
use des::TripleDes;
use sealers::card_seal;
use seed::Seed;

// Form: C reads the answer of a call as a number.
const TAKEN: u8 = 0;

const REFUSED: u8 = 1;

// The number of a call that was taken or refused.
fn number(taken: Option<()>) -> u8
    ensures { result ≡ answer (is_some taken) }
{
    if taken.is_some() { TAKEN } else { REFUSED }
}

// A block in 16 bytes, with zeros behind it.
fn widen(block: &[u8]) -> [u8; 16]
    requires { length block.now ≤ 16 }
    ensures { result ≡ widened block.now }
{
    let mut wide = [0u8; 16];
    wide[..block.len()].copy_from_slice(block);
    wide
}

// Enciphers the block where it stands.
fn encipher<C: Cipher>(key: &[u8], block: &mut [u8]) -> Option<()>
    ensures taken { is_some result ≡ takes_block C.BLOCK key.now block.old }
    ensures after { block.new ≡ block_after C.enciphered C.BLOCK key.now block.old }
{
    let key = <[u8; 16]>::try_from(key).ok()?;
    if block.len() != C::BLOCK {
        return None;
    }
    let result = C::encipher(key, widen(block));
    block.copy_from_slice(&result[..block.len()]);
    Some(())
}

// Writes the seal of a message of at most 48 bytes.
fn write_seal(algorithm: u8, key: &[u8], message: &[u8], seal: &mut [u8]) -> Option<()>
    ensures taken { is_some result ≡ takes_message algorithm key.now message.now seal.old }
    ensures after { seal.new ≡ seal_after algorithm key.now message.now seal.old }
{
    let key = <[u8; 16]>::try_from(key).ok()?;
    if message.len() > 48 || seal.len() != 4 {
        return None;
    }
    let mut workpad = [0u8; 64];
    let bytes = card_seal(algorithm, key, message, &mut workpad).ok()?;
    seal.copy_from_slice(&bytes);
    Some(())
}

// Enciphers a block of 16 bytes by SEED.
// Form: a function for each cipher over the one above, since C calls by names.
#[unsafe(no_mangle)]
pub extern "C" fn seed_encipher(key: &[u8], block: &mut [u8]) -> u8
    ensures number { result ≡ answer (takes_block 16 key.now block.old) }
    ensures after { block.new ≡ block_after seed_enciphered 16 key.now block.old }
{
    number(encipher::<Seed>(key, block))
}

// Enciphers a block of 8 bytes by Triple DES.
#[unsafe(no_mangle)]
pub extern "C" fn triple_des_encipher(key: &[u8], block: &mut [u8]) -> u8
    ensures number { result ≡ answer (takes_block 8 key.now block.old) }
    ensures after { block.new ≡ block_after triple_des 8 key.now block.old }
{
    number(encipher::<TripleDes>(key, block))
}

// Writes the seal of a message of at most 48 bytes.
#[unsafe(no_mangle)]
pub extern "C" fn message_seal(algorithm: u8, key: &[u8], message: &[u8], seal: &mut [u8]) -> u8
    ensures number { result ≡ answer (takes_message algorithm key.now message.now seal.old) }
    ensures after { seal.new ≡ seal_after algorithm key.now message.now seal.old }
{
    number(write_seal(algorithm, key, message, seal))
}
