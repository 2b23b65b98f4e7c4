// Bytes in capital hexadecimal.
ghost use Rattle.std.specs.Prelude.{◌≡◌, ◌*◌, ◌==◌, ◌/◌, ◌<◌, ◌≤◌, length, IfOk, if◌then◌else◌, None, Some, string_bytes, nat_lt};
ghost use Rattle.std.specs.Option.{option_map};
ghost use Rattle.std.specs.Str.{IsUtf8};
ghost use Rattle.text.specs.Hex.{hex_digit, hex_of, hex_value, hex_byte, bytes_of_hex, leading_bytes, overlaid, WrittenRead, ReadWritten};

use arrayvec::ArrayVec;
use std::alloc::{AllocError, Global};
use std::{fmt, str};

// A hexadecimal digit, in capitals.
fn digit(n: u8) -> u8
    requires { n < 16 }
    ensures { result ≡ hex_digit n }
{
    if n < 10 { b'0' + n } else { b'A' - 10 + n }
}

// Two digits for each of at most 16 bytes.
#[tactic(auto, using(crate::proofs::HexPrints::digits_more, crate::proofs::HexPrints::digits_all))]
fn digits_of(bytes: &[u8]) -> ArrayVec<u8, 32>
    requires { length bytes.now ≤ 16 }
    ensures digits { result.items ≡ hex_of bytes.now }
    ensures text { IsUtf8 result.items }
{
    let mut digits = ArrayVec::new();
    for byte in bytes {
        digits.push(digit(*byte / 16));
        digits.push(digit(*byte % 16));
    }
    digits
}

// Bytes that print as two capital hexadecimal digits each.
#[derive(Clone, Copy)]
pub struct Hex<'a>(pub &'a [u8]);

impl<'a> fmt::Display for Hex<'a> {
    ghost output = { λ hex. Some (hex_of hex.0.now) };

    fn fmt<W: fmt::Write>(&self, f: &mut fmt::Formatter<W>) -> fmt::Result {
        // 16 bytes at a time: to call the formatter for each byte takes about six times as long.
        for part in self.0.chunks(16) {
            f.write_str(str::from_utf8(&digits_of(part)).unwrap())?;
        }
        Ok(())
    }
}

// Two digits for each byte.
pub fn hex_text(heap: Global, bytes: &[u8]) -> Result<String, AllocError>
    ensures { IfOk result (λ s. string_bytes s ≡ hex_of bytes.now) }
{
    Hex(bytes).to_string(heap)
}

// The number that a capital hexadecimal digit writes.
fn hex_value(c: u8) -> Option<u8>
    ensures { result ≡ hex_value c }
{
    match c {
        b'0'..=b'9' => Some(c - b'0'),
        b'A'..=b'F' => Some(c - b'A' + 10),
        _ => None,
    }
}

// The byte that two digits write.
pub fn hex_byte(high: u8, low: u8) -> Option<u8>
    ensures { result ≡ hex_byte high low }
{
    let high = hex_value(high)?;
    let low = hex_value(low)?;
    Some(high * 16 + low)
}

// Puts the bytes that the pairs of digits of `text` write at the start of `bytes`, up to the first pair that writes none, and says how
// many they are; none where some of `text` is not such a pair, or its pairs are more than `bytes` has places.
pub fn read_hex(text: &[u8], bytes: &mut [u8]) -> Option<usize>
    ensures count { result ≡ (if nat_lt (length bytes.old) (length text.now / 2) then None else option_map length (bytes_of_hex text.now)) }
    ensures bytes { bytes.new ≡ (if nat_lt (length bytes.old) (length text.now / 2) then bytes.old else overlaid (leading_bytes text.now) bytes.old) }
{
    if bytes.len() < text.len() / 2 {
        return None;
    }
    read_pairs(text, bytes)
}

// The same where every pair has a place.
#[tactic(auto, using(crate::proofs::HexLaws::written_read, crate::proofs::HexLaws::read_written))]
fn read_pairs(text: &[u8], bytes: &mut [u8]) -> Option<usize>
    requires { length text.now / 2 ≤ length bytes.old }
    ensures count { result ≡ option_map length (bytes_of_hex text.now) }
    ensures bytes { bytes.new ≡ overlaid (leading_bytes text.now) bytes.old }
    ensures written_read { WrittenRead }
    ensures read_written { ReadWritten }
{
    let (pairs, left) = text.as_chunks::<2>();
    // Form: by index, since of what an adapter of `iter_mut` writes the proof learns nothing (`returns-clause-bytes`).
    for (i, pair) in pairs.iter().enumerate() {
        bytes[i] = hex_byte(pair[0], pair[1])?;
    }
    left.is_empty().then_some(pairs.len())
}

// The N bytes that a text of 2 N digits writes; none where it has another form.
#[tactic(auto, using(crate::proofs::HexReads::array_answer))]
pub fn hex_array<const N: usize>(text: &[u8]) -> Option<[u8; N]>
    ensures { result ≡ (if length text.now == 2 * N then bytes_of_hex text.now else None) }
{
    let mut bytes = [0; N];
    let count = read_hex(text, &mut bytes)?;
    (count == N).then_some(bytes)
}
