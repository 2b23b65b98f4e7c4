// What a line asks for.
ghost use Rattle.std.specs.Prelude.{◌≡◌};
ghost use Rattle.std.specs.Option.{option_map};
ghost use Rattle.text.specs.Hex.{bytes_of_hex};
ghost use Rattle.seal_lines.specs.Requests.{at_most, request_of, asked_by};

use arrayvec::ArrayVec;
use text::{hex_array, hex_byte, read_hex};

// The most bytes that a message has.
const MESSAGE_MAX: usize = 47;

// A line asks for the seal of a message under an algorithm and a key.
#[derive(Drop)]
pub struct Request {
    pub algorithm: u8,
    pub key: [u8; 16],
    pub message: ArrayVec<u8, MESSAGE_MAX>,
}

// The message of pairs of digits; none where it has more than 47 bytes.
fn parse_message(digits: &[u8]) -> Option<ArrayVec<u8, MESSAGE_MAX>>
    ensures { option_map (λ m. m.items) result ≡ at_most 47 (bytes_of_hex digits.now) }
{
    let mut bytes = [0; MESSAGE_MAX];
    let len = read_hex(digits, &mut bytes)?;
    let mut message = ArrayVec::from(bytes);
    message.truncate(len);
    Some(message)
}

// The request of a line; none where the line has another form.
pub(crate) fn parse_request(line: &[u8]) -> Option<Request>
    ensures { option_map asked_by result ≡ request_of line.now }
{
    let [high, low, b',', rest @ ..] = line else {
        return None;
    };
    let (key, [b',', digits @ ..]) = rest.split_at_checked(32)? else {
        return None;
    };
    let algorithm = hex_byte(*high, *low)?;
    let key = hex_array(key)?;
    let message = parse_message(digits)?;
    Some(Request {
        algorithm,
        key,
        message,
    })
}
