//! Hexadecimal digits, decoded as they are read.

ghost use Rattle.std.specs.Prelude.{◌≡◌, false, length, is_some, Ok, option_and_then, option_map};
ghost use Rattle.std.specs.Io.{ReadsAtMost};
ghost use Rattle.std.specs.Io.KnownBytes.{ReadConsumes};
ghost use Rattle.base64.specs.Read.{IsInvalid};
ghost use Rattle.hex.specs.Hex.{hex_digit_value};
ghost use Rattle.des_passwords.specs.Decoding.{MarksFault};
ghost use Rattle.des_passwords.specs.HexStreams.{after as after_character, after_digit, byte_of, bytes_of, bytes_remaining, ends_short, fault_at, fault_of, is_space as is_space_of, is_whole, outlook_on};

use crate::decoding::{Decoding, mark_fault, read_decoded};
use std::io::{self, ErrorKind, Read};

/// Why a text is not read as hexadecimal digits.
#[derive(Clone, Copy)]
pub enum HexFault {
    /// The line of this number, counted from 1, has a character that is not a digit, or has the
    /// second digit of a byte apart from the first.
    Line(u64),
    /// The last digit has no second one.
    Odd,
}

/// Where a text of digits is.
#[derive(Clone, Copy)]
struct Position {
    // The number of the line, counted from 1.
    line: u64,
    // The value of a digit that is the first of its byte.
    first: Option<u8>,
    // White space follows that digit.
    is_apart: bool,
    // The line of the first character that is not a digit, or stands apart from the first digit of
    // its byte.
    fault: Option<u64>,
}

// Before the first byte.
const BEGINNING: Position = Position {
    line: 1,
    first: None,
    is_apart: false,
    fault: None,
};

/// Whether a character is white space: a space, a tab, a new line or a carriage return.
pub fn is_space(byte: u8) -> bool
    ensures { result ≡ is_space_of byte }
{
    matches!(byte, b' ' | b'\t' | b'\n' | b'\r')
}

// The value of a digit.
fn value_of(character: u8) -> Option<u8>
    ensures { result ≡ hex_digit_value character }
{
    match character {
        b'0'..=b'9' => Some(character - b'0'),
        b'a'..=b'f' => Some(character - b'a' + 10),
        b'A'..=b'F' => Some(character - b'A' + 10),
        _ => None,
    }
}

impl Position {
    // The position after a digit of a value, or after a character that is none.
    fn after_digit(self, value: Option<u8>) -> Position
        ensures { result ≡ after_digit self value }
    {
        match value {
            None => Position {
                fault: Some(self.line),
                ..self
            },
            Some(value) => Position {
                first: match self.first {
                    None => Some(value),
                    Some(_) => None,
                },
                ..self
            },
        }
    }

    // Whether all that was read are digits, two for each byte.
    fn is_whole(self) -> bool
        ensures { result ≡ is_whole self }
    {
        self.fault.is_none() && self.first.is_none()
    }

    // Whether a read that gave this ended the text where it is malformed, or within a byte.
    fn ends_short(self, given: &io::Result<usize>, buf: &[u8]) -> bool
        ensures { result ≡ ends_short self given.now buf.now }
    {
        match given {
            Ok(count) => *count == 0 && !buf.is_empty() && !self.is_whole(),
            Err(_) => false,
        }
    }

    fn fault(self) -> Option<HexFault>
        ensures { result ≡ fault_at self.fault self.first }
    {
        match (self.fault, self.first) {
            (Some(line), _) => Some(HexFault::Line(line)),
            (None, Some(_)) => Some(HexFault::Odd),
            (None, None) => None,
        }
    }
}

impl Decoding for Position {
    ghost given_of = { byte_of };

    ghost after_of = { after_character };

    ghost is_stuck_of = { λ position. is_some position.fault };

    // The byte that a digit ends.
    #[tactic(auto, unfolding(crate::specs::HexStreams::byte_of))]
    fn given(self, byte: u8) -> Option<u8> {
        match (self.fault, self.first, value_of(byte)) {
            (None, Some(first), Some(second)) if !self.is_apart => {
                Some(first % 16 * 16 + second % 16)
            }
            _ => None,
        }
    }

    // Nothing is read after a fault.
    #[tactic(auto, unfolding(crate::specs::HexStreams::after))]
    fn after(self, byte: u8) -> Position {
        if self.fault.is_some() {
            self
        } else if is_space(byte) {
            Position {
                is_apart: self.first.is_some(),
                line: if byte == b'\n' {
                    self.line.saturating_add(1)
                } else {
                    self.line
                },
                ..self
            }
        } else if self.is_apart {
            self.after_digit(None)
        } else {
            self.after_digit(value_of(byte))
        }
    }

    fn is_stuck(self) -> bool {
        self.fault.is_some()
    }
}

/// A reader of the bytes whose hexadecimal digits another reader gives, of either case, with white
/// space between bytes, in little memory. What is none is an error of the kind `InvalidData`, and
/// then `fault` tells why. White space inside a byte is refused, since columns of other digits, as
/// the offsets that `od` writes, would else pass for data.
#[derive(Drop)]
pub struct HexReader<R> {
    inner: R,
    position: Position,
    is_malformed: bool,
}

impl<R: Read> HexReader<R> {
    /// A reader of what a reader gives from here on.
    pub fn new(reader: R) -> HexReader<R>
        ensures bytes { bytes_remaining R.remaining result ≡ option_and_then bytes_of (R.remaining reader) }
        ensures outlook { outlook_on R.remaining result ≡ option_map bytes_of (R.remaining reader) }
        ensures sound { result.is_malformed ≡ false }
    {
        HexReader {
            inner: reader,
            position: BEGINNING,
            is_malformed: false,
        }
    }
}

impl<R: Read + Drop> HexReader<R> {
    /// Ends the reader. If a read failed because the text has other characters than digits, returns
    /// why.
    pub fn fault(self) -> Option<HexFault>
        ensures { result ≡ fault_of self }
    {
        if self.is_malformed {
            self.position.fault()
        } else {
            None
        }
    }
}

impl<R: Read> Read for HexReader<R> {
    ghost remaining = { bytes_remaining R.remaining };

    fn read(&mut self, buf: &mut [u8]) -> io::Result<usize>
        ensures bound { ReadsAtMost result buf.new }
        ensures bytes { ReadConsumes (bytes_remaining R.remaining self.old)
            (bytes_remaining R.remaining self.new) result buf.new }
        // A text that is none of digits never comes to a clean end.
        ensures invalid { IsInvalid (outlook_on R.remaining self.old)
            → IsInvalid (outlook_on R.remaining self.new) × (result ≡ Ok 0 → length buf.new ≡ 0) }
        ensures marked { MarksFault self.old.is_malformed result self.new.is_malformed }
    {
        let mut outcome = read_decoded(&mut self.inner, &mut self.position, buf);
        if self.position.ends_short(&outcome, buf) {
            outcome = Err(io::Error::from(ErrorKind::InvalidData));
        }
        mark_fault(&outcome, &mut self.is_malformed);
        outcome
    }
}
