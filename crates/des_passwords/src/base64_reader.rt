//! Base64 (RFC 4648, section 4) in lines, decoded as it is read.

ghost use Rattle.std.specs.Prelude.{◌≡◌, ◌↔◌, true, false, length, IsSome, Ok, option_map, option_and_then};
ghost use Rattle.std.specs.Io.{ReadsAtMost};
ghost use Rattle.std.specs.Io.KnownBytes.{ReadConsumes};
ghost use Rattle.base64.specs.Read.{IsInvalid};
ghost use Rattle.des_passwords.specs.Decoding.{MarksFault};
ghost use Rattle.des_passwords.specs.Base64Streams.{after as after_byte, after_character, bytes_of, bytes_remaining, can_stand, character_of, characters_remaining, is_symbol as is_symbol_of, outlook_on};

use crate::decoding::{Decoding, mark_fault, read_decoded};
use base64::engine::general_purpose::GeneralPurpose;
use base64::read::DecoderReader;
use std::io::{self, Read};

/// Where a byte stands in its line.
#[derive(Clone, Copy, PartialEq, Eq)]
enum Place {
    /// Before the first character.
    Start,
    /// After a character.
    Within,
    /// After a blank that follows a character.
    Gap,
}

/// Where a stream of Base64 is.
#[derive(Clone, Copy)]
struct Position {
    // The number of the line, counted from 1.
    line: u64,
    place: Place,
    // The characters of the last group, 1 to 4, or 0 if there is none.
    count: u8,
    is_padded: bool,
    // The line of the last character.
    last_line: u64,
    // The line of the first character that can't stand where it does.
    fault: Option<u64>,
}

// Before the first byte.
const BEGINNING: Position = Position {
    line: 1,
    place: Place::Start,
    count: 0,
    is_padded: false,
    last_line: 1,
    fault: None,
};

// Whether a byte is a symbol of Base64.
fn is_symbol(byte: u8) -> bool
    ensures { result ≡ is_symbol_of byte }
{
    byte.is_ascii_alphanumeric() || byte == b'+' || byte == b'/'
}

impl Position {
    // Whether a character can stand here. Padding is the third or the fourth character of a group.
    fn can_stand(self, byte: u8) -> bool
        ensures { result ≡ can_stand self byte }
    {
        self.place != Place::Gap
            && if is_symbol(byte) {
                !self.is_padded
            } else {
                byte == b'=' && (self.count == 2 || self.count == 3)
            }
    }

    fn after_character(self, byte: u8) -> Position
        ensures { result ≡ after_character self byte }
    {
        let fault = match self.fault {
            Some(line) => Some(line),
            None if self.can_stand(byte) => None,
            None => Some(self.line),
        };
        Position {
            line: self.line,
            place: Place::Within,
            count: self.count % 4 + 1,
            is_padded: self.is_padded || byte == b'=',
            last_line: self.line,
            fault,
        }
    }
}

impl Decoding for Position {
    ghost given_of = { character_of };

    ghost after_of = { after_byte };

    ghost is_stuck_of = { λ _. false };

    // A blank within a line stands for what follows it: that can't be decoded.
    #[tactic(auto, unfolding(crate::specs::Base64Streams::character_of))]
    fn given(self, byte: u8) -> Option<u8> {
        if byte.is_ascii_whitespace() {
            None
        } else if self.place == Place::Gap {
            Some(b' ')
        } else {
            Some(byte)
        }
    }

    #[tactic(auto, unfolding(crate::specs::Base64Streams::after))]
    fn after(self, byte: u8) -> Position {
        if byte == b'\n' {
            Position {
                line: self.line.saturating_add(1),
                place: Place::Start,
                ..self
            }
        } else if byte.is_ascii_whitespace() {
            Position {
                place: match self.place {
                    Place::Start => Place::Start,
                    Place::Within | Place::Gap => Place::Gap,
                },
                ..self
            }
        } else {
            self.after_character(byte)
        }
    }

    fn is_stuck(self) -> bool {
        false
    }
}

// A reader of the characters of Base64 that another reader gives in lines.
#[derive(Drop)]
struct Characters<R> {
    inner: R,
    position: Position,
}

impl<R: Read> Read for Characters<R> {
    ghost remaining = { characters_remaining R.remaining };

    fn read(&mut self, buf: &mut [u8]) -> io::Result<usize> {
        read_decoded(&mut self.inner, &mut self.position, buf)
    }
}

/// A reader of the bytes that another reader gives as Base64 in lines of any length, as `base64`
/// and `openssl enc -a` write it, in little memory. A line ends with LF or CRLF; blanks at its ends
/// are passed over, and so is a line with nothing else. A group of four characters may go on in the
/// next line. What is not Base64 is an error of the kind `InvalidData`, and then `line_of_fault`
/// tells where.
#[derive(Drop)]
pub struct Base64Reader<'e, R: Read> {
    decoder: DecoderReader<'e, Characters<R>>,
    is_malformed: bool,
}

impl<'e, R: Read> Base64Reader<'e, R> {
    /// A reader of what a reader gives from here on. `engine` is `STANDARD`: `line_of_fault` knows
    /// its symbols.
    pub fn new(reader: R, engine: &'e GeneralPurpose) -> Base64Reader<'e, R>
        ensures bytes { bytes_remaining R.remaining result
            ≡ option_and_then (bytes_of engine.now) (R.remaining reader) }
        ensures sound { result.is_malformed ≡ false }
        ensures outlook { outlook_on R.remaining result ≡ option_map (bytes_of engine.now) (R.remaining reader) }
    {
        let characters = Characters {
            inner: reader,
            position: BEGINNING,
        };
        Base64Reader {
            decoder: DecoderReader::new(characters, engine),
            is_malformed: false,
        }
    }
}

impl<'e, R: Read + Drop> Base64Reader<'e, R> {
    /// Ends the reader. Returns the number of the line at fault, counted from 1, if what was read
    /// is not Base64: that of the first character that can't stand where it does, or of the last
    /// one, if characters are missing or bits are left over.
    pub fn line_of_fault(self) -> Option<u64>
        ensures { IsSome result ↔ (self.entry.is_malformed ≡ true) }
    {
        if !self.is_malformed {
            return None;
        }
        let position = self.decoder.into_inner().position;
        Some(position.fault.unwrap_or(position.last_line))
    }
}

impl<'e, R: Read> Read for Base64Reader<'e, R> {
    ghost remaining = { bytes_remaining R.remaining };

    fn read(&mut self, buf: &mut [u8]) -> io::Result<usize>
        ensures bound { ReadsAtMost result buf.new }
        ensures bytes { ReadConsumes (bytes_remaining R.remaining self.old)
            (bytes_remaining R.remaining self.new) result buf.new }
        // A text that is not Base64 never comes to a clean end.
        ensures invalid { IsInvalid (outlook_on R.remaining self.old)
            → IsInvalid (outlook_on R.remaining self.new) × (result ≡ Ok 0 → length buf.new ≡ 0) }
        ensures marked { MarksFault self.old.is_malformed result self.new.is_malformed }
    {
        let outcome = self.decoder.read(buf);
        mark_fault(&outcome, &mut self.is_malformed);
        outcome
    }
}
