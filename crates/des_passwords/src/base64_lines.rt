//! Base64 (RFC 4648, section 4) in lines, as PEM has it.

ghost use Rattle.std.specs.Prelude.{◌≡◌, ◌+◌, ◌<◌, ◌^◌, length, IfOk};
ghost use Rattle.des_passwords.specs.Base64Lines.{Gives, bytes_in, characters_in, line_at, place_of};
ghost use Rattle.des_passwords.specs.TextLines.{lines_of};

use crate::text_lines::{first_line, trimmed};
use base64::engine::general_purpose::STANDARD;
use base64::{DecodeAllocError, DecodeError};
use std::alloc::{AllocError, Global};

// Why lines are not read as Base64.
#[derive(Clone, Copy)]
pub(crate) enum Base64Error {
    // The number, from 1, of the line with a character that can't stand there, or of the last line
    // if characters are missing.
    Line(usize),
    OutOfMemory,
}

impl From<AllocError> for Base64Error {
    ghost use Rattle.std.specs.Prelude.{◌≡◌};
    ghost use Rattle.des_passwords.specs.declared.base64_lines.Base64Error.TheVariants.{OutOfMemory};

    ghost from_gives = { λ _ error. error ≡ OutOfMemory };

    fn from(_error: AllocError) -> Base64Error {
        Base64Error::OutOfMemory
    }
}

// What the lines of a text have, one after the other, without the blanks at their ends.
fn characters_of(alloc: Global, text: &[u8]) -> Result<Vec<u8>, AllocError>
    ensures { IfOk result (λ characters. characters.items ≡ characters_in (lines_of text.now)) }
{
    let mut characters = Vec::new(alloc);
    let mut rest = text;
    'lines: while let Some((line, after)) = first_line(rest) {
        characters.extend_from_slice(trimmed(line))?;
        rest = after;
    }
    Ok(characters)
}

// The place of the character at fault: the last one of all if characters are missing.
fn place_of(error: DecodeError, count: usize) -> usize
    ensures { result ≡ place_of error count }
{
    match error {
        DecodeError::InvalidByte(place, _) => place,
        DecodeError::InvalidLastSymbol { offset, .. } => offset,
        DecodeError::InvalidLength(_) | DecodeError::InvalidPadding => count.saturating_sub(1),
    }
}

// The number of the line with the character at a place, if the first line has this number.
fn line_at(number: usize, place: usize, text: &[u8]) -> usize
    requires { number + length text.now < 2 ^ 64 }
    ensures { result ≡ line_at number place (lines_of text.now) }
{
    let mut number = number;
    let mut place = place;
    let mut rest = text;
    'lines: while let Some((line, after)) = first_line(rest) {
        let count = trimmed(line).len();
        if place < count {
            return number;
        }
        number += 1;
        place -= count;
        rest = after;
    }
    number
}

// The bytes of a text whose first line has this number. A line of any length ends with LF or CRLF;
// blanks at its end are passed over, and so is a line with nothing else. A group of four characters
// may go on in the next line.
pub(crate) fn decode_lines(
    alloc: Global,
    number: usize,
    text: &[u8],
) -> Result<Vec<u8>, Base64Error>
    requires { number + length text.now < 2 ^ 64 }
    ensures read { Gives (λ bytes. bytes.items) result (bytes_in number (lines_of text.now)) }
{
    let characters = characters_of(alloc, text)?;
    match STANDARD.decode(alloc, characters.as_slice()) {
        Ok(bytes) => Ok(bytes),
        Err(DecodeAllocError::OutOfMemory) => Err(Base64Error::OutOfMemory),
        Err(DecodeAllocError::DecodeError(error)) => {
            let place = place_of(error, characters.len());
            Err(Base64Error::Line(line_at(number, place, text)))
        }
    }
}
