//! What is written of texts: a line for each.

ghost use Rattle.std.specs.Prelude.{◌≡◌, IfOk};
ghost use Rattle.std.specs.List.{list_all};
ghost use Rattle.std.specs.Str.{chars};
ghost use Rattle.des_commands.specs.LineAnswers.{is_plain as is_plain_of, is_printable_character as is_printable_character_of, is_text as is_text_of, is_printable as is_printable_of, answer_of, AddsAnswer, Outcome, IsFaultOf, IsOpened, IsOutcome};

use super::line_fault::LineFault;
use super::line_kind::LineKind;
use des_columns::status::{
    ERR_BASE64, ERR_BLOCKS, ERR_KEY_NUMBER, ERR_NOT_ENCRYPTED, ERR_SALT_LENGTH, OK,
};
use std::alloc::{AllocError, Global};

// Whether a byte is a printable character of ASCII, or a tab.
fn is_plain(byte: u8) -> bool
    ensures { result ≡ is_plain_of byte }
{
    matches!(byte, b' '..=b'~' | b'\t')
}

// Whether a character may stand in a line: a tab, or one that is no control character, ends no line
// and does not turn its direction.
fn is_printable_character(character: char) -> bool
    ensures { result ≡ is_printable_character_of character }
{
    character == '\t'
        || !character.is_control()
            && !matches!(character, '\u{2028}'..='\u{202E}' | '\u{2066}'..='\u{2069}')
}

fn are_plain(bytes: &[u8]) -> bool
    ensures { result ≡ list_all is_plain_of bytes.now }
{
    bytes.iter().all(|byte| is_plain(*byte))
}

fn are_printable_characters(text: &str) -> bool
    ensures { result ≡ list_all is_printable_character_of (chars text.now) }
{
    text.chars()
        .all(|character| is_printable_character(character))
}

// Whether bytes are UTF-8 of such characters.
fn is_text(bytes: &[u8]) -> bool
    ensures { result ≡ is_text_of bytes.now }
{
    match str::from_utf8(bytes) {
        Ok(text) => are_printable_characters(text),
        Err(_) => false,
    }
}

// Whether bytes can stand in a line as text. ASCII, which most are, is recognized sooner.
fn is_printable(bytes: &[u8]) -> bool
    ensures { result ≡ is_printable_of bytes.now }
{
    are_plain(bytes) || is_text(bytes)
}

/// Adds what is written of a text: the text, or its hexadecimal digits. The fault is `Unprintable`.
pub fn add_answer(
    alloc: Global,
    writes_digits: bool,
    text: &[u8],
    out: &mut Vec<u8>,
) -> Result<Option<LineFault>, AllocError>
    ensures { IfOk result (λ fault. AddsAnswer (answer_of writes_digits text.now) fault out.old.items out.new.items) }
{
    if writes_digits {
        let digits = hex::encode(alloc, text)?;
        out.extend_from_slice(digits.as_bytes())?;
    } else if is_printable(text) {
        out.extend_from_slice(text)?;
    } else {
        return Ok(Some(LineFault::Unprintable));
    }
    Ok(None)
}

// Why there is no text, by the status of a value.
fn fault_of(status: i32) -> Option<LineFault>
    ensures { IsFaultOf status result }
{
    match status {
        OK => None,
        ERR_BLOCKS => Some(LineFault::Length),
        ERR_SALT_LENGTH => Some(LineFault::Salt),
        ERR_NOT_ENCRYPTED => Some(LineFault::NotEncrypted),
        ERR_KEY_NUMBER => Some(LineFault::KeyNumber),
        ERR_BASE64 => Some(LineFault::Base64),
        _ => Some(LineFault::Padding),
    }
}

// Adds the answer of a value's text, if it has one.
fn add_opened(
    alloc: Global,
    writes_digits: bool,
    text: &[u8],
    status: i32,
    out: &mut Vec<u8>,
) -> Result<Option<LineFault>, AllocError>
    ensures { IfOk result (λ fault. (outcome : Outcome)
        × IsOpened writes_digits text.now status outcome
        × AddsAnswer outcome fault out.old.items out.new.items) }
{
    match fault_of(status) {
        Some(fault) => Ok(Some(fault)),
        None => add_answer(alloc, writes_digits, text, out),
    }
}

/// Adds the answer of a line without its end, by what the line is read as, and by the text and the
/// status of its value. Returns why there is none.
pub fn add_outcome(
    alloc: Global,
    writes_digits: bool,
    kind: LineKind,
    text: &[u8],
    status: i32,
    out: &mut Vec<u8>,
) -> Result<Option<LineFault>, AllocError>
    ensures { IfOk result (λ fault. (outcome : Outcome)
        × IsOutcome writes_digits kind text.now status outcome
        × AddsAnswer outcome fault out.old.items out.new.items) }
{
    match kind {
        LineKind::Value => add_opened(alloc, writes_digits, text, status, out),
        LineKind::Empty => Ok(None),
        LineKind::Null(word) => {
            out.extend_from_slice(word.text())?;
            Ok(None)
        }
        LineKind::Faulty(fault) => Ok(Some(fault)),
    }
}
