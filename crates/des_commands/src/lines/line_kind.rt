//! What lines are read as: values, or what stands in the place of one.

ghost use Rattle.std.specs.Prelude.{◌≡◌, ◌≢◌, IfSome, IfNone, IfOk};
ghost use Rattle.std.specs.Char.{is_ascii_hexdigit};
ghost use Rattle.std.specs.List.{list_all};
ghost use Rattle.hex.specs.Hex.{decode_of};
ghost use Rattle.base64.specs.Engines.{standard};
ghost use Rattle.base64.specs.GeneralPurpose.{decode_of as base64_of};
ghost use Rattle.des_commands.specs.declared.lines.line_fault.LineFault.TheVariants.{Base64};
ghost use Rattle.des_commands.specs.declared.lines.line_kind.NullWord.{NullWord as NullWordOf};
ghost use Rattle.des_commands.specs.LineKinds.{null_text, digits_of as digits_behind, digits_fault, bytes_or, bytes_in, Adds, AddsValue};

use super::line_fault::LineFault;
use base64::DecodeAllocError;
use base64::engine::general_purpose::STANDARD;
use des_requests::lines::LineCoding;
use std::alloc::AllocError;

/// How what is no value is written.
#[derive(Clone, Copy)]
pub enum NullWord {
    /// `NULL`, as by `mysql`.
    Upper,
    /// `null`, as by programs that write JSON.
    Lower,
    /// `\N`, as by `mysqldump --tab`, and by `COPY` of PostgreSQL.
    Escape,
}

impl NullWord {
    pub fn text(self) -> &'static [u8]
        ensures { result.now ≡ null_text self }
    {
        match self {
            NullWord::Upper => b"NULL",
            NullWord::Lower => b"null",
            NullWord::Escape => b"\\N",
        }
    }
}

/// What a line is read as.
#[derive(Clone, Copy)]
pub enum LineKind {
    Value,
    /// Nothing but blanks.
    Empty,
    /// No value, written so.
    Null(NullWord),
    /// No value, for this reason.
    Faulty(LineFault),
}

// The word that a text is, if it says that there is no value.
fn null_word_of(text: &[u8]) -> Option<NullWord>
    ensures word { IfSome result (λ word. text.now ≡ null_text word) }
    ensures none { IfNone result ((word : NullWordOf) → text.now ≢ null_text word) }
{
    match text {
        [b'N', b'U', b'L', b'L'] => Some(NullWord::Upper),
        [b'n', b'u', b'l', b'l'] => Some(NullWord::Lower),
        [b'\\', b'N'] => Some(NullWord::Escape),
        _ => None,
    }
}

// The digits behind `\x`, as PostgreSQL writes bytes, behind `\\x`, as its `COPY` does, or behind
// `0x`, as MySQL does.
fn digits_of(text: &[u8]) -> &[u8]
    ensures { result.now ≡ digits_behind text.now }
{
    match text {
        [b'\\', b'\\', b'x', digits @ ..] => digits,
        [b'\\' | b'0', b'x', digits @ ..] => digits,
        _ => text,
    }
}

fn are_digits(text: &[u8]) -> bool
    ensures { result ≡ list_all is_ascii_hexdigit text.now }
{
    text.iter().all(|byte| byte.is_ascii_hexdigit())
}

// Why a text is not the digits of bytes: a character that is not a digit is reported before an odd
// number.
fn fault_of(text: &[u8]) -> LineFault
    ensures { result ≡ digits_fault text.now }
{
    if are_digits(text) {
        LineFault::DigitCount
    } else {
        LineFault::Digit
    }
}

// Adds the bytes of hexadecimal digits.
fn add_digits(digits: &[u8], values: &mut Vec<u8>) -> Result<LineKind, AllocError>
    ensures { IfOk result (λ kind. Adds (bytes_or (digits_fault digits.now) (decode_of digits.now))
        kind values.old.items values.new.items) }
{
    let start = values.len();
    values.resize(start + digits.len() / 2, 0)?;
    match hex::decode_to_slice(digits, &mut values[start..]) {
        Ok(()) => Ok(LineKind::Value),
        Err(_) => {
            values.truncate(start);
            Ok(LineKind::Faulty(fault_of(digits)))
        }
    }
}

// Adds the bytes of Base64.
fn add_base64(text: &[u8], values: &mut Vec<u8>) -> Result<LineKind, AllocError>
    ensures { IfOk result (λ kind. Adds (bytes_or Base64 (base64_of standard text.now))
        kind values.old.items values.new.items) }
{
    match STANDARD.decode_vec(text, values) {
        Ok(()) => Ok(LineKind::Value),
        Err(DecodeAllocError::OutOfMemory) => Err(AllocError),
        Err(_) => Ok(LineKind::Faulty(LineFault::Base64)),
    }
}

// Adds the bytes of a value that stands in a text, if it does.
fn add_bytes(coding: LineCoding, text: &[u8], values: &mut Vec<u8>) -> Result<LineKind, AllocError>
    ensures { IfOk result (λ kind.
        Adds (bytes_in coding text.now) kind values.old.items values.new.items) }
{
    match coding {
        LineCoding::Hexadecimal => add_digits(digits_of(text), values),
        LineCoding::Base64 => add_base64(text, values),
        LineCoding::Bytes => {
            values.extend_from_slice(text)?;
            Ok(LineKind::Value)
        }
    }
}

/// Adds the bytes of the value of a line, if it has one, and says what the line is read as. Blanks
/// at its ends don't count.
pub fn add_value(
    coding: LineCoding,
    line: &[u8],
    values: &mut Vec<u8>,
) -> Result<LineKind, AllocError>
    ensures { IfOk result (λ kind.
        AddsValue coding line.now kind values.old.items values.new.items) }
{
    let text = line.trim_ascii();
    if text.is_empty() {
        return Ok(LineKind::Empty);
    }
    match null_word_of(text) {
        Some(word) => Ok(LineKind::Null(word)),
        None => add_bytes(coding, text, values),
    }
}
