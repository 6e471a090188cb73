//! Texts of digits: what is written in an input, the bytes of hexadecimal digits, and the lines of
//! the answers.

ghost use Rattle.std.specs.Prelude.{◌≡◌, ◌≤◌, ◌*◌, ◌++◌, length, codes, None, IfOk, OnOk};
ghost use Rattle.des_payment.specs.Digits.{digits_of};
ghost use Rattle.des_lines.specs.Texts.{bytes_of as bytes_of_text, text_fault, digits_fault, hex_line as hex_line_of};
ghost use Rattle.des_passwords.specs.HexStreams.{written_in};
ghost use Rattle.des_lines.specs.Faults.{FailsBy, FailsOnlyBy};

use crate::fault::FaultKind;
use des_passwords::hex_reader::is_space;
use std::alloc::{AllocError, Global};

/// Takes the white space out of an input. What stays is its text.
pub fn strip(input: &mut Vec<u8>)
    ensures text { input.new.items ≡ written_in input.old.items }
    ensures bound { length input.new.items ≤ length input.old.items }
{
    input.retain(|byte| !is_space(*byte));
}

/// Reads the bytes that hexadecimal digits write, two digits a byte.
pub fn decode(digits: &[u8], bytes: &mut [u8], fault: FaultKind) -> Result<(), FaultKind>
    requires { length digits.now ≡ 2 * length bytes.old }
    ensures fault { FailsOnlyBy (text_fault fault digits.now) result }
    ensures bytes { OnOk result (bytes.new ≡ bytes_of_text digits.now) }
{
    hex::decode_to_slice(digits, bytes).map_err(|_| fault)
}

/// The bytes that hexadecimal digits write, if there are two for each of them.
pub fn bytes_of<const N: usize>(
    digits: &[u8],
    length_fault: FaultKind,
    text_fault: FaultKind,
) -> Result<[u8; N], FaultKind>
    requires { N ≤ 1000 }
    ensures fault { FailsOnlyBy (digits_fault N length_fault text_fault digits.now) result }
    ensures bytes { IfOk result (λ bytes. bytes ≡ bytes_of_text digits.now) }
{
    if digits.len() != 2 * N {
        return Err(length_fault);
    }
    let mut bytes = [0; N];
    decode(digits, &mut bytes, text_fault)?;
    Ok(bytes)
}

/// The same of a text, by one fault of its length and its characters.
pub fn bytes_in<const N: usize>(text: &str, fault: FaultKind) -> Result<[u8; N], FaultKind>
    requires { N ≤ 1000 }
    ensures fault { FailsOnlyBy (digits_fault N fault fault text.now) result }
    ensures bytes { IfOk result (λ bytes. bytes ≡ bytes_of_text text.now) }
{
    bytes_of::<N>(text.as_bytes(), fault, fault)
}

// The digits of bytes, of four bits each.
fn halves(bytes: &[u8; 5]) -> [u8; 10]
    ensures { result ≡ digits_of bytes.now }
{
    let mut digits = [0; 10];
    for (i, byte) in bytes.iter().enumerate() {
        digits[2 * i] = byte / 16;
        digits[2 * i + 1] = byte % 16;
    }
    digits
}

/// The values of ten transaction or fill digits, hexadecimal ones.
pub fn fill_of(text: &str) -> Result<[u8; 10], FaultKind>
    ensures fault { FailsOnlyBy
        (digits_fault 5 FaultKind.FillLength FaultKind.FillText text.now) result }
    ensures digits { IfOk result (λ digits. digits ≡ digits_of (bytes_of_text text.now)) }
{
    let bytes = bytes_of::<5>(text.as_bytes(), FaultKind::FillLength, FaultKind::FillText)?;
    Ok(halves(&bytes))
}

/// The lines that are written, or the fault.
pub type Lines = Result<Vec<u8>, FaultKind>;

/// The text and a newline.
pub fn line_of(alloc: Global, text: &[u8]) -> Result<Vec<u8>, AllocError>
    ensures { IfOk result (λ line. line.items ≡ text.now ++ codes "\n") }
{
    let mut line = Vec::from_slice(alloc, text)?;
    line.push(b'\n')?;
    Ok(line)
}

/// The lower-case hexadecimal digits of bytes and a newline.
pub fn hex_line(alloc: Global, bytes: &[u8]) -> Result<Vec<u8>, AllocError>
    ensures { IfOk result (λ line. line.items ≡ hex_line_of bytes.now) }
{
    let digits = hex::encode(alloc, bytes)?;
    line_of(alloc, digits.as_bytes())
}

/// The answer that is this text, a line.
pub fn text_answer(alloc: Global, text: &[u8]) -> Lines
    ensures fault { FailsBy None result }
    ensures line { IfOk result (λ line. line.items ≡ text.now ++ codes "\n") }
{
    Ok(line_of(alloc, text)?)
}

/// The answer that is these bytes, a line of digits.
pub fn hex_answer(alloc: Global, bytes: &[u8]) -> Lines
    ensures fault { FailsBy None result }
    ensures line { IfOk result (λ line. line.items ≡ hex_line_of bytes.now) }
{
    Ok(hex_line(alloc, bytes)?)
}
