//! Private keys under passwords: what is decrypted of them, and their text.

ghost use Rattle.std.specs.Prelude.{◌≡◌, ◌<◌, ◌+◌, ◌^◌, ◌++◌, IfSome, IfOk, IfErr, OnOk, string_bytes};
ghost use Rattle.des_commands.specs.PrivateKeys.{extent_of as extent_by, is_sequence as is_sequence_of, are_blanks_from as are_blanks_from_of, begins_with_sequence_alone as begins_with_sequence_alone_of, is_der as is_der_of, base64_lines, pem_of, label_text, with_number, object_identifier_text};
ghost use Rattle.des_passwords.specs.TextLines.{are_blanks as are_blanks_of};
ghost use Rattle.des_commands.specs.DecryptedKeys.{IsPlain, IsDecryptedKey, FailsAsPrivateKey, private_key_fault};

use crate::streams::cipher_of;
use base64::engine::general_purpose::STANDARD;
use des_fast::TdesEde3;
use des_io::{BlockMode, Padding, StreamError, Transformation, decrypt_stream};
use des_lines::fault::{FaultKind, FileFault};
use des_passwords::{KeyAndVector, Label};
use std::alloc::{AllocError, Global};

// The characters of a line of Base64 in PEM.
const LINE: usize = 64;

// ---- what is decrypted

// The bytes of an element's length and contents: the number of those before the contents, and of
// the contents, of an element that begins the bytes.
fn extent_of(bytes: &[u8]) -> Option<(usize, usize)>
    ensures value { result ≡ extent_by bytes.now }
    ensures bound { IfSome result (λ extent. extent.0 + extent.1 < 2 ^ 25) }
{
    match *bytes {
        [_, size, ..] if size < 128 => Some((2, size as usize)),
        [_, 129, size, ..] => Some((3, size as usize)),
        [_, 130, high, low, ..] => Some((4, 256 * high as usize + low as usize)),
        [_, 131, high, middle, low, ..] => Some((
            5,
            65536 * high as usize + 256 * middle as usize + low as usize,
        )),
        _ => None,
    }
}

/// Whether all of the bytes are one sequence, as a private key is: an element with the tag 48 and
/// as many bytes as its length says, in whichever form of BER the length is.
pub fn is_sequence(bytes: &[u8]) -> bool
    ensures { result ≡ is_sequence_of bytes.now }
{
    match extent_of(bytes) {
        Some((before, size)) => bytes[0] == 48 && bytes.len() == before + size,
        None => false,
    }
}

fn are_blanks(bytes: &[u8]) -> bool
    ensures { result ≡ are_blanks_of bytes.now }
{
    bytes.iter().all(|byte| byte.is_ascii_whitespace())
}

// Whether the bytes have as many before a place, and blanks alone from there on.
fn are_blanks_from(place: usize, bytes: &[u8]) -> bool
    ensures { result ≡ are_blanks_from_of place bytes.now }
{
    bytes.len() >= place && are_blanks(&bytes[place..])
}

// Whether the bytes begin with one sequence, and blanks alone follow.
fn begins_with_sequence_alone(bytes: &[u8]) -> bool
    ensures { result ≡ begins_with_sequence_alone_of bytes.now }
{
    match extent_of(bytes) {
        Some((before, size)) => bytes[0] == 48 && are_blanks_from(before + size, bytes),
        None => false,
    }
}

/// Whether a file is DER: it is one sequence, which blanks may follow, or it begins as one with 128
/// bytes or more, which no text of ASCII does.
pub fn is_der(bytes: &[u8]) -> bool
    ensures { result ≡ is_der_of bytes.now }
{
    begins_with_sequence_alone(bytes) || bytes.len() >= 2 && bytes[0] == 48 && bytes[1] >= 128
}

// The fault of a private key, of one of its bytes: a list of bytes fails to grow only if memory is
// refused.
fn fault_of(error: StreamError) -> FaultKind
    ensures { result ≡ private_key_fault error }
{
    match error {
        StreamError::Length(_) | StreamError::Start => FaultKind::Length,
        StreamError::Padding => FaultKind::File(FileFault::KeyPadding),
        StreamError::Read(_) | StreamError::Write(_) => FaultKind::Memory,
    }
}

// Decrypts what is padded as PKCS#7 says.
fn plain_of(alloc: Global, both: &KeyAndVector<24>, encrypted: &[u8]) -> Result<Vec<u8>, FaultKind>
    ensures plain { IfOk result (λ plain.
        IsPlain both.now.key both.now.vector encrypted.now plain.items) }
    ensures fault { IfErr result (FailsAsPrivateKey both.now.key both.now.vector encrypted.now) }
{
    let transformation = Transformation {
        cipher: &cipher_of::<TdesEde3>(&both.key),
        mode: BlockMode::Cbc(both.vector),
        padding: Padding::Pkcs7,
    };
    let mut reader = encrypted;
    let mut plain = Vec::new(alloc);
    match decrypt_stream(&transformation, &mut reader, &mut plain, &mut [[0; 8]; 64]) {
        Ok(()) => Ok(plain),
        Err(error) => Err(fault_of(error)),
    }
}

/// The DER of the private key that a key and a vector decrypt. The fault is `Length` if there are
/// no whole blocks, `KeyPadding` if what is decrypted has another padding, `Password` if it is
/// no sequence, or `Memory`: a list of bytes fails to grow only if memory is refused.
pub fn decrypted_key(
    alloc: Global,
    both: &KeyAndVector<24>,
    encrypted: &[u8],
) -> Result<Vec<u8>, FaultKind>
    ensures key { IfOk result (λ key.
        IsDecryptedKey both.now.key both.now.vector encrypted.now key.items) }
    ensures fault { IfErr result (FailsAsPrivateKey both.now.key both.now.vector encrypted.now) }
{
    let plain = plain_of(alloc, both, encrypted)?;
    if is_sequence(plain.as_slice()) {
        Ok(plain)
    } else {
        Err(FaultKind::File(FileFault::Password))
    }
}

// ---- PEM

// What stands in the first line and the last of a key that is not encrypted.
fn label_of(label: Label) -> &'static str
    ensures { result.now ≡ label_text label }
{
    match label {
        Label::Encrypted => "PRIVATE KEY-----\n",
        Label::Rsa => "RSA PRIVATE KEY-----\n",
        Label::Dsa => "DSA PRIVATE KEY-----\n",
        Label::Ec => "EC PRIVATE KEY-----\n",
    }
}

// Adds the lines of Base64.
fn add_lines(text: &mut Vec<u8>, encoded: &[u8]) -> Result<(), AllocError>
    ensures { OnOk result (text.new.items ≡ text.old.items ++ base64_lines encoded.now) }
{
    'lines: for number in 0..encoded.len().div_ceil(LINE) {
        let rest = &encoded[LINE * number..];
        text.extend_from_slice(&rest[..LINE.min(rest.len())])?;
        text.push(b'\n')?;
    }
    Ok(())
}

/// The PEM of a private key in DER.
pub fn pem_text(alloc: Global, label: Label, key: &[u8]) -> Result<Vec<u8>, AllocError>
    ensures { IfOk result (λ text. text.items ≡ pem_of label key.now) }
{
    let encoded = STANDARD.encode(alloc, key)?;
    let mut text = Vec::from_slice(alloc, b"-----BEGIN ")?;
    text.extend_from_slice(label_of(label).as_bytes())?;
    add_lines(&mut text, encoded.as_bytes())?;
    text.extend_from_slice(b"-----END ")?;
    text.extend_from_slice(label_of(label).as_bytes())?;
    Ok(text)
}

// ---- object identifiers

// The text with a number more. The first number holds two.
fn add_number(alloc: Global, text: String, number: u64) -> Result<String, AllocError>
    ensures { IfOk result (λ more. string_bytes more ≡ with_number (string_bytes text) number) }
{
    if text.is_empty() {
        let first = std::cmp::min(number / 40, 2);
        let second = number - 40 * first;
        format!(in alloc; "{first}.{second}")
    } else {
        format!(in alloc; "{text}.{number}")
    }
}

/// The text of an object identifier (ITU-T X.690, 8.19): its numbers with points between, or its
/// bytes in hexadecimal digits if they end within a number, or one has more than 56 bits.
pub fn object_identifier(alloc: Global, contents: &[u8]) -> Result<String, AllocError>
    ensures { IfOk result (λ text. string_bytes text ≡ object_identifier_text contents.now) }
{
    let mut text = String::new(alloc);
    let mut number = 0u64;
    let mut is_whole = false;
    'octets: for byte in contents {
        if number >= 1 << 56 {
            return hex::encode(alloc, contents);
        }
        number = 128 * number + (byte % 128) as u64;
        is_whole = *byte < 128;
        if is_whole {
            text = add_number(alloc, text, number)?;
            number = 0;
        }
    }
    if is_whole {
        Ok(text)
    } else {
        hex::encode(alloc, contents)
    }
}
