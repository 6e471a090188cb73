//! Values of `encrypt` and `encrypt_iv`, raw encryption by pgcrypto of PostgreSQL, with their keys
//! and vectors.

ghost use Rattle.std.specs.Prelude.{◌≡◌, ◌≤◌, ◌↔◌, IsTrue, length, sum};
ghost use Rattle.std.specs.List.{All, sum_by};
ghost use Rattle.std.specs.Str.{str_eq_ignore_ascii_case};
ghost use Rattle.des_columns.specs.Columns.{pieces};
ghost use Rattle.des_columns.specs.PgcryptoColumns.{before_padding, cipher_of, ends_in, form_of, mode_by, Reads, scheme_of, Writes, filled};
ghost use Rattle.des_columns.specs.Readings.{IsColumnRead};
ghost use Rattle.des_columns.specs.Writings.{IsColumnWritten, IsTextSize, value_size};

use crate::form::{BlockMode, ValueForm};
use crate::one_key::read_values;
use crate::pbe::is_name;
use crate::status::OK;
use crate::writing::write_values;
use des_fast::TdesEde3;
use des_fast::many::Slice;

/// A cipher and its mode: cipher block chaining, unless the name says otherwise.
#[derive(Clone, Copy, Debug, PartialEq, Eq)]
pub enum Cipher {
    /// `des` or `des-cbc`.
    Des,
    /// `des-ecb`.
    DesEcb,
    /// `3des` or `3des-cbc`.
    TripleDes,
    /// `3des-ecb`.
    TripleDesEcb,
}

/// The scheme of raw encryption, as `3des-cbc/pad:pkcs`.
#[derive(Clone, Copy, Debug, PartialEq, Eq)]
pub struct Scheme {
    pub cipher: Cipher,
    /// `Pkcs7`, or `Unpadded` if the name ends in `/pad:none`.
    pub form: ValueForm,
}

impl Scheme {
    /// The scheme of a name, in any case of letters. `None` if it is none of DES or triple DES.
    pub fn of_name(name: &[u8]) -> Option<Scheme>
        ensures { result ≡ scheme_of name.now }
    {
        let form = if ends_in(name, b"/pad:none") {
            ValueForm::Unpadded
        } else {
            ValueForm::Pkcs7
        };
        match cipher_of(before_padding(name)) {
            Some(cipher) => Some(Scheme { cipher, form }),
            None => None,
        }
    }
}

// Whether a name ends so.
fn ends_in(name: &[u8], end: &[u8]) -> bool
    ensures { result ≡ ends_in name.now end.now }
{
    is_name(&name[name.len().saturating_sub(end.len())..], end)
}

// A name without the padding at its end.
fn before_padding(name: &[u8]) -> &[u8]
    ensures { result.now ≡ before_padding name.now }
{
    if ends_in(name, b"/pad:none") || ends_in(name, b"/pad:pkcs") {
        &name[..name.len().saturating_sub(9)]
    } else {
        name
    }
}

// The cipher of a name without a padding.
fn cipher_of(name: &[u8]) -> Option<Cipher>
    ensures { result ≡ cipher_of name.now }
{
    if is_name(name, b"des") || is_name(name, b"des-cbc") {
        Some(Cipher::Des)
    } else if is_name(name, b"des-ecb") {
        Some(Cipher::DesEcb)
    } else if is_name(name, b"3des") || is_name(name, b"3des-cbc") {
        Some(Cipher::TripleDes)
    } else if is_name(name, b"3des-ecb") {
        Some(Cipher::TripleDesEcb)
    } else {
        None
    }
}

// The mode of a cipher, from a vector that is filled or cut.
fn mode_by(cipher: Cipher, iv: &[u8]) -> BlockMode
    ensures { result ≡ mode_by cipher iv.now }
{
    match cipher {
        Cipher::Des | Cipher::TripleDes => BlockMode::Cbc(filled::<8>(iv)),
        Cipher::DesEcb | Cipher::TripleDesEcb => BlockMode::Ecb,
    }
}

/// A key of 8 bytes for `des` or 24 for `3des`, or a vector of 8, as pgcrypto takes it: cut, or
/// with zeros behind it. So a key of 16 bytes is no key of two parts: its third part is zeros. A
/// call that has no vector takes zeros.
pub fn filled<const N: usize>(bytes: &[u8]) -> [u8; N]
    requires { N ≤ 24 }
    ensures { result ≡ filled N bytes.now }
{
    let mut answer = [0; N];
    if bytes.len() < N {
        answer[..bytes.len()].copy_from_slice(bytes);
    } else {
        answer.copy_from_slice(&bytes[..N]);
    }
    answer
}

/// Reads the values of a column as `decrypt_iv` does, and with no vector as `decrypt`. `statuses`
/// has `ERR_BLOCKS` if a value is not whole blocks, or is empty with padding, and `ERR_PADDING` if
/// the padding is wrong, as mostly under a wrong key. All else is as of `one_key::read_values`.
pub fn decrypt_values<S: Slice>(
    by: Scheme,
    key: &[u8],
    iv: &[u8],
    values: &[u8],
    lengths: &[usize],
    texts: &mut [u8],
    text_lengths: &mut [usize],
    statuses: &mut [i32],
) -> bool
    requires whole { sum lengths.now ≡ length values.now }
    requires texts { length texts.old ≡ length values.now }
    requires text_lengths { length text_lengths.old ≡ length lengths.now }
    requires statuses { length statuses.old ≡ length lengths.now }
    ensures read { IsColumnRead (Reads by key.now iv.now) (pieces lengths.now values.now)
        texts.new text_lengths.new statuses.new }
    ensures all { IsTrue result ↔ All (λ status. status ≡ OK) statuses.new }
{
    let mode = mode_by(by.cipher, iv);
    match by.cipher {
        Cipher::Des | Cipher::DesEcb => read_values::<des_fast::Des, S>(
            &filled::<8>(key),
            by.form,
            mode,
            values,
            lengths,
            texts,
            text_lengths,
            statuses,
        ),
        Cipher::TripleDes | Cipher::TripleDesEcb => read_values::<TdesEde3, S>(
            &filled::<24>(key),
            by.form,
            mode,
            values,
            lengths,
            texts,
            text_lengths,
            statuses,
        ),
    }
}

/// Writes the values of texts of a column as `encrypt_iv` does, and with no vector as `encrypt`,
/// one after another. Without padding the texts are whole blocks, and so are their values; else a
/// text of n bytes has a value of (n / 8 + 1) * 8.
pub fn encrypt_values<S: Slice>(
    by: Scheme,
    key: &[u8],
    iv: &[u8],
    texts: &[u8],
    lengths: &[usize],
    values: &mut [u8],
)
    requires whole { sum lengths.now ≡ length texts.now }
    requires sizes { All (IsTextSize by.form) lengths.now }
    requires values { length values.old ≡ sum_by (value_size by.form) lengths.now }
    ensures { IsColumnWritten (value_size by.form) (Writes by key.now iv.now)
        (pieces lengths.now texts.now) values.new }
{
    let mode = mode_by(by.cipher, iv);
    match by.cipher {
        Cipher::Des | Cipher::DesEcb => write_values::<des_fast::Des, S>(
            &filled::<8>(key),
            by.form,
            0,
            mode,
            texts,
            lengths,
            values,
        ),
        Cipher::TripleDes | Cipher::TripleDesEcb => write_values::<TdesEde3, S>(
            &filled::<24>(key),
            by.form,
            0,
            mode,
            texts,
            lengths,
            values,
        ),
    }
}
