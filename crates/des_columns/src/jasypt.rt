//! Strings of Jasypt, as settings have them inside `ENC(` and `)`: in Base64 a salt of 8 bytes, and
//! behind it what is encrypted by CBC and the padding of PKCS#7. Key and vector come from a
//! password, the salt and a number of iterations, by default 1,000, by one of the algorithms of
//! `pbe`: by `Md5Des` before version 3 of Jasypt's integration into Spring Boot.

ghost use Rattle.std.specs.Prelude.{◌≡◌, ◌≢◌, ◌≤◌, ◌<◌, ◌+◌, ◌*◌, ◌/◌, ◌^◌, ◌↔◌, ◌++◌, IsTrue, length, take, drop, sum, IsOk, IfOk, OnOk, OnErr};
ghost use Rattle.std.specs.List.{All, sum_by};
ghost use Rattle.des_columns.specs.Columns.{pieces};
ghost use Rattle.des_columns.specs.Forms.{filled_to};
ghost use Rattle.des_columns.specs.Jasypt.{inside, IsWritten, Reads, ReadsBy, salted, value_size, WritesBy};
ghost use Rattle.des_columns.specs.Pbe.{derived_by, key_size};
ghost use Rattle.des_columns.specs.Readings.{IsColumnRead, IsReading};
ghost use Rattle.des_columns.specs.Writings.{IsColumnWritten, IsWriting};
ghost use Rattle.des_passwords.specs.TextLines.{trimmed};
ghost use Rattle.des_columns.specs.declared.form.BlockMode.TheVariants.{Cbc};
ghost use Rattle.des_columns.specs.declared.form.ValueForm.TheVariants.{Pkcs7};

use crate::base64_in_place::{decode, encode, write_characters};
use crate::column::{Reader, are_ok};
use crate::form::{BlockMode, Reading, ValueForm, finish};
use crate::pbe::{Algorithm, PbeError};
use crate::status::{ERR_BASE64, ERR_SALT_LENGTH, OK};
use crate::value_keys::OneKey;
use crate::writing::Writer;
use des::cipher::{KeyInit, are_bytes};
use des_fast::many::{ManyBlocks, add_up_to};
use des_fast::{Des, TdesEde2, TdesEde3};
use des_passwords::pbkdf2::DeriveError;
use std::simd::prelude::*;

// The blocks that are decrypted together: mostly all of a value.
const BLOCKS: usize = 128;

// A value without the white space around it.
fn trimmed(value: &[u8]) -> &[u8]
    ensures trimmed { result.now ≡ trimmed value.now }
    ensures within { length result.now ≤ length value.now }
{
    value.trim_ascii()
}

// What stands inside `ENC(` and `)`, or all of it.
fn inside(value: &[u8]) -> &[u8]
    ensures inside { result.now ≡ inside value.now }
    ensures within { length result.now ≤ length value.now }
{
    if value.starts_with(b"ENC(") && value[4..].ends_with(b")") {
        &value[4..value.len() - 1]
    } else {
        value
    }
}

// The cipher of a key, and the mode of the vector behind it.
fn cipher_of<C: KeyInit>(both: &[u8]) -> (C, BlockMode)
    requires { length both.now ≡ C.KEY_SIZE + 8 }
    ensures cipher { C.is_made_from result.0 (take C.KEY_SIZE both.now) }
    ensures mode { result.1 ≡ Cbc (drop C.KEY_SIZE both.now) }
{
    let (key, vector) = both.split_at(C::KEY_SIZE);
    let mut iv = [0; 8];
    iv.copy_from_slice(vector);
    (C::new_from_slice(key).unwrap(), BlockMode::Cbc(iv))
}

// Makes of what is encrypted under a key, from the vector behind it, the text at its front.
fn decrypt<C: ManyBlocks + Drop>(both: &[u8], encrypted: &mut [u8]) -> Reading
    requires { length both.now ≡ C.KEY_SIZE + 8 }
    ensures within { result.length ≤ length encrypted.new }
    ensures read { IsReading Pkcs7 (Cbc (drop C.KEY_SIZE both.now)) (C.relation (take C.KEY_SIZE both.now))
        encrypted.old result.status (take result.length encrypted.new) }
{
    let (cipher, mode) = cipher_of::<C>(both);
    mode.has_vector();
    are_bytes(encrypted);
    let reader = Reader {
        keys: OneKey { cipher },
        form: ValueForm::Pkcs7,
        mode,
    };
    let fault = ValueForm::Pkcs7.fault_before(encrypted);
    let count = ValueForm::Pkcs7.part_of(encrypted).len();
    let mut buffer = [[0; 8]; BLOCKS];
    reader.decipher::<u64x2>(&[], &mut encrypted[..count], &mut buffer);
    finish(ValueForm::Pkcs7, fault, count, encrypted)
}

// The same by the cipher of an algorithm.
fn decrypt_by(by: Algorithm, both: &[u8], encrypted: &mut [u8]) -> Reading
    requires { length both.now ≡ key_size by + 8 }
    ensures within { result.length ≤ length encrypted.new }
    ensures read { ReadsBy by both.now encrypted.old result.status (take result.length encrypted.new) }
{
    match by {
        Algorithm::Md5Des | Algorithm::Sha1Des => decrypt::<Des>(both, encrypted),
        Algorithm::Md5TripleDes | Algorithm::Sha1TripleDes => decrypt::<TdesEde3>(both, encrypted),
        Algorithm::Sha1TwoKeys => decrypt::<TdesEde2>(both, encrypted),
    }
}

// Writes the key of a password and a salt, and the vector behind it.
fn derive(by: Algorithm, iterations: u32, password: &[u8], salt: &[u8], both: &mut [u8])
    requires iterations { iterations ≢ 0 }
    requires salt { length salt.now ≡ 8 }
    requires both { length both.old ≡ key_size by + 8 }
    ensures { both.new ≡ derived_by by password.now salt.now iterations }
{
    let _ = by.write_key(password, salt, iterations, both);
}

// Makes of a salt, and what is encrypted behind it, the text at their front.
fn open(by: Algorithm, iterations: u32, password: &[u8], bytes: &mut [u8]) -> Reading
    requires iterations { iterations ≢ 0 }
    requires salt { 8 ≤ length bytes.old }
    ensures within { result.length ≤ length bytes.new }
    ensures read { ReadsBy by (derived_by by password.now (take 8 bytes.old) iterations)
        (drop 8 bytes.old) result.status (take result.length bytes.new) }
{
    let count = bytes.len() - 8;
    bytes.rotate_left(8);
    let (encrypted, salt) = bytes.split_at_mut(count);
    let mut both = [0; 32];
    let both = &mut both[..by.key_size() + 8];
    derive(by, iterations, password, salt, both);
    decrypt_by(by, both, encrypted)
}

// Reads a value: the text stands at the front of its place, before zeros.
fn read_value(
    by: Algorithm,
    iterations: u32,
    password: &[u8],
    value: &[u8],
    place: &mut [u8],
) -> Reading
    requires iterations { iterations ≢ 0 }
    requires place { length place.old ≡ length value.now }
    ensures within { result.length ≤ length place.new }
    ensures read { Reads by iterations password.now value.now result.status
        (take result.length place.new) }
    ensures place { place.new ≡ filled_to (length value.now) (take result.length place.new) }
{
    let count = write_characters(inside(trimmed(value)), place);
    let reading = match decode(&mut place[..count]) {
        None => Reading {
            status: ERR_BASE64,
            length: 0,
        },
        Some(size) if size < 8 => Reading {
            status: ERR_SALT_LENGTH,
            length: 0,
        },
        Some(size) => open(by, iterations, password, &mut place[..size]),
    };
    place[reading.length..].fill(0);
    reading
}

/// Reads strings of Jasypt under a password, one after another, of these lengths: with or without
/// `ENC(` and `)` around, and white space around these and within does not count. Text k is written
/// where value k begins, before zeros, and its length; and status k, which is `OK`, or
/// `ERR_BASE64`, `ERR_SALT_LENGTH` if the value ends within its salt, `ERR_BLOCKS` if nothing or no
/// whole blocks are encrypted, `ERR_PADDING` if the padding is wrong, as mostly under a wrong
/// password. Returns whether all are `OK`. `Derive` if `iterations` is 0, and then nothing is
/// written. The key of each value is derived by itself.
pub fn decrypt_values(
    by: Algorithm,
    iterations: u32,
    password: &[u8],
    values: &[u8],
    lengths: &[usize],
    texts: &mut [u8],
    text_lengths: &mut [usize],
    statuses: &mut [i32],
) -> Result<bool, PbeError>
    requires whole { sum lengths.now ≡ length values.now }
    requires texts { length texts.old ≡ length values.now }
    requires text_lengths { length text_lengths.old ≡ length lengths.now }
    requires statuses { length statuses.old ≡ length lengths.now }
    ensures accepted { IsOk result ↔ (iterations ≢ 0) }
    ensures read { OnOk result (IsColumnRead (Reads by iterations password.now)
        (pieces lengths.now values.now) texts.new text_lengths.new statuses.new) }
    ensures all { IfOk result (λ all. IsTrue all ↔ All (λ status. status ≡ OK) statuses.new) }
    ensures kept { OnErr result ((texts.new ≡ texts.old) × (text_lengths.new ≡ text_lengths.old)
        × (statuses.new ≡ statuses.old)) }
{
    if iterations == 0 {
        return Err(PbeError::Derive(DeriveError::NoIteration));
    }
    let mut start = 0;
    'values: for k in 0..lengths.len() {
        let end = start + lengths[k];
        let value = &values[start..end];
        let place = &mut texts[start..end];
        let reading = read_value(by, iterations, password, value, place);
        text_lengths[k] = reading.length;
        statuses[k] = reading.status;
        start = end;
    }
    Ok(are_ok(statuses))
}

// Writes what is encrypted of a text under a key, from the vector behind it.
fn encrypt<C: ManyBlocks + Drop>(both: &[u8], text: &[u8], encrypted: &mut [u8])
    requires both { length both.now ≡ C.KEY_SIZE + 8 }
    requires encrypted { length encrypted.old ≡ (length text.now / 8 + 1) * 8 }
    ensures { IsWriting Pkcs7 0 (Cbc (drop C.KEY_SIZE both.now)) (C.relation (take C.KEY_SIZE both.now))
        text.now encrypted.new }
{
    let (cipher, mode) = cipher_of::<C>(both);
    let writer = Writer {
        cipher,
        form: ValueForm::Pkcs7,
        number: 0,
        mode,
    };
    let mut buffer = [[0; 8]; BLOCKS];
    writer.write_value::<u64x2>(text, encrypted, &mut buffer);
}

// The same by the cipher of an algorithm.
fn encrypt_by(by: Algorithm, both: &[u8], text: &[u8], encrypted: &mut [u8])
    requires both { length both.now ≡ key_size by + 8 }
    requires encrypted { length encrypted.old ≡ (length text.now / 8 + 1) * 8 }
    ensures { WritesBy by both.now text.now encrypted.new }
{
    match by {
        Algorithm::Md5Des | Algorithm::Sha1Des => encrypt::<Des>(both, text, encrypted),
        Algorithm::Md5TripleDes | Algorithm::Sha1TripleDes => {
            encrypt::<TdesEde3>(both, text, encrypted);
        }
        Algorithm::Sha1TwoKeys => encrypt::<TdesEde2>(both, text, encrypted),
    }
}

// Writes the value of a text from a salt.
fn write_value(
    by: Algorithm,
    iterations: u32,
    password: &[u8],
    salt: &[u8; 8],
    text: &[u8],
    value: &mut [u8],
)
    requires iterations { iterations ≢ 0 }
    requires value { length value.old ≡ value_size (8 + length text.now) }
    ensures { IsWritten by iterations password.now (salt.now ++ text.now) value.new }
{
    let mut both = [0; 32];
    let both = &mut both[..by.key_size() + 8];
    derive(by, iterations, password, salt, both);
    // The characters are as many as the place has bytes, what they encode are fewer.
    let start = value.len() - (text.len() / 8 + 2) * 8;
    value[start..start + 8].copy_from_slice(salt);
    encrypt_by(by, both, text, &mut value[start + 8..]);
    encode(start, value);
}

/// How many characters the value of a text of `size` bytes has.
pub fn value_size(size: usize) -> usize
    requires { size < 2 ^ 63 }
    ensures { result ≡ value_size (8 + size) }
{
    ((size / 8 + 2) * 8 + 2) / 3 * 4
}

/// Writes the values of texts under a password, one after another, each from the salt at its place,
/// which is to be random: without `ENC(` and `)` around, a text of n bytes as the characters of
/// `value_size(n)`. `Derive` if `iterations` is 0, and then nothing is written. The key of each
/// value is derived by itself.
pub fn encrypt_values(
    by: Algorithm,
    iterations: u32,
    password: &[u8],
    salts: &[[u8; 8]],
    texts: &[u8],
    lengths: &[usize],
    values: &mut [u8],
) -> Result<(), PbeError>
    requires whole { sum lengths.now ≡ length texts.now }
    requires salts { length salts.now ≡ length lengths.now }
    requires values { length values.old ≡ sum_by (λ size. value_size (8 + size)) lengths.now }
    ensures accepted { IsOk result ↔ (iterations ≢ 0) }
    ensures written { OnOk result (IsColumnWritten value_size (IsWritten by iterations password.now)
        (salted salts.now (pieces lengths.now texts.now)) values.new) }
    ensures kept { OnErr result (values.new ≡ values.old) }
{
    if iterations == 0 {
        return Err(PbeError::Derive(DeriveError::NoIteration));
    }
    let mut from = 0;
    let mut start = 0;
    'texts: for k in 0..lengths.len() {
        let text = &texts[from..from + lengths[k]];
        let size = value_size(text.len());
        let value = &mut values[start..start + size];
        write_value(by, iterations, password, &salts[k], text, value);
        from += text.len();
        start += size;
    }
    Ok(())
}

/// Whether the arguments of `encrypt_values` fit: the lengths add up to the bytes of the texts,
/// those of their values to the length of the buffer, and each text has a salt.
pub fn fits(salts: &[[u8; 8]], texts: &[u8], lengths: &[usize], values: &[u8]) -> bool
    ensures { IsTrue result ↔ (sum lengths.now ≡ length texts.now)
        × (length salts.now ≡ length lengths.now)
        × (sum_by (λ size. value_size (8 + size)) lengths.now ≡ length values.now) }
{
    add_up_to(lengths, texts.len())
        && salts.len() == lengths.len()
        && values_add_up_to(lengths, values.len())
}

// Whether the values of texts of these lengths have `total` characters together.
fn values_add_up_to(lengths: &[usize], total: usize) -> bool
    requires { sum lengths.now < 2 ^ 63 }
    ensures { IsTrue result ↔ (sum_by (λ size. value_size (8 + size)) lengths.now ≡ total) }
{
    let mut left = total;
    'texts: for k in 0..lengths.len() {
        let size = value_size(lengths[k]);
        if left < size {
            return false;
        }
        left -= size;
    }
    left == 0
}
