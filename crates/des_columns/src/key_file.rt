//! The server's file of keys of MySQL and MariaDB (`des-key-file`), and columns of values whose
//! first bytes name them.

ghost use Rattle.std.specs.Prelude.{◌≡◌, ◌==◌, ◌<◌, ℕ, List, Some, None, not, length, drop, map, get_or, replicate};
ghost use Rattle.std.specs.List.{before_first, position_or_len};
ghost use Rattle.std.specs.Option.{option_map, option_or, unwrap_or};
ghost use Rattle.std.specs.Simd.Lanes.{zip2};
ghost use Rattle.des.specs.Blocks.{IsKey};
ghost use Rattle.des.specs.TripleCiphers.{ede3_decryption};
ghost use Rattle.des_columns.specs.KeyFile.{has_key, is_line, is_shown, is_space, keys_in, string_at, string_of, until_shown};
ghost use Rattle.des_columns.specs.Mysql.{key_of, number_of};

use crate::form::ValueForm;
use crate::value_keys::ValueKeys;
use des::cipher::{KeyBytes, KeyInit};
use des_fast::TdesEde3;
use des_fast::many::{KeyForEach, ManyBlocks, Slice};
use des_passwords::Derivation;

// The most bytes that the server reads of a line.
const LINE: usize = 1022;

/// The keys of a server's file, by their numbers.
#[derive(Drop)]
pub struct KeyFile {
    pub keys: [Option<[u8; 24]>; 10],
}

/// The key of a key string, as the server makes it: by `EVP_BytesToKey` with MD5, no salt and one
/// iteration. Its parity bits are as derived, not set.
pub fn key_of(string: &[u8]) -> [u8; 24]
    ensures { result ≡ key_of string.now }
{
    let mut key = [0; 24];
    let _ = Derivation::Md5.write_bytes(string, &[], &mut key);
    key
}

// Whether bytes are a line: there is its end, or as many as the server reads.
fn is_line(bytes: &[u8]) -> bool
    ensures { result ≡ is_line bytes.now }
{
    bytes.last() == Some(&b'\n') || bytes.len() >= LINE
}

// Whether a byte is white space in latin1.
fn is_space(byte: u8) -> bool
    ensures { result ≡ is_space byte }
{
    (9..=13).contains(&byte) || byte == b' ' || byte == 0xA0
}

// Whether a byte is a character that is shown, in MySQL's latin1.
fn is_shown(byte: u8) -> bool
    ensures { result ≡ is_shown byte }
{
    byte > b' ' && !matches!(byte, 0x7F | 0x81 | 0x8D | 0x8F | 0x90 | 0x9D | 0xA0)
}

// What stands before a zero, if there is one.
fn before_zero(bytes: &[u8]) -> &[u8]
    ensures { result.now ≡ before_first (λ byte. byte == 0) bytes.now }
{
    let mut end = 0;
    'text: while end < bytes.len() && bytes[end] != 0 {
        end += 1;
    }
    &bytes[..end]
}

// Bytes without white space in front.
fn without_space(bytes: &[u8]) -> &[u8]
    ensures { result.now ≡ drop (position_or_len (λ byte. not (is_space byte)) bytes.now) bytes.now }
{
    let mut start = 0;
    'space: while start < bytes.len() && is_space(bytes[start]) {
        start += 1;
    }
    &bytes[start..]
}

// Bytes without those behind the last that is shown.
fn until_shown(bytes: &[u8]) -> &[u8]
    ensures { result.now ≡ until_shown bytes.now }
{
    let mut end = bytes.len();
    'hidden: while end > 0 && !is_shown(bytes[end - 1]) {
        end -= 1;
    }
    &bytes[..end]
}

// The string of a line behind its digit.
fn string_of(rest: &[u8]) -> &[u8]
    ensures { result.now ≡ string_of rest.now }
{
    until_shown(without_space(before_zero(rest)))
}

// Takes the key of a line, if it has one, in place of an earlier one of its number.
fn take_key(line: &[u8], keys: &mut [Option<[u8; 24]>; 10])
    ensures { (number : ℕ) → number < 10 → get_or keys.new number None
        ≡ option_or (option_map key_of (string_at number line.now)) (get_or keys.old number None) }
{
    let Some((digit, rest)) = line.split_first() else {
        return;
    };
    let string = string_of(rest);
    if digit.is_ascii_digit() && !string.is_empty() {
        keys[(*digit - b'0') as usize] = Some(key_of(string));
    }
}

impl KeyFile {
    /// Reads the bytes of a file as the server does. A line has a digit, white space and a key
    /// string; control characters at its end are dropped. A later line replaces an earlier one with
    /// the same digit. Lines without a key are ignored, and so is a last line without a line end. A
    /// line of more than 1,022 bytes is cut there, and the rest is read as the next line.
    pub fn read(file: &[u8]) -> KeyFile
        ensures { result.keys ≡ keys_in file.now }
    {
        let mut keys = [None; 10];
        let mut start = 0;
        'bytes: for at in 0..file.len() {
            let line = &file[start..at + 1];
            if is_line(line) {
                take_key(line, &mut keys);
                start = at + 1;
            }
        }
        KeyFile { keys }
    }

    // The keys are keys: what the type says, for those that cite it.
    pub(crate) fn are_keys(&self)
        ensures { (number : ℕ) (key : List ℕ) → get_or self.now.keys number None ≡ Some key
            → IsKey 24 key }
    {
        'numbers: for number in 0..10 {
            if let Some(key) = &self.keys[number] {
                key.as_bytes();
            }
        }
    }

    // The key of the number of a value.
    fn key_for(&self, value: &[u8]) -> Option<[u8; 24]>
        ensures { result ≡ get_or self.now.keys (number_of value.now) None }
    {
        let number = value.first().map_or(0, |byte| byte.saturating_sub(128));
        match self.keys.get(number as usize) {
            Some(key) => *key,
            None => None,
        }
    }
}

// Makes each of some keys this one.
fn fill_with(key: &[u8; 24], keys: &mut [[u8; 24]])
    ensures { keys.new ≡ replicate (length keys.old) key.now }
{
    keys.fill(*key);
}

// Decrypts each block under the key at its place.
fn decrypt_each<S: Slice>(keys: &[[u8; 24]], blocks: &mut [[u8; 8]])
    requires { length keys.now ≡ length blocks.old }
    ensures { blocks.new ≡ zip2 ede3_decryption keys.now blocks.old }
{
    TdesEde3::decrypt_each_by::<S>(keys, blocks).unwrap();
}

// Decrypts blocks under one key.
fn decrypt_by<C: ManyBlocks + Drop, S: Slice>(key: &C::Key, blocks: &mut [[u8; 8]])
    ensures { blocks.new ≡ map (C.decryption (C.Key.bytes_of key.now)) blocks.old }
{
    key.as_bytes();
    C::new(key).decrypt_list_by::<S>(true, blocks);
}

// A value without a key is decrypted under zeros, and then it has no text.
impl ValueKeys for KeyFile {
    ghost use Rattle.std.proofs.Common.{lit≤};

    const MAX_BLOCKS: usize = 256;

    ghost MAX_BLOCKS = { 256 };

    ghost fit_buffer = { (lit≤ tt, lit≤ tt) };

    ghost has_key = { λ file value. has_key file.keys value };

    ghost decryption = { λ file value. ede3_decryption
        (unwrap_or (get_or file.keys (number_of value) None) (replicate 24 0)) };

    fn has_key_for(&self, value: &[u8]) -> bool {
        value.is_empty() || self.key_for(value).is_some()
    }

    fn decrypt_values<S: Slice>(
        &self,
        form: ValueForm,
        values: &[u8],
        lengths: &[usize],
        blocks: &mut [[u8; 8]],
    ) {
        let mut keys = [[0; 24]; 256];
        let mut filled = 0;
        let mut rest = values;
        'values: for k in 0..lengths.len() {
            let (value, others) = rest.split_at(lengths[k].min(rest.len()));
            let count = form.part_of(value).len() / 8;
            let key = self.key_for(value).unwrap_or([0; 24]);
            fill_with(&key, &mut keys[filled..filled + count]);
            filled += count;
            rest = others;
        }
        decrypt_each::<S>(&keys[..filled], blocks);
    }

    fn decrypt_part<S: Slice>(&self, value: &[u8], blocks: &mut [[u8; 8]]) {
        decrypt_by::<TdesEde3, S>(&self.key_for(value).unwrap_or([0; 24]), blocks);
    }
}
