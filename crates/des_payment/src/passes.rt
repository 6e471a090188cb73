//! One block under DES, and under triple DES with two parts of a key, with no table at an index
//! that depends on either; and lists of as many keys as blocks.

ghost use Rattle.std.specs.Prelude.{◌≡◌, ◌≤◌, map, length, IsTrue};
ghost use Rattle.std.specs.Simd.Lanes.{zip2};
ghost use Rattle.des.specs.Blocks.{IsBlock};
ghost use Rattle.des.specs.Des.{encryption};
ghost use Rattle.des.specs.TripleCiphers.{ede2_encryption};
ghost use Rattle.des_payment.specs.KeyLengths.{is_key as is_key_of, encryption_by, decryption_by};

use des::cipher::{BlockCipherDecrypt, BlockCipherEncrypt, KeyBytes, KeyInit, KeyedCipher};
use des_fast::many::{KeyForEach, ManyBlocks, Slice};
use des_fast::no_tables::{Des, TdesEde2, TdesEde3};

// What DES makes of a block under a key.
pub(crate) fn encrypted_by_des(key: &[u8; 8], block: &[u8; 8]) -> [u8; 8]
    ensures { result ≡ encryption key.now block.now }
{
    let mut encrypted = *block;
    Des::new(key).encrypt_block(&mut encrypted);
    encrypted
}

// What triple DES in the EDE form makes of a block under a key of two parts.
pub(crate) fn encrypted_by_ede2(key: &[u8; 16], block: &[u8; 8]) -> [u8; 8]
    ensures block { IsBlock result }
    ensures encrypted { result ≡ ede2_encryption key.now block.now }
{
    let mut encrypted = *block;
    TdesEde2::new(key).encrypt_block(&mut encrypted);
    encrypted
}

// Whether a key has one part, two or three.
pub(crate) fn is_key(key: &[u8]) -> bool
    ensures { result ≡ is_key_of key.now }
{
    key.len() == 8 || key.len() == 16 || key.len() == 24
}

// What the cipher of a key's length makes of a block, in a direction.
macro_rules! made_by {
    ($key:ident, $block:ident, $direction:ident) => {{
        let mut made = *$block;
        match $key.len() {
            8 => Des::new_from_slice($key).unwrap().$direction(&mut made),
            16 => TdesEde2::new_from_slice($key).unwrap().$direction(&mut made),
            _ => TdesEde3::new_from_slice($key).unwrap().$direction(&mut made),
        }
        made
    }};
}

// What DES, or triple DES in the EDE form, makes of a block under a key of one part, two or three,
// in each direction.
pub(crate) fn encrypted_by(key: &[u8], block: &[u8; 8]) -> [u8; 8]
    requires { IsTrue (is_key_of key.now) }
    ensures { result ≡ encryption_by key.now block.now }
{
    made_by!(key, block, encrypt_block)
}

pub(crate) fn decrypted_by(key: &[u8], block: &[u8; 8]) -> [u8; 8]
    requires { IsTrue (is_key_of key.now) }
    ensures { result ≡ decryption_by key.now block.now }
{
    made_by!(key, block, decrypt_block)
}

// Encrypts each block under the key at its place, if there is a key for each block.
pub(crate) fn encrypt_each_of<C: KeyForEach, S: Slice>(keys: &[C::Key], blocks: &mut [[u8; 8]])
    requires { length keys.now ≡ length blocks.old }
    ensures { blocks.new ≡ zip2 C.encryption (map C.Key.bytes_of keys.now) blocks.old }
{
    C::encrypt_each_by::<S>(keys, blocks).unwrap();
}

// Encrypts each block under one key.
pub(crate) fn encrypt_many_of<C: KeyedCipher + ManyBlocks + Drop, S: Slice>(
    key: &C::Key,
    blocks: &mut [[u8; 8]],
)
    ensures { blocks.new ≡ map (C.encryption (C.Key.bytes_of key.now)) blocks.old }
{
    key.as_bytes();
    C::new(key).encrypt_many_by::<S>(blocks);
}

// The most elements of a list that are treated together.
pub(crate) const GROUP: usize = 256;
