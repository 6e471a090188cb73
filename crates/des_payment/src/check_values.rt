//! Key check values (KCV): the first two or three bytes of the block of 64 zero bits, encrypted
//! under the key. They tell whether two sides hold the same key, and are the small caller that
//! `docs/CALLING.md` shows.

ghost use Rattle.std.specs.Prelude.{◌≡◌, ◌↔◌, length, take, replicate, IsOk, IfOk, IsTrue};
ghost use Rattle.des_payment.specs.KeyLengths.{is_key as is_key_of, encryption_by};

use crate::passes::{encrypted_by, is_key};
use des::cipher::{BlockCipherEncrypt, InvalidLength, KeyInit, KeyedCipher};

// The first three bytes of a block.
pub(crate) fn first_bytes(block: &[u8; 8]) -> [u8; 3]
    ensures { result ≡ take 3 block.now }
{
    [block[0], block[1], block[2]]
}

/// The check value of a key of any cipher, by the laws of the traits; `InvalidLength` if the key
/// does not have `KEY_SIZE` bytes.
pub fn check_value<C: KeyedCipher + Drop>(key: &[u8]) -> Result<[u8; 3], InvalidLength>
    ensures accepted { IsOk result ↔ (length key.now ≡ C.KEY_SIZE) }
    ensures value { IfOk result (λ value.
        value ≡ take 3 (C.encryption key.now (replicate 8 0))) }
{
    let cipher = C::new_from_slice(key)?;
    let mut block = [0; 8];
    cipher.encrypt_block(&mut block);
    Ok(first_bytes(&block))
}

/// The check value of a key in the clear of 8, 16 or 24 bytes, by its length: by DES, or by triple
/// DES in the EDE form. A component is such a key too, taken as it is: parity bits do not count.
/// `InvalidLength` if the key has another length.
pub fn key_check_value(key: &[u8]) -> Result<[u8; 3], InvalidLength>
    ensures accepted { IsOk result ↔ IsTrue (is_key_of key.now) }
    ensures value { IfOk result (λ value.
        value ≡ take 3 (encryption_by key.now (replicate 8 0))) }
{
    if !is_key(key) {
        return Err(InvalidLength);
    }
    Ok(first_bytes(&encrypted_by(key, &[0; 8])))
}

/// The first two bytes of that check value, which some systems show in its place.
pub fn short_key_check_value(key: &[u8]) -> Result<[u8; 2], InvalidLength>
    ensures accepted { IsOk result ↔ IsTrue (is_key_of key.now) }
    ensures value { IfOk result (λ value.
        value ≡ take 2 (encryption_by key.now (replicate 8 0))) }
{
    let value = key_check_value(key)?;
    Ok([value[0], value[1]])
}
