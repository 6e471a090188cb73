//! What ciphers answer, said by the key that they are made from.

ghost use Rattle.std.specs.Prelude.{◌≡◌, ℕ, List, length};
ghost use Rattle.des.specs.Blocks.{IsKey};

use des::cipher::{KeyBytes, KeyedCipher};

/// A function for the proof alone: the bytes of a key are one, as many as the key size, each below
/// 256.
pub fn are_key_bytes<K: KeyBytes>(key: &K)
    ensures { IsKey K.LEN (K.bytes_of key.now) }
{
    key.as_bytes();
}

/// Encrypts a block.
pub fn encrypt<C: KeyedCipher>(cipher: &C, block: &mut [u8; 8])
    ensures { (key : List ℕ) → IsKey C.KEY_SIZE key → C.is_made_from cipher.now key
        → block.new ≡ C.encryption key block.old }
{
    cipher.encrypt_block(block);
}

/// Decrypts a block.
pub fn decrypt<C: KeyedCipher>(cipher: &C, block: &mut [u8; 8])
    ensures { (key : List ℕ) → IsKey C.KEY_SIZE key → C.is_made_from cipher.now key
        → block.new ≡ C.decryption key block.old }
{
    cipher.decrypt_block(block);
}
