//! The calls over lists in which each block has a key of its own, once for every cipher and every
//! width.

ghost use Rattle.std.specs.Prelude.{◌≡◌, ◌≢◌, ◌↔◌, length};
ghost use Rattle.std.specs.Simd.Lanes.{zip2};
ghost use Rattle.des_context.specs.CipherTypes.{decryption_of, encryption_of};
ghost use Rattle.des_context.specs.Keys.{IsKeyLength, keys_of};

use crate::ciphers::{CipherType, ContextCipher, dispatch_cipher};
use crate::status::{ERR_COUNTS, OK};
use des_fast::many::{KeyForEach, Slice};

// Encrypts the blocks by a cipher.
#[inline(never)]
fn encrypt_by<C: ContextCipher + KeyForEach, S: Slice>(keys: &[u8], blocks: &mut [[u8; 8]]) -> i32
    ensures accepted { (result ≡ OK) ↔ (length (keys_of C.KEY_SIZE keys.now) ≡ length blocks.old) }
    ensures refused { (result ≡ ERR_COUNTS)
        ↔ (length (keys_of C.KEY_SIZE keys.now) ≢ length blocks.old) }
    ensures encrypted { result ≡ OK
        → blocks.new ≡ zip2 encryption_of (keys_of C.KEY_SIZE keys.now) blocks.old }
    ensures kept { result ≢ OK → blocks.new ≡ blocks.old }
{
    match C::encrypt_each_by::<S>(C::keys_in(keys), blocks) {
        Ok(()) => OK,
        Err(_) => ERR_COUNTS,
    }
}

/// Encrypts each block in place under the key at its place: `keys` are keys of `key_size` bytes,
/// one after another, of DES if that is 8, and otherwise of triple DES in the EDE form. The status
/// is `ERR_COUNTS` if the numbers of keys and blocks differ; the blocks are then unchanged.
pub fn encrypt_each<S: Slice>(key_size: usize, keys: &[u8], blocks: &mut [[u8; 8]]) -> i32
    requires { IsKeyLength key_size }
    ensures accepted { (result ≡ OK) ↔ (length (keys_of key_size keys.now) ≡ length blocks.old) }
    ensures refused { (result ≡ ERR_COUNTS)
        ↔ (length (keys_of key_size keys.now) ≢ length blocks.old) }
    ensures encrypted { result ≡ OK
        → blocks.new ≡ zip2 encryption_of (keys_of key_size keys.now) blocks.old }
    ensures kept { result ≢ OK → blocks.new ≡ blocks.old }
{
    let cipher = CipherType::of_key_size(key_size);
    dispatch_cipher!(cipher, encrypt_by::<S>(keys, blocks))
}

// Decrypts the blocks by a cipher.
#[inline(never)]
fn decrypt_by<C: ContextCipher + KeyForEach, S: Slice>(keys: &[u8], blocks: &mut [[u8; 8]]) -> i32
    ensures accepted { (result ≡ OK) ↔ (length (keys_of C.KEY_SIZE keys.now) ≡ length blocks.old) }
    ensures refused { (result ≡ ERR_COUNTS)
        ↔ (length (keys_of C.KEY_SIZE keys.now) ≢ length blocks.old) }
    ensures decrypted { result ≡ OK
        → blocks.new ≡ zip2 decryption_of (keys_of C.KEY_SIZE keys.now) blocks.old }
    ensures kept { result ≢ OK → blocks.new ≡ blocks.old }
{
    match C::decrypt_each_by::<S>(C::keys_in(keys), blocks) {
        Ok(()) => OK,
        Err(_) => ERR_COUNTS,
    }
}

/// Decrypts each block in place under the key at its place. Keys and status are as for
/// `encrypt_each`.
pub fn decrypt_each<S: Slice>(key_size: usize, keys: &[u8], blocks: &mut [[u8; 8]]) -> i32
    requires { IsKeyLength key_size }
    ensures accepted { (result ≡ OK) ↔ (length (keys_of key_size keys.now) ≡ length blocks.old) }
    ensures refused { (result ≡ ERR_COUNTS)
        ↔ (length (keys_of key_size keys.now) ≢ length blocks.old) }
    ensures decrypted { result ≡ OK
        → blocks.new ≡ zip2 decryption_of (keys_of key_size keys.now) blocks.old }
    ensures kept { result ≢ OK → blocks.new ≡ blocks.old }
{
    let cipher = CipherType::of_key_size(key_size);
    dispatch_cipher!(cipher, decrypt_by::<S>(keys, blocks))
}
