//! The exports of lists in which each block has a key of its own.

ghost use Rattle.std.specs.Prelude.{◌≡◌, ◌≢◌, ◌↔◌, length};
ghost use Rattle.std.specs.Simd.Lanes.{zip2};
ghost use Rattle.des_context.specs.CipherTypes.{decryption_of, encryption_of};
ghost use Rattle.des_context.specs.Keys.{IsKeyLength, keys_of};

use super::Width;
use des_context::each_key::{decrypt_each, encrypt_each};
use des_context::status::{ERR_COUNTS, OK};

/// Encrypts each block in place under the key at its place: `keys` are keys of `key_size` bytes,
/// one after another. The status is `ERR_COUNTS` if the numbers of keys and blocks differ; the
/// blocks are then unchanged.
#[unsafe(no_mangle)]
pub extern "C" fn cukvashe_internal_encrypt_each(
    key_size: usize,
    keys: &[u8],
    blocks: &mut [[u8; 8]],
) -> i32
    requires { IsKeyLength key_size }
    ensures accepted { (result ≡ OK) ↔ (length (keys_of key_size keys.now) ≡ length blocks.old) }
    ensures refused { (result ≡ ERR_COUNTS)
        ↔ (length (keys_of key_size keys.now) ≢ length blocks.old) }
    ensures encrypted { result ≡ OK
        → blocks.new ≡ zip2 encryption_of (keys_of key_size keys.now) blocks.old }
    ensures kept { result ≢ OK → blocks.new ≡ blocks.old }
{
    encrypt_each::<Width>(key_size, keys, blocks)
}

/// Decrypts each block in place under the key at its place. Keys and status are as for encryption.
#[unsafe(no_mangle)]
pub extern "C" fn cukvashe_internal_decrypt_each(
    key_size: usize,
    keys: &[u8],
    blocks: &mut [[u8; 8]],
) -> i32
    requires { IsKeyLength key_size }
    ensures accepted { (result ≡ OK) ↔ (length (keys_of key_size keys.now) ≡ length blocks.old) }
    ensures refused { (result ≡ ERR_COUNTS)
        ↔ (length (keys_of key_size keys.now) ≢ length blocks.old) }
    ensures decrypted { result ≡ OK
        → blocks.new ≡ zip2 decryption_of (keys_of key_size keys.now) blocks.old }
    ensures kept { result ≢ OK → blocks.new ≡ blocks.old }
{
    decrypt_each::<Width>(key_size, keys, blocks)
}
