//! The check values of many keys, and the keys of many transactions, once for every cipher and
//! every width.

ghost use Rattle.std.specs.Prelude.{◌≡◌, ◌≢◌, ◌↔◌, length, map, take, replicate};
ghost use Rattle.des_payment.specs.Dukpt.{initial_key, transaction_key};
ghost use Rattle.des_context.specs.CipherTypes.{encryption_of};
ghost use Rattle.des_context.specs.Keys.{IsKeyLength, keys_of};

use crate::ciphers::{CipherType, ContextCipher, dispatch_cipher};
use crate::status::{ERR_COUNTS, OK};
use des_fast::many::{KeyForEach, Slice};
use des_payment::check_value_lists::check_values_by;
use des_payment::transaction_lists::transaction_keys_by;

// The check values of keys of a cipher.
#[inline(never)]
fn values_by<C: ContextCipher + KeyForEach, S: Slice>(keys: &[u8], values: &mut [[u8; 3]]) -> i32
    ensures accepted { (result ≡ OK) ↔ (length (keys_of C.KEY_SIZE keys.now) ≡ length values.old) }
    ensures refused { (result ≡ ERR_COUNTS)
        ↔ (length (keys_of C.KEY_SIZE keys.now) ≢ length values.old) }
    ensures values { result ≡ OK → values.new
        ≡ map (λ key. take 3 (encryption_of key (replicate 8 0))) (keys_of C.KEY_SIZE keys.now) }
    ensures kept { result ≢ OK → values.new ≡ values.old }
{
    match check_values_by::<S, C>(C::keys_in(keys), values) {
        Ok(()) => OK,
        Err(_) => ERR_COUNTS,
    }
}

/// The check value of each key at its place: `keys` are keys of `key_size` bytes, one after
/// another, of DES if that is 8, and otherwise of triple DES in the EDE form. The status is
/// `ERR_COUNTS` if the numbers of keys and values differ; the values are then unchanged.
pub fn check_values<S: Slice>(key_size: usize, keys: &[u8], values: &mut [[u8; 3]]) -> i32
    requires { IsKeyLength key_size }
    ensures accepted { (result ≡ OK) ↔ (length (keys_of key_size keys.now) ≡ length values.old) }
    ensures refused { (result ≡ ERR_COUNTS)
        ↔ (length (keys_of key_size keys.now) ≢ length values.old) }
    ensures values { result ≡ OK → values.new
        ≡ map (λ key. take 3 (encryption_of key (replicate 8 0))) (keys_of key_size keys.now) }
    ensures kept { result ≢ OK → values.new ≡ values.old }
{
    let cipher = CipherType::of_key_size(key_size);
    dispatch_cipher!(cipher, values_by::<S>(keys, values))
}

/// The key of the transaction of each key serial number at its place, from the base derivation key.
/// The status is `ERR_COUNTS` if the numbers of serial numbers and keys differ; the keys then
/// are unchanged.
pub fn transaction_keys<S: Slice>(
    base: &[u8; 16],
    serials: &[[u8; 10]],
    keys: &mut [[u8; 16]],
) -> i32
    ensures accepted { (result ≡ OK) ↔ (length serials.now ≡ length keys.old) }
    ensures refused { (result ≡ ERR_COUNTS) ↔ (length serials.now ≢ length keys.old) }
    ensures keys { result ≡ OK → keys.new ≡ map
        (λ serial. transaction_key (initial_key base.now serial) serial) serials.now }
    ensures kept { result ≢ OK → keys.new ≡ keys.old }
{
    match transaction_keys_by::<S>(base, serials, keys) {
        Ok(()) => OK,
        Err(_) => ERR_COUNTS,
    }
}
