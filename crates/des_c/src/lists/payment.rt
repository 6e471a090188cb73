//! The exports of the check values of many keys, and of the keys of many transactions (DUKPT, ANSI
//! X9.24-1:2009).

ghost use Rattle.std.specs.Prelude.{◌≡◌, ◌≢◌, ◌↔◌, length, map, take, replicate};
ghost use Rattle.des_payment.specs.Dukpt.{initial_key, transaction_key};
ghost use Rattle.des_context.specs.CipherTypes.{encryption_of};
ghost use Rattle.des_context.specs.Keys.{IsKeyLength, keys_of};

use super::Width;
use des_context::payment_lists::{check_values, transaction_keys};
use des_context::status::{ERR_COUNTS, OK};

/// Writes the check value of each key at its place: `keys` are keys of `key_size` bytes, one after
/// another. The status is `ERR_COUNTS` if the numbers of keys and values differ; the values then
/// are unchanged.
#[unsafe(no_mangle)]
pub extern "C" fn cukvashe_internal_check_values(
    key_size: usize,
    keys: &[u8],
    values: &mut [[u8; 3]],
) -> i32
    requires { IsKeyLength key_size }
    ensures accepted { (result ≡ OK) ↔ (length (keys_of key_size keys.now) ≡ length values.old) }
    ensures refused { (result ≡ ERR_COUNTS)
        ↔ (length (keys_of key_size keys.now) ≢ length values.old) }
    ensures values { result ≡ OK → values.new
        ≡ map (λ key. take 3 (encryption_of key (replicate 8 0))) (keys_of key_size keys.now) }
    ensures kept { result ≢ OK → values.new ≡ values.old }
{
    check_values::<Width>(key_size, keys, values)
}

/// Writes the key of the transaction of each key serial number at its place, from the base
/// derivation key. The status is `ERR_COUNTS` if the numbers of serial numbers and keys differ; the
/// keys then are unchanged.
#[unsafe(no_mangle)]
pub extern "C" fn cukvashe_internal_dukpt_transaction_keys(
    base: &[u8; 16],
    serials: &[[u8; 10]],
    keys: &mut [[u8; 16]],
) -> i32
    ensures accepted { (result ≡ OK) ↔ (length serials.now ≡ length keys.old) }
    ensures refused { (result ≡ ERR_COUNTS) ↔ (length serials.now ≢ length keys.old) }
    ensures keys { result ≡ OK → keys.new ≡ map
        (λ serial. transaction_key (initial_key base.now serial) serial) serials.now }
    ensures kept { result ≢ OK → keys.new ≡ keys.old }
{
    transaction_keys::<Width>(base, serials, keys)
}
