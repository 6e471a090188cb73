//! The exports of key check values. No table is read at an index that depends on a key.

ghost use Rattle.std.specs.Prelude.{◌≡◌, ◌≢◌, ◌↔◌, length, take, replicate, IsTrue};
ghost use Rattle.des_context.specs.Keys.{IsKeyLength};
ghost use Rattle.des_payment.specs.KeyLengths.{is_key, encryption_by};

use des_context::status::{ERR_KEY_LENGTH, OK};
use des_payment::{key_check_value, short_key_check_value};

/// Writes the check value of a key of 8, 16 or 24 bytes, or of a component of one, by its length:
/// under `Des`, `TdesEde2` or `TdesEde3`. The status for a key of any other length is
/// `ERR_KEY_LENGTH`, and then `value` is unchanged.
#[unsafe(no_mangle)]
pub extern "C" fn cukvashe_key_check_value(key: &[u8], value: &mut [u8; 3]) -> i32
    ensures accepted { (result ≡ OK) ↔ IsTrue (is_key key.now) }
    ensures refused { (result ≡ ERR_KEY_LENGTH) ↔ ¬ (IsTrue (is_key key.now)) }
    ensures value { result ≡ OK
        → value.new ≡ take 3 (encryption_by key.now (replicate 8 0)) }
    ensures kept { result ≢ OK → value.new ≡ value.old }
{
    match key_check_value(key) {
        Ok(made) => {
            *value = made;
            OK
        }
        Err(_) => ERR_KEY_LENGTH,
    }
}

/// Writes the first two of the bytes that `cukvashe_key_check_value` writes. The status is as for
/// that call.
#[unsafe(no_mangle)]
pub extern "C" fn cukvashe_short_key_check_value(key: &[u8], value: &mut [u8; 2]) -> i32
    ensures accepted { (result ≡ OK) ↔ IsTrue (is_key key.now) }
    ensures refused { (result ≡ ERR_KEY_LENGTH) ↔ ¬ (IsTrue (is_key key.now)) }
    ensures value { result ≡ OK
        → value.new ≡ take 2 (encryption_by key.now (replicate 8 0)) }
    ensures kept { result ≢ OK → value.new ≡ value.old }
{
    match short_key_check_value(key) {
        Ok(made) => {
            *value = made;
            OK
        }
        Err(_) => ERR_KEY_LENGTH,
    }
}

/// Writes the check value of a key of `key_size` bytes. The status for a key of any other length is
/// `ERR_KEY_LENGTH`, and then `value` is unchanged.
#[unsafe(no_mangle)]
pub extern "C" fn cukvashe_internal_check_value(
    key_size: usize,
    key: &[u8],
    value: &mut [u8; 3],
) -> i32
    requires { IsKeyLength key_size }
    ensures accepted { (result ≡ OK) ↔ (length key.now ≡ key_size) }
    ensures refused { (result ≡ ERR_KEY_LENGTH) ↔ (length key.now ≢ key_size) }
    ensures value { length key.now ≡ key_size
        → value.new ≡ take 3 (encryption_by key.now (replicate 8 0)) }
    ensures kept { length key.now ≢ key_size → value.new ≡ value.old }
{
    if key.len() != key_size {
        return ERR_KEY_LENGTH;
    }
    cukvashe_key_check_value(key, value)
}
