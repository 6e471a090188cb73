//! The exports of PIN verification: the PIN verification value, natural PINs and offsets.

ghost use Rattle.std.specs.Prelude.{◌≡◌, ◌≢◌, ◌↔◌, ℕ, List, None, Ok, if◌then◌else◌, nat_le, length};
ghost use Rattle.std.specs.Option.{option_or};
ghost use Rattle.std.specs.Result.{result_err};
ghost use Rattle.des_payment.specs.Texts.{values};
ghost use Rattle.des_payment.specs.PinVerification.{pvv as pvv_of, pvv_fault, table_fault, natural_fault};
ghost use Rattle.des_payment.specs.PinVerification.{natural_pin as natural_pin_of, pin_offset as pin_offset_of, IsRight};
ghost use Rattle.des_c.specs.VerificationStatuses.{status_of as status_of_fault, value_status, key_status, text_status, offset_status};
ghost use Rattle.des_c.specs.Statuses.{status_after};
ghost use Rattle.des_c.specs.Texts.{with_zeros};

use super::pin_blocks::status_of as pin_status_of;
use super::put;
use des_context::status::{
    ERR_ACCOUNT_DIGIT, ERR_ACCOUNT_LENGTH, ERR_KEY_INDEX, ERR_KEY_LENGTH, ERR_PIN_LENGTH,
    ERR_TABLE_DIGIT, ERR_TABLE_LENGTH, ERR_TABLE_VARIETY, ERR_WRONG_PIN, OK,
};
use des_payment::pin_verification::{natural_pin, pin_offset, pvv, verify_offset, verify_pvv};
use des_payment::{DecimalTable, Pin, VerificationError};

fn status_of(fault: VerificationError) -> i32
    ensures status { result ≡ status_of_fault fault }
    ensures fault { result ≢ OK }
{
    match fault {
        VerificationError::AccountLength => ERR_ACCOUNT_LENGTH,
        VerificationError::AccountDigit => ERR_ACCOUNT_DIGIT,
        VerificationError::KeyIndex => ERR_KEY_INDEX,
        VerificationError::KeyLength => ERR_KEY_LENGTH,
        VerificationError::PinLength => ERR_PIN_LENGTH,
        VerificationError::TableLength => ERR_TABLE_LENGTH,
        VerificationError::TableDigit => ERR_TABLE_DIGIT,
        VerificationError::TableVariety => ERR_TABLE_VARIETY,
        VerificationError::WrongPin => ERR_WRONG_PIN,
    }
}

// The status of a verification.
fn verified(result_of: Result<(), VerificationError>) -> i32
    ensures { result ≡ status_after status_of_fault (result_err result_of) }
{
    match result_of {
        Ok(()) => OK,
        Err(fault) => status_of(fault),
    }
}

// The index of a key pair as a byte. A number above 6 is none, and neither is 0.
fn index_of(index: u32) -> u8
    ensures { result ≡ (if nat_le index 6 then index else 0) }
{
    if index <= 6 { index as u8 } else { 0 }
}

// Writes the PIN verification value of a PIN, if there is one.
fn write_value(key: &[u8; 16], account: &[u8], index: u32, pin: &Pin, value: &mut [u8; 5]) -> i32
    ensures status { result ≡ status_after status_of_fault (pvv_fault account.now index) }
    ensures value { result ≡ OK
        → value.new ≡ with_zeros 5 (pvv_of key.now account.now index pin.now) }
    ensures kept { result ≢ OK → value.new ≡ value.old }
{
    match pvv(key, account, index_of(index), pin) {
        Ok(made) => {
            *value = [made[0], made[1], made[2], made[3], 0];
            OK
        }
        Err(fault) => status_of(fault),
    }
}

/// Writes the PIN verification value, four ASCII digits and a zero byte, of an account number of 12
/// to 19 digits and a PIN of 4 to 12, texts of ASCII digits, under a key pair with an index from 1
/// to 6. The status is that of the first fault, of the PIN, then of the account number and then of
/// the index, and then `value` is unchanged.
#[unsafe(no_mangle)]
pub extern "C" fn cukvashe_pvv(
    key: &[u8; 16],
    account: &[u8],
    index: u32,
    pin: &[u8],
    value: &mut [u8; 5],
) -> i32
    ensures status { result ≡ value_status account.now index pin.now }
    ensures value { result ≡ OK
        → value.new ≡ with_zeros 5 (pvv_of key.now account.now index pin.now) }
    ensures kept { result ≢ OK → value.new ≡ value.old }
{
    match Pin::new(pin) {
        Ok(pin) => write_value(key, account, index, &pin, value),
        Err(fault) => pin_status_of(fault),
    }
}

// Accepts the PIN verification value of a PIN. One of another length is none.
fn verified_value(key: &[u8; 16], account: &[u8], index: u32, pin: &Pin, value: &[u8]) -> i32
    ensures fault { pvv_fault account.now index ≢ None
        → result ≡ status_after status_of_fault (pvv_fault account.now index) }
    ensures right { (result ≡ OK) ↔ ((pvv_fault account.now index ≡ None)
        × (value.now ≡ pvv_of key.now account.now index pin.now)) }
    ensures wrong { (result ≡ ERR_WRONG_PIN) ↔ ((pvv_fault account.now index ≡ None)
        × (value.now ≢ pvv_of key.now account.now index pin.now)) }
{
    let index = index_of(index);
    match <[u8; 4]>::try_from(value) {
        Ok(value) => verified(verify_pvv(key, account, index, pin, &value)),
        Err(_) => match pvv(key, account, index, pin) {
            Ok(_) => ERR_WRONG_PIN,
            Err(fault) => status_of(fault),
        },
    }
}

/// Accepts the PIN verification value that `cukvashe_pvv` returns. The status is that of the first
/// fault, as for that call, and then `ERR_WRONG_PIN` for any other text.
#[unsafe(no_mangle)]
pub extern "C" fn cukvashe_pvv_verify(
    key: &[u8; 16],
    account: &[u8],
    index: u32,
    pin: &[u8],
    value: &[u8],
) -> i32
    ensures fault { value_status account.now index pin.now ≢ OK
        → result ≡ value_status account.now index pin.now }
    ensures right { (result ≡ OK) ↔ ((value_status account.now index pin.now ≡ OK)
        × (value.now ≡ pvv_of key.now account.now index pin.now)) }
    ensures wrong { (result ≡ ERR_WRONG_PIN) ↔ ((value_status account.now index pin.now ≡ OK)
        × (value.now ≢ pvv_of key.now account.now index pin.now)) }
{
    match Pin::new(pin) {
        Ok(pin) => verified_value(key, account, index, &pin, value),
        Err(fault) => pin_status_of(fault),
    }
}

/// A decimalization table: sixteen ASCII digits, those that stand for 0 to 15 in this order.
#[repr(C)]
#[derive(Clone, Copy)]
pub struct TableText {
    digits: [u8; 16],
}

// Writes the text of a table that was made of it, if one was.
fn write_table(
    made: Result<DecimalTable, VerificationError>,
    text: &[u8],
    table: &mut TableText,
) -> i32
    requires { result_err made ≡ None → length text.now ≡ 16 }
    ensures status { result ≡ status_after status_of_fault (result_err made) }
    ensures table { result ≡ OK → table.new.digits ≡ text.now }
    ensures kept { result ≢ OK → table.new ≡ table.old }
{
    match made {
        Ok(_) => {
            table.digits.copy_from_slice(text);
            OK
        }
        Err(fault) => status_of(fault),
    }
}

/// Writes the decimalization table of sixteen ASCII digits. The status is that of the first fault:
/// `ERR_TABLE_LENGTH`, `ERR_TABLE_DIGIT`, and `ERR_TABLE_VARIETY` if there are fewer than eight
/// different ones; and then `table` is unchanged.
#[unsafe(no_mangle)]
pub extern "C" fn cukvashe_decimal_table_init(table: &mut TableText, text: &[u8]) -> i32
    ensures status { result ≡ status_after status_of_fault (table_fault 8 text.now) }
    ensures table { result ≡ OK → table.new.digits ≡ text.now }
    ensures kept { result ≢ OK → table.new ≡ table.old }
{
    write_table(DecimalTable::new(text), text, table)
}

/// Writes such a table with any number of different digits. The status is `ERR_TABLE_LENGTH` or
/// `ERR_TABLE_DIGIT`.
#[unsafe(no_mangle)]
pub extern "C" fn cukvashe_decimal_table_init_any(table: &mut TableText, text: &[u8]) -> i32
    ensures status { result ≡ status_after status_of_fault (table_fault 0 text.now) }
    ensures table { result ≡ OK → table.new.digits ≡ text.now }
    ensures kept { result ≢ OK → table.new ≡ table.old }
{
    write_table(DecimalTable::of_any_variety(text), text, table)
}

// Writes the PIN or the offset that was made, if one was.
fn write_pin(made: Result<Pin, VerificationError>, pin: &mut [u8; 13]) -> i32
    ensures status { result ≡ status_after status_of_fault (result_err made) }
    ensures pin { (text : List ℕ) → made ≡ Ok text → pin.new ≡ with_zeros 13 text }
    ensures kept { result ≢ OK → pin.new ≡ pin.old }
{
    match made {
        Ok(made) => {
            put(made.text(), pin);
            OK
        }
        Err(fault) => status_of(fault),
    }
}

/// Writes the natural PIN of 4 to 12 digits of validation data under a key of 8, 16 or 24 bytes:
/// its ASCII digits, and then zero bytes. The status is that of the first fault, of the table, then
/// `ERR_KEY_LENGTH` and then `ERR_PIN_LENGTH`, and then `pin` is unchanged.
#[unsafe(no_mangle)]
pub extern "C" fn cukvashe_natural_pin(
    key: &[u8],
    table: &TableText,
    validation: &[u8; 8],
    count: usize,
    pin: &mut [u8; 13],
) -> i32
    ensures status { result ≡ status_after status_of_fault
        (option_or (table_fault 0 table.now.digits) (natural_fault key.now count)) }
    ensures pin { result ≡ OK → pin.new ≡ with_zeros 13
        (natural_pin_of key.now (values table.now.digits) validation.now count) }
    ensures kept { result ≢ OK → pin.new ≡ pin.old }
{
    match DecimalTable::of_any_variety(&table.digits) {
        Ok(table) => write_pin(natural_pin(key, &table, validation, count), pin),
        Err(fault) => status_of(fault),
    }
}

// Writes the offset of a PIN, if there is one.
fn write_offset(
    key: &[u8],
    table: &TableText,
    validation: &[u8; 8],
    pin: &Pin,
    offset: &mut [u8; 13],
) -> i32
    ensures status { result ≡ key_status table.now.digits key.now }
    ensures offset { result ≡ OK → offset.new ≡ with_zeros 13
        (pin_offset_of key.now (values table.now.digits) validation.now pin.now) }
    ensures kept { result ≢ OK → offset.new ≡ offset.old }
{
    match DecimalTable::of_any_variety(&table.digits) {
        Ok(table) => write_pin(pin_offset(key, &table, validation, pin), offset),
        Err(fault) => status_of(fault),
    }
}

/// Writes the offset of a PIN of 4 to 12 ASCII digits, as many digits, and then zero bytes. The
/// status is that of the first fault, of the PIN, then of the table and then `ERR_KEY_LENGTH`, and
/// then `offset` is unchanged.
#[unsafe(no_mangle)]
pub extern "C" fn cukvashe_pin_offset(
    key: &[u8],
    table: &TableText,
    validation: &[u8; 8],
    pin: &[u8],
    offset: &mut [u8; 13],
) -> i32
    ensures status { result ≡ text_status table.now.digits key.now pin.now }
    ensures offset { result ≡ OK → offset.new ≡ with_zeros 13
        (pin_offset_of key.now (values table.now.digits) validation.now pin.now) }
    ensures kept { result ≢ OK → offset.new ≡ offset.old }
{
    match Pin::new(pin) {
        Ok(pin) => write_offset(key, table, validation, &pin, offset),
        Err(fault) => pin_status_of(fault),
    }
}

// Accepts the PIN of an offset, by the text of the table.
fn verified_by(key: &[u8], table: &TableText, validation: &[u8; 8], pin: &Pin, offset: &Pin) -> i32
    ensures fault { key_status table.now.digits key.now ≢ OK
        → result ≡ key_status table.now.digits key.now }
    ensures right { (result ≡ OK) ↔ ((key_status table.now.digits key.now ≡ OK)
        × IsRight key.now (values table.now.digits) validation.now offset.now pin.now) }
    ensures wrong { (result ≡ ERR_WRONG_PIN) ↔ ((key_status table.now.digits key.now ≡ OK)
        × ¬ (IsRight key.now (values table.now.digits) validation.now offset.now pin.now)) }
{
    match DecimalTable::of_any_variety(&table.digits) {
        Ok(table) => verified(verify_offset(key, &table, validation, pin, offset)),
        Err(fault) => status_of(fault),
    }
}

// Accepts the PIN of an offset, by the texts of both.
fn verified_offset(
    key: &[u8],
    table: &TableText,
    validation: &[u8; 8],
    pin: &Pin,
    offset: &[u8],
) -> i32
    ensures fault { text_status table.now.digits key.now offset.now ≢ OK
        → result ≡ text_status table.now.digits key.now offset.now }
    ensures right { (result ≡ OK) ↔ ((text_status table.now.digits key.now offset.now ≡ OK)
        × IsRight key.now (values table.now.digits) validation.now offset.now pin.now) }
    ensures wrong { (result ≡ ERR_WRONG_PIN)
        ↔ ((text_status table.now.digits key.now offset.now ≡ OK)
        × ¬ (IsRight key.now (values table.now.digits) validation.now offset.now pin.now)) }
{
    match Pin::new(offset) {
        Ok(offset) => verified_by(key, table, validation, pin, &offset),
        Err(fault) => pin_status_of(fault),
    }
}

/// Accepts the PIN of 4 to 12 ASCII digits that is the sum of an offset and the natural PIN, digit
/// by digit, modulo ten. The status is that of the first fault, of the PIN, then of the offset,
/// then of the table and then `ERR_KEY_LENGTH`, and then `ERR_WRONG_PIN` for any other PIN.
#[unsafe(no_mangle)]
pub extern "C" fn cukvashe_pin_offset_verify(
    key: &[u8],
    table: &TableText,
    validation: &[u8; 8],
    pin: &[u8],
    offset: &[u8],
) -> i32
    ensures fault { offset_status table.now.digits key.now offset.now pin.now ≢ OK
        → result ≡ offset_status table.now.digits key.now offset.now pin.now }
    ensures right { (result ≡ OK)
        ↔ ((offset_status table.now.digits key.now offset.now pin.now ≡ OK)
        × IsRight key.now (values table.now.digits) validation.now offset.now pin.now) }
    ensures wrong { (result ≡ ERR_WRONG_PIN)
        ↔ ((offset_status table.now.digits key.now offset.now pin.now ≡ OK)
        × ¬ (IsRight key.now (values table.now.digits) validation.now offset.now pin.now)) }
{
    match Pin::new(pin) {
        Ok(pin) => verified_offset(key, table, validation, &pin, offset),
        Err(fault) => pin_status_of(fault),
    }
}
