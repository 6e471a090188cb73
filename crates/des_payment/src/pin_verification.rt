//! PIN verification: the PIN verification value (PVV), and the method of the IBM 3624 with natural
//! PINs and offsets. A verification looks at every digit, and a wrong PIN is an error.

ghost use Rattle.std.specs.Prelude.{◌≡◌, ◌≢◌, ◌↔◌, ◌<◌, length, map, slice_index, nat_lt, IfOk, IsOk, IsTrue, None};
ghost use Rattle.std.specs.List.{list_all};
ghost use Rattle.std.specs.Result.{result_err};
ghost use Rattle.des_payment.specs.Digits.{digits_of as digits_in, bytes_of};
ghost use Rattle.des_payment.specs.Texts.{IsNumber, values};
ghost use Rattle.des_payment.specs.KeyLengths.{is_key as is_key_of};
ghost use Rattle.des_payment.specs.PinVerification.{pvv_text, pvv as pvv_of, pvv_fault, key_fault, natural_fault, natural_digits as natural_digits_of};
ghost use Rattle.des_payment.specs.PinVerification.{natural_pin as natural_pin_of, offset_between as offset_between_of, sum_of as sum_of_texts};
ghost use Rattle.des_payment.specs.PinVerification.{pin_offset as pin_offset_of, IsRight};

use crate::decimal_table::DecimalTable;
use crate::decimals::first_decimals;
use crate::digits::{block_of, digits_of};
use crate::passes::{encrypted_by, encrypted_by_ede2, is_key};
use crate::pin::Pin;
use crate::texts::{check_number, to_text, to_values};
use crate::verification_error::VerificationError;
use des_mac::mac::are_equal;

// The block of the digits that a PIN verification value is made of.
fn pvv_block(account: &[u8], index: u8, pin: &Pin) -> [u8; 8]
    requires account { IsNumber 12 19 account.now }
    requires index { index < 10 }
    ensures { result ≡ bytes_of (values (pvv_text account.now index pin.now)) }
{
    let mut text = [b'0'; 16];
    let (front, rest) = text.split_at_mut(11);
    front.copy_from_slice(&account[account.len() - 12..account.len() - 1]);
    rest[0] = index + b'0';
    let (_, back) = rest.split_at_mut(1);
    back.copy_from_slice(&pin.text()[..4]);
    to_values(&mut text);
    block_of(&text)
}

/// The PIN verification value (PVV), four ASCII digits, of a PIN and an account number, a text of
/// 12 to 19 digits with the check digit, under a key pair of 16 bytes with an index from 1 to 6.
/// `AccountLength`, `AccountDigit` and `KeyIndex` are its faults.
///
/// The eleven rightmost digits of the account number without its check digit, the index and the
/// first four digits of the PIN are a block, which is encrypted by triple DES in the EDE form. Of
/// the ciphertext's sixteen digits those from 0 to 9 are taken in order, and then the others in
/// order, less ten; the first four are the value.
pub fn pvv(
    key: &[u8; 16],
    account: &[u8],
    index: u8,
    pin: &Pin,
) -> Result<[u8; 4], VerificationError>
    ensures fault { result_err result ≡ pvv_fault account.now index }
    ensures value { IfOk result (λ value. value ≡ pvv_of key.now account.now index pin.now) }
{
    check_number(
        account,
        12,
        19,
        VerificationError::AccountLength,
        VerificationError::AccountDigit,
    )?;
    if !(1..=6).contains(&index) {
        return Err(VerificationError::KeyIndex);
    }
    let block = encrypted_by_ede2(key, &pvv_block(account, index, pin));
    let mut value = first_decimals(&digits_of(&block));
    to_text(&mut value);
    Ok(value)
}

// Accepts a text that is the right one, and no other.
fn check_equal(text: &[u8], right: &[u8]) -> Result<(), VerificationError>
    ensures right { IsOk result ↔ (text.now ≡ right.now) }
    ensures wrong { (result ≡ Err VerificationError.WrongPin) ↔ (text.now ≢ right.now) }
{
    if text.len() == right.len() && are_equal(text, right) {
        Ok(())
    } else {
        Err(VerificationError::WrongPin)
    }
}

/// Accepts the PIN verification value that `pvv` returns and no other: its faults, and then
/// `WrongPin` if the four characters are others. Every character is looked at, wherever the two
/// differ.
pub fn verify_pvv(
    key: &[u8; 16],
    account: &[u8],
    index: u8,
    pin: &Pin,
    value: &[u8; 4],
) -> Result<(), VerificationError>
    ensures fault { pvv_fault account.now index ≢ None
        → result_err result ≡ pvv_fault account.now index }
    ensures right { IsOk result ↔ ((pvv_fault account.now index ≡ None)
        × (value.now ≡ pvv_of key.now account.now index pin.now)) }
    ensures wrong { (result ≡ Err VerificationError.WrongPin)
        ↔ ((pvv_fault account.now index ≡ None)
        × (value.now ≢ pvv_of key.now account.now index pin.now)) }
{
    check_equal(value, &pvv(key, account, index, pin)?)
}

// What the digits of a block become by a table.
fn decimals_of(table: &DecimalTable, block: &[u8; 8]) -> [u8; 16]
    ensures digits { result ≡ map (slice_index table.now) (digits_in block.now) }
    ensures decimal { IsTrue (list_all (λ digit. nat_lt digit 10) result) }
{
    table.decimalized(&digits_of(block))
}

// The sixteen digits of which natural PINs are the first.
fn natural_digits(key: &[u8], table: &DecimalTable, validation: &[u8; 8]) -> [u8; 16]
    requires { IsTrue (is_key_of key.now) }
    ensures digits { result ≡ natural_digits_of key.now table.now validation.now }
    ensures decimal { IsTrue (list_all (λ digit. nat_lt digit 10) result) }
{
    decimals_of(table, &encrypted_by(key, validation))
}

/// The natural PIN of 4 to 12 digits of validation data, sixteen digits of four bits in eight
/// bytes: they are encrypted under a key of 8, 16 or 24 bytes, by DES or triple DES in the EDE
/// form, each digit of the ciphertext becomes that of the table, and the first `count` are the
/// natural PIN. Its faults are `KeyLength` and `PinLength`.
pub fn natural_pin(
    key: &[u8],
    table: &DecimalTable,
    validation: &[u8; 8],
    count: usize,
) -> Result<Pin, VerificationError>
    ensures fault { result_err result ≡ natural_fault key.now count }
    ensures pin { IfOk result (λ pin.
        pin ≡ natural_pin_of key.now table.now validation.now count) }
    ensures long { IfOk result (λ pin. length pin ≡ count) }
{
    if !is_key(key) {
        return Err(VerificationError::KeyLength);
    }
    if !(4..=12).contains(&count) {
        return Err(VerificationError::PinLength);
    }
    Ok(Pin::of_digits(&natural_digits(key, table, validation)[..count]))
}

// Digit by digit, modulo ten, a PIN less the natural PIN.
fn offset_between(natural: &Pin, pin: &Pin) -> Pin
    requires { length natural.now ≡ length pin.now }
    ensures { result ≡ offset_between_of natural.now pin.now }
{
    let known = natural.text();
    let text = pin.text();
    let mut digits = [0; 12];
    'places: for i in 0..text.len() {
        digits[i] = (text[i] + 10 - known[i]) % 10;
    }
    Pin::of_digits(&digits[..text.len()])
}

// Digit by digit, modulo ten, the sum of the natural PIN and an offset.
fn sum_of(natural: &Pin, offset: &Pin) -> Pin
    requires { length natural.now ≡ length offset.now }
    ensures { result ≡ sum_of_texts natural.now offset.now }
{
    let known = natural.text();
    let text = offset.text();
    let mut digits = [0; 12];
    'places: for i in 0..text.len() {
        digits[i] = (known[i] - b'0' + (text[i] - b'0')) % 10;
    }
    Pin::of_digits(&digits[..text.len()])
}

/// The offset of a PIN: digit by digit, modulo ten, the PIN less the natural PIN of as many digits
/// that `natural_pin` returns. It has a PIN's form, and `KeyLength` is its fault.
pub fn pin_offset(
    key: &[u8],
    table: &DecimalTable,
    validation: &[u8; 8],
    pin: &Pin,
) -> Result<Pin, VerificationError>
    ensures fault { result_err result ≡ key_fault key.now }
    ensures offset { IfOk result (λ offset.
        offset ≡ pin_offset_of key.now table.now validation.now pin.now) }
{
    let natural = natural_pin(key, table, validation, pin.text().len())?;
    Ok(offset_between(&natural, pin))
}

/// Accepts the PIN that is the sum of an offset and the natural PIN of as many digits, digit by
/// digit, modulo ten, and no other: `KeyLength`, and then `WrongPin` if it is another, or has
/// another length. Every digit is looked at, wherever the two differ.
pub fn verify_offset(
    key: &[u8],
    table: &DecimalTable,
    validation: &[u8; 8],
    pin: &Pin,
    offset: &Pin,
) -> Result<(), VerificationError>
    ensures fault { key_fault key.now ≢ None → result_err result ≡ key_fault key.now }
    ensures right { IsOk result ↔ ((key_fault key.now ≡ None)
        × IsRight key.now table.now validation.now offset.now pin.now) }
    ensures wrong { (result ≡ Err VerificationError.WrongPin) ↔ ((key_fault key.now ≡ None)
        × ¬ (IsRight key.now table.now validation.now offset.now pin.now)) }
{
    let natural = natural_pin(key, table, validation, offset.text().len())?;
    let right = sum_of(&natural, offset);
    check_equal(pin.text(), right.text())
}
