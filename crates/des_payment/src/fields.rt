//! The fields of PIN blocks: sixteen digits of four bits each.

ghost use Rattle.std.specs.Prelude.{◌≡◌, ◌↔◌, ◌<◌, ◌≤◌, ◌==◌, ◌&&◌, take, drop, slice_index, nat_lt, nat_le, None, IfOk, OnOk, IsTrue};
ghost use Rattle.std.specs.List.{All, list_all};
ghost use Rattle.std.specs.Result.{result_err};
ghost use Rattle.des_payment.specs.Texts.{IsPin, IsAccountNumber, text_of};
ghost use Rattle.des_payment.specs.PinBlocks.{pin_field as pin_field_of, account_field as account_field_of, account_fault, is_fill};
ghost use Rattle.des_payment.specs.PinBlocks.{field_fault, pin_digits, fill_digits};

use crate::filling::{filled, first_or_zeros};
use crate::masks::chosen;
use crate::pin::Pin;
use crate::pin_error::PinError;
use crate::texts::{check_number, to_values};

// The PIN field of a format.
pub(crate) fn pin_field(format: u8, pin: &Pin, fill: &[u8; 10]) -> [u8; 16]
    requires { All (λ digit. digit < 16) fill.now }
    ensures is_pin { IsPin pin.now }
    ensures field { result ≡ pin_field_of format pin.now fill.now }
{
    let count = pin.count();
    let mut field = [0; 16];
    field[0] = format;
    field[1] = count as u8;
    field[2..].copy_from_slice(&filled(count, &pin.values(), fill));
    field
}

// The account field of an account number: zeros stand at the left of its digits.
pub(crate) fn account_field(account: &[u8]) -> Result<[u8; 16], PinError>
    ensures fault { result_err result ≡ account_fault account.now }
    ensures number { OnOk result (IsAccountNumber account.now) }
    ensures field { IfOk result (λ field. field ≡ account_field_of account.now) }
{
    check_number(
        account,
        8,
        19,
        PinError::AccountLength,
        PinError::AccountDigit,
    )?;
    let digits = &account[..account.len() - 1];
    let last = &digits[digits.len().saturating_sub(12)..];
    let mut field = [0; 16];
    let (_, back) = field.split_at_mut(16 - last.len());
    back.copy_from_slice(last);
    to_values(back);
    Ok(field)
}

// Whether the first `count` digits are decimal. Every digit is examined.
fn are_decimal(count: usize, digits: &[u8]) -> bool
    ensures { result ≡ list_all (λ digit. nat_lt digit 10) (take count digits.now) }
{
    let mut all = true;
    for (k, digit) in digits.iter().enumerate() {
        all &= (count <= k) | (*digit < 10);
    }
    all
}

// Whether the digits after the first `count` are fill digits, from `least` to 15. Every digit is
// examined.
fn are_fill_after(count: usize, least: u8, digits: &[u8]) -> bool
    ensures { result ≡ list_all (is_fill least) (drop count digits.now) }
{
    let mut all = true;
    for (k, digit) in digits.iter().enumerate() {
        all &= (k < count) | ((least <= *digit) & (*digit <= 15));
    }
    all
}

// Whether they are all fill digits.
pub(crate) fn are_fill(least: u8, digits: &[u8]) -> bool
    ensures { result ≡ list_all (is_fill least) digits.now }
{
    are_fill_after(0, least, digits)
}

// The results of the tests whether sixteen digits are a PIN field.
#[derive(Clone, Copy)]
struct Tests {
    is_format: bool,
    is_length: bool,
    are_decimal: bool,
    are_fill: bool,
}

// The tests of a format that has fill digits from a least one to 15.
fn tests_of(format: u8, least: u8, field: &[u8; 16]) -> Tests
    ensures format { result.is_format ≡ (slice_index field.now 0 == format) }
    ensures length { result.is_length
        ≡ (nat_le 4 (slice_index field.now 1) && nat_le (slice_index field.now 1) 12) }
    ensures decimal { result.are_decimal
        ≡ list_all (λ digit. nat_lt digit 10) (pin_digits field.now) }
    ensures fill { result.are_fill ≡ list_all (is_fill least) (fill_digits field.now) }
{
    let count = field[1];
    Tests {
        is_format: field[0] == format,
        is_length: (4 <= count) & (count <= 12),
        are_decimal: are_decimal(count as usize, &field[2..]),
        are_fill: are_fill_after(count as usize, least, &field[2..]),
    }
}

// Whether all are passed.
fn are_passed(tests: Tests) -> bool
    ensures { result
        ≡ (tests.is_format && tests.is_length && tests.are_decimal && tests.are_fill) }
{
    tests.is_format & tests.is_length & tests.are_decimal & tests.are_fill
}

// The PIN of a PIN field, or four zeros. Every digit is written.
fn pin_or_zeros(is_right: bool, field: &[u8; 16]) -> Pin
    requires at_least { IsTrue is_right → 4 ≤ slice_index field.now 1 }
    requires at_most { IsTrue is_right → slice_index field.now 1 ≤ 12 }
    requires digits { IsTrue is_right
        → IsTrue (list_all (λ digit. nat_lt digit 10) (pin_digits field.now)) }
    ensures { IsTrue is_right → result ≡ text_of (pin_digits field.now) }
{
    let count = chosen(is_right, field[1], 4) as usize;
    let taken = chosen(is_right, field[1], 0) as usize;
    Pin::of_first(count, &first_or_zeros(taken, &field[2..14]))
}

// Whether the digits are a PIN field of a format that has fill digits from a least one to 15.
pub(crate) fn is_pin_field(format: u8, least: u8, field: &[u8; 16]) -> bool
    ensures { IsTrue result ↔ (field_fault format least field.now ≡ None) }
{
    are_passed(tests_of(format, least, field))
}

// Whether the digits are such a field, and its PIN, or four zeros if they aren't.
pub(crate) fn read_or_zeros(format: u8, least: u8, field: &[u8; 16]) -> (bool, Pin)
    ensures right { IsTrue result.0 ↔ (field_fault format least field.now ≡ None) }
    ensures pin { IsTrue result.0 → result.1 ≡ text_of (pin_digits field.now) }
{
    let is_right = are_passed(tests_of(format, least, field));
    (is_right, pin_or_zeros(is_right, field))
}

// The PIN of a PIN field of a format that has fill digits from a least one to 15. Its fault is
// reported after each digit was looked at.
pub(crate) fn read_pin(format: u8, least: u8, field: &[u8; 16]) -> Result<Pin, PinError>
    ensures fault { result_err result ≡ field_fault format least field.now }
    ensures pin { IfOk result (λ pin. pin ≡ text_of (pin_digits field.now)) }
{
    let tests = tests_of(format, least, field);
    let pin = pin_or_zeros(are_passed(tests), field);
    if !tests.is_format {
        return Err(PinError::Format);
    }
    if !tests.is_length {
        return Err(PinError::PinLength);
    }
    if !tests.are_decimal {
        return Err(PinError::PinDigit);
    }
    if !tests.are_fill {
        return Err(PinError::Fill);
    }
    Ok(pin)
}
