//! PIN blocks (ISO 9564-1): a PIN in eight bytes, sixteen digits of four bits, in formats 0 to 3.
//!
//! A block is not encrypted here: that is one call of a cipher.

ghost use Rattle.std.specs.Prelude.{◌≡◌, ◌↔◌, ℕ, List, Ok, IfOk};
ghost use Rattle.std.specs.Result.{result_err};
ghost use Rattle.std.specs.Option.{option_or};
ghost use Rattle.des.specs.Cbc.{xor_blocks};
ghost use Rattle.des.specs.Relations.{IsTheOne};
ghost use Rattle.des_payment.specs.Digits.{digits_of as digits_in};
ghost use Rattle.des_payment.specs.PinBlocks.{account_field as account_field_of, IsFormat0, IsFormat1, IsFormat2, IsFormat3, account_fault};
ghost use Rattle.des_payment.specs.PinBlocks.{fill_fault, field_fault};

use crate::digits::{block_of, digits_of};
use crate::fields::{account_field, are_fill, pin_field, read_pin};
use crate::pin::Pin;
use crate::pin_error::PinError;
use crate::xor::xored;

/// The block of format 0 of a PIN and an account number (PAN), a text of 8 to 19 digits with the
/// check digit: the PIN's digits are filled with 15, and xored with the twelve rightmost digits of
/// the account number without its check digit. `AccountLength` and `AccountDigit` are its faults.
pub fn encode_format_0(pin: &Pin, account: &[u8]) -> Result<[u8; 8], PinError>
    ensures fault { result_err result ≡ account_fault account.now }
    ensures block { IfOk result (IsTheOne (IsFormat0 pin.now account.now)) }
{
    let account = account_field(account)?;
    Ok(block_of(&xored(&pin_field(0, pin, &[15; 10]), &account)))
}

/// The PIN of a block of format 0 and an account number. Its faults are first `AccountLength` and
/// `AccountDigit`, and then `Format`, `PinLength`, `PinDigit` and `Fill`.
pub fn decode_format_0(block: &[u8; 8], account: &[u8]) -> Result<Pin, PinError>
    ensures fault { result_err result ≡ option_or (account_fault account.now)
        (field_fault 0 15 (xor_blocks (digits_in block.now) (account_field_of account.now))) }
    ensures decoded { (pin : List ℕ) → (result ≡ Ok pin) ↔ IsFormat0 pin account.now block.now }
{
    let account = account_field(account)?;
    read_pin(0, 15, &xored(&digits_of(block), &account))
}

/// The block of format 1 of a PIN and of transaction digits from 0 to 15, of which it takes as many
/// of the first as make sixteen digits; `Fill` if one of the ten is above 15.
pub fn encode_format_1(pin: &Pin, transaction: &[u8; 10]) -> Result<[u8; 8], PinError>
    ensures fault { result_err result ≡ fill_fault 0 transaction.now }
    ensures block { IfOk result (IsTheOne (IsFormat1 pin.now transaction.now)) }
{
    if !are_fill(0, transaction) {
        return Err(PinError::Fill);
    }
    Ok(block_of(&pin_field(1, pin, transaction)))
}

/// The PIN of a block of format 1. Its faults are `Format`, `PinLength` and `PinDigit`.
pub fn decode_format_1(block: &[u8; 8]) -> Result<Pin, PinError>
    ensures fault { result_err result ≡ field_fault 1 0 (digits_in block.now) }
    ensures decoded { (pin : List ℕ) → (result ≡ Ok pin)
        ↔ ((transaction : List ℕ) × IsFormat1 pin transaction block.now) }
{
    read_pin(1, 0, &digits_of(block))
}

/// The block of format 2 of a PIN, for a card: the PIN's digits are filled with 15. It goes to the
/// card as it is, and a host does not encrypt it as a block.
pub fn encode_format_2(pin: &Pin) -> [u8; 8]
    ensures { IsTheOne (IsFormat2 pin.now) result }
{
    block_of(&pin_field(2, pin, &[15; 10]))
}

/// The PIN of a block of format 2. Its faults are `Format`, `PinLength`, `PinDigit` and `Fill`.
pub fn decode_format_2(block: &[u8; 8]) -> Result<Pin, PinError>
    ensures fault { result_err result ≡ field_fault 2 15 (digits_in block.now) }
    ensures decoded { (pin : List ℕ) → (result ≡ Ok pin) ↔ IsFormat2 pin block.now }
{
    read_pin(2, 15, &digits_of(block))
}

/// The block of format 3 of a PIN, an account number, a text of 8 to 19 digits with the check
/// digit, and fill digits from 10 to 15, of which it takes as many of the first as make sixteen
/// digits: it is made as that of format 0. Its faults are `AccountLength` and `AccountDigit`, and
/// `Fill` if one of the ten is none of 10 to 15.
pub fn encode_format_3(pin: &Pin, account: &[u8], fill: &[u8; 10]) -> Result<[u8; 8], PinError>
    ensures fault { result_err result
        ≡ option_or (account_fault account.now) (fill_fault 10 fill.now) }
    ensures block { IfOk result (IsTheOne (IsFormat3 pin.now account.now fill.now)) }
{
    let account = account_field(account)?;
    if !are_fill(10, fill) {
        return Err(PinError::Fill);
    }
    Ok(block_of(&xored(&pin_field(3, pin, fill), &account)))
}

/// The PIN of a block of format 3 and an account number. Its faults are first `AccountLength` and
/// `AccountDigit`, and then `Format`, `PinLength`, `PinDigit` and `Fill`.
pub fn decode_format_3(block: &[u8; 8], account: &[u8]) -> Result<Pin, PinError>
    ensures fault { result_err result ≡ option_or (account_fault account.now)
        (field_fault 3 10 (xor_blocks (digits_in block.now) (account_field_of account.now))) }
    ensures decoded { (pin : List ℕ) → (result ≡ Ok pin)
        ↔ ((fill : List ℕ) × IsFormat3 pin account.now fill block.now) }
{
    let account = account_field(account)?;
    read_pin(3, 10, &xored(&digits_of(block), &account))
}
