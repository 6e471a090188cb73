//! Card verification values (CVV): three digits of a card's data under a key.

ghost use Rattle.std.specs.Prelude.{◌≡◌, take, OnOk, IfOk, IsTrue};
ghost use Rattle.std.specs.Result.{result_err};
ghost use Rattle.des.specs.Blocks.{IsBlock};
ghost use Rattle.des_payment.specs.Digits.{digits_of as digits_in};
ghost use Rattle.des_payment.specs.Texts.{are_digits as are_digits_of, text_of, IsNumber};
ghost use Rattle.des_payment.specs.CardVerification.{card_text as card_text_of, card_block as card_block_of, decimals_first};
ghost use Rattle.des_payment.specs.CardVerification.{first_block as first_block_of, second_block as second_block_of, verification_value, card_fault};

use crate::cvv_error::CvvError;
use crate::decimals::first_decimals;
use crate::digits::{block_of, digits_of};
use crate::passes::{encrypted_by_des, encrypted_by_ede2};
use crate::texts::{check_number, to_text, to_values};
use crate::xor::xored;
use des::tdes::key_part;

// The data of a card: the first fault, if they have one.
fn check_card(account: &[u8], expiry: &[u8], service: &[u8]) -> Result<(), CvvError>
    ensures fault { result_err result ≡ card_fault account.now expiry.now service.now }
    ensures account { OnOk result (IsNumber 12 19 account.now) }
    ensures expiry { OnOk result (IsNumber 4 4 expiry.now) }
    ensures service { OnOk result (IsNumber 3 3 service.now) }
{
    check_number(
        account,
        12,
        19,
        CvvError::AccountLength,
        CvvError::AccountDigit,
    )?;
    check_number(expiry, 4, 4, CvvError::ExpiryLength, CvvError::ExpiryDigit)?;
    check_number(
        service,
        3,
        3,
        CvvError::ServiceLength,
        CvvError::ServiceDigit,
    )
}

// The data of a card, filled with zeros to 32 digits.
fn card_text(account: &[u8], expiry: &[u8], service: &[u8]) -> [u8; 32]
    requires account { IsNumber 12 19 account.now }
    requires expiry { IsNumber 4 4 expiry.now }
    requires service { IsNumber 3 3 service.now }
    ensures text { result ≡ card_text_of account.now expiry.now service.now }
    ensures digits { IsTrue (are_digits_of result) }
{
    let mut text = [b'0'; 32];
    let (front, rest) = text.split_at_mut(account.len());
    front.copy_from_slice(account);
    let (front, rest) = rest.split_at_mut(4);
    front.copy_from_slice(expiry);
    let (front, _) = rest.split_at_mut(3);
    front.copy_from_slice(service);
    text
}

// The first of the two blocks of the data.
fn first_block(text: &[u8; 32]) -> [u8; 8]
    requires { IsTrue (are_digits_of text.now) }
    ensures { result ≡ first_block_of text.now }
{
    let mut digits = *text;
    to_values(&mut digits);
    block_of(&digits[..16])
}

// The second of them.
fn second_block(text: &[u8; 32]) -> [u8; 8]
    requires { IsTrue (are_digits_of text.now) }
    ensures { result ≡ second_block_of text.now }
{
    let mut digits = *text;
    to_values(&mut digits);
    block_of(&digits[16..])
}

// The block whose digits the card verification value is taken from.
fn card_block(key: &[u8; 16], text: &[u8; 32]) -> [u8; 8]
    requires { IsTrue (are_digits_of text.now) }
    ensures block { IsBlock result }
    ensures made { result ≡ card_block_of key.now text.now }
{
    let first = encrypted_by_des(&key_part(key, 1), &first_block(text));
    encrypted_by_ede2(key, &xored(&first, &second_block(text)))
}

// The value that is taken from a block's digits.
fn value_of(block: &[u8; 8]) -> [u8; 3]
    ensures { result ≡ text_of (take 3 (decimals_first (digits_in block.now))) }
{
    let mut value = first_decimals(&digits_of(block));
    to_text(&mut value);
    value
}

/// The card verification value, three ASCII digits, of an account number of 12 to 19 digits with
/// the check digit, an expiry date of four and a service code of three, under a key pair of 16
/// bytes.
///
/// The data are joined and filled with zeros to 32 digits, two blocks. The first is enciphered
/// under the first part of the key and xored with the second, and triple DES in the EDE form
/// follows, under both parts. Of the ciphertext's sixteen digits those from 0 to 9 are taken in
/// order, and then the others in order, less ten; the first three are the value.
pub fn cvv(
    key: &[u8; 16],
    account: &[u8],
    expiry: &[u8],
    service: &[u8],
) -> Result<[u8; 3], CvvError>
    ensures fault { result_err result ≡ card_fault account.now expiry.now service.now }
    ensures value { IfOk result (λ value.
        value ≡ verification_value key.now account.now expiry.now service.now) }
{
    check_card(account, expiry, service)?;
    let text = card_text(account, expiry, service);
    Ok(value_of(&card_block(key, &text)))
}
