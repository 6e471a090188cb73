//! Translation of PIN blocks (ISO 9564-1): from one key to another, and from one format to another.
//! The PIN does not come out.

ghost use Rattle.std.specs.Prelude.{◌≡◌, ◌↔◌, ℕ, List, None, IfOk, OnOk, IsTrue};
ghost use Rattle.std.specs.Option.{option_or};
ghost use Rattle.std.specs.Result.{result_err};
ghost use Rattle.des.specs.Cbc.{xor_blocks};
ghost use Rattle.des_payment.specs.Digits.{digits_of as digits_in};
ghost use Rattle.des_payment.specs.Texts.{IsAccountNumber};
ghost use Rattle.des_payment.specs.PinBlocks.{account_field as account_field_of};
ghost use Rattle.des_payment.specs.KeyLengths.{is_key as is_key_of};
ghost use Rattle.des_payment.specs.Translation.{is_origin as is_origin_of, is_target as is_target_of, IsIn, block_fault, IsTranslation, request_fault, fill_fault};
ghost use Rattle.des_payment.specs.Translation.{translation_fault, key_fault, rekeying_fault, rekeyed};

use crate::digits::digits_of;
use crate::fields::{account_field, are_fill, is_pin_field, read_or_zeros};
use crate::passes::{decrypted_by, encrypted_by, is_key};
use crate::pin::Pin;
use crate::pin_blocks::{encode_format_0, encode_format_3};
use crate::texts::check_number;
use crate::translation_error::TranslationError;
use crate::xor::xored;

/// A format of PIN blocks.
#[derive(Clone, Copy, Debug, PartialEq, Eq)]
pub enum Format {
    /// With an account number.
    Format0,
    /// With transaction digits.
    Format1,
    /// For a card, in clear.
    Format2,
    /// With an account number and fill digits.
    Format3,
}

// Whether a block of this format is translated.
fn is_origin(format: Format) -> bool
    ensures { result ≡ is_origin_of format }
{
    match format {
        Format::Format0 => true,
        Format::Format1 => true,
        Format::Format2 => false,
        Format::Format3 => true,
    }
}

// Whether a block is translated into this format.
fn is_target(format: Format) -> bool
    ensures { result ≡ is_target_of format }
{
    match format {
        Format::Format0 => true,
        Format::Format1 => false,
        Format::Format2 => false,
        Format::Format3 => true,
    }
}

// Whether these are fill digits, if the format has any.
fn check_fill(format: Format, fill: &[u8; 10]) -> Result<(), TranslationError>
    ensures fault { result_err result ≡ fill_fault format fill.now }
{
    match format {
        Format::Format3 => {
            if !are_fill(10, fill) {
                return Err(TranslationError::Fill);
            }
            Ok(())
        }
        Format::Format0 => Ok(()),
        Format::Format1 => Ok(()),
        Format::Format2 => Ok(()),
    }
}

// Whether the keys have one part, two or three.
fn check_keys(incoming: &[u8], outgoing: &[u8]) -> Result<(), TranslationError>
    ensures fault { result_err result ≡ option_or (key_fault incoming.now) (key_fault outgoing.now) }
    ensures incoming { OnOk result (IsTrue (is_key_of incoming.now)) }
    ensures outgoing { OnOk result (IsTrue (is_key_of outgoing.now)) }
{
    if !is_key(incoming) || !is_key(outgoing) {
        return Err(TranslationError::KeyLength);
    }
    Ok(())
}

// The first fault of what is asked for, if it has one.
fn check_request(
    incoming: &[u8],
    from: Format,
    outgoing: &[u8],
    to: Format,
    account: &[u8],
    fill: &[u8; 10],
) -> Result<(), TranslationError>
    ensures fault { result_err result
        ≡ request_fault incoming.now from outgoing.now to account.now fill.now }
    ensures incoming { OnOk result (IsTrue (is_key_of incoming.now)) }
    ensures outgoing { OnOk result (IsTrue (is_key_of outgoing.now)) }
    ensures target { OnOk result (IsTrue (is_target_of to)) }
    ensures account { OnOk result (IsAccountNumber account.now) }
    ensures fill { OnOk result (fill_fault to fill.now ≡ None) }
{
    check_keys(incoming, outgoing)?;
    if !is_origin(from) || !is_target(to) {
        return Err(TranslationError::Formats);
    }
    check_number(
        account,
        8,
        19,
        TranslationError::AccountLength,
        TranslationError::AccountDigit,
    )?;
    check_fill(to, fill)
}

// The digits of a block after the xor with the account field.
fn unbound(block: &[u8; 8], account: &[u8]) -> [u8; 16]
    requires { IsAccountNumber account.now }
    ensures { result ≡ xor_blocks (digits_in block.now) (account_field_of account.now) }
{
    xored(&digits_of(block), &account_field(account).unwrap())
}

// Whether a block in clear is one of a PIN in this format, and the PIN, or four zeros.
fn decoded(format: Format, block: &[u8; 8], account: &[u8]) -> (bool, Pin)
    requires { IsAccountNumber account.now }
    ensures right { IsTrue result.0 ↔ (block_fault format account.now block.now ≡ None) }
    ensures pin { IsTrue result.0
        → ((fill : List ℕ) × IsIn format result.1 account.now fill block.now) }
{
    match format {
        Format::Format0 => read_or_zeros(0, 15, &unbound(block, account)),
        Format::Format1 => read_or_zeros(1, 0, &digits_of(block)),
        Format::Format2 => read_or_zeros(2, 15, &digits_of(block)),
        Format::Format3 => read_or_zeros(3, 10, &unbound(block, account)),
    }
}

// The block in clear of a PIN.
fn encoded(format: Format, pin: &Pin, account: &[u8], fill: &[u8; 10]) -> [u8; 8]
    requires target { IsTrue (is_target_of format) }
    requires account { IsAccountNumber account.now }
    requires fill { fill_fault format fill.now ≡ None }
    ensures { IsIn format pin.now account.now fill.now result }
{
    match format {
        Format::Format3 => encode_format_3(pin, account, fill).unwrap(),
        _ => encode_format_0(pin, account).unwrap(),
    }
}

/// Translates a PIN block that is encrypted under one key, of 8, 16 or 24 bytes, into the block of
/// the same PIN that is encrypted under another: by DES, or by triple DES in the EDE form.
///
/// It goes from the formats 0, 1 and 3 to the formats 0 and 3; for 1 to 1 there is
/// `translate_format_1`. The account number, a text of 8 to 19 digits with the check digit, is that
/// of both blocks, and the fill digits are those of an outgoing block of format 3. The faults are
/// `KeyLength`, `Formats`, `AccountLength`, `AccountDigit` and `Fill`, and then `Block`, whatever
/// is wrong with the block: it is reported last, after a block was encrypted all the same.
pub fn translate(
    incoming: &[u8],
    from: Format,
    outgoing: &[u8],
    to: Format,
    account: &[u8],
    fill: &[u8; 10],
    block: &[u8; 8],
) -> Result<[u8; 8], TranslationError>
    ensures fault { result_err result ≡ translation_fault incoming.now from outgoing.now to
        account.now fill.now block.now }
    ensures translated { IfOk result (IsTranslation incoming.now from outgoing.now to account.now
        fill.now block.now) }
{
    check_request(incoming, from, outgoing, to, account, fill)?;
    let (is_right, pin) = decoded(from, &decrypted_by(incoming, block), account);
    let translated = encrypted_by(outgoing, &encoded(to, &pin, account, fill));
    if is_right {
        Ok(translated)
    } else {
        Err(TranslationError::Block)
    }
}

/// Translates a PIN block of format 1 that is encrypted under one key, of 8, 16 or 24 bytes, into
/// the same block under another: by DES, or by triple DES in the EDE form. The transaction digits,
/// whatever they are, do not change, and there is no account number. The faults are `KeyLength`,
/// and then `Block`, which is reported last, as by `translate`.
pub fn translate_format_1(
    incoming: &[u8],
    outgoing: &[u8],
    block: &[u8; 8],
) -> Result<[u8; 8], TranslationError>
    ensures fault { result_err result ≡ rekeying_fault incoming.now outgoing.now block.now }
    ensures translated { IfOk result (λ translated. translated ≡ rekeyed incoming.now outgoing.now block.now) }
{
    check_keys(incoming, outgoing)?;
    let clear = decrypted_by(incoming, block);
    let is_right = is_pin_field(1, 0, &digits_of(&clear));
    let translated = encrypted_by(outgoing, &clear);
    if is_right {
        Ok(translated)
    } else {
        Err(TranslationError::Block)
    }
}
