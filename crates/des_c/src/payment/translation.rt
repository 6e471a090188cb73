//! The exports of the translation of PIN blocks (ISO 9564-1). The PIN does not come out.

ghost use Rattle.std.specs.Prelude.{◌≡◌, ◌≢◌, replicate, Ok};
ghost use Rattle.std.specs.Result.{result_err};
ghost use Rattle.des_payment.specs.Translation.{translation_fault, IsTranslation, rekeying_fault, rekeyed};
ghost use Rattle.des_c.specs.Formats.{format_of as format_by};
ghost use Rattle.des_c.specs.TranslationStatuses.{status_of as status_of_fault};
ghost use Rattle.des_c.specs.Statuses.{status_after};

use des_context::status::{
    ERR_ACCOUNT_DIGIT, ERR_ACCOUNT_LENGTH, ERR_FILL, ERR_FORMATS, ERR_KEY_LENGTH, ERR_PIN_BLOCK, OK,
};
use des_payment::TranslationError;
use des_payment::translation::{Format, translate, translate_format_1};

fn status_of(fault: TranslationError) -> i32
    ensures status { result ≡ status_of_fault fault }
    ensures fault { result ≢ OK }
{
    match fault {
        TranslationError::KeyLength => ERR_KEY_LENGTH,
        TranslationError::Formats => ERR_FORMATS,
        TranslationError::AccountLength => ERR_ACCOUNT_LENGTH,
        TranslationError::AccountDigit => ERR_ACCOUNT_DIGIT,
        TranslationError::Fill => ERR_FILL,
        TranslationError::Block => ERR_PIN_BLOCK,
    }
}

// The format of a number. That of no format is taken for 2, from which there is no translation
// either.
fn format_of(number: u32) -> Format
    ensures { result ≡ format_by number }
{
    match number {
        0 => Format::Format0,
        1 => Format::Format1,
        3 => Format::Format3,
        _ => Format::Format2,
    }
}

// Writes the block that was made, if one was.
fn write_block(made: Result<[u8; 8], TranslationError>, block: &mut [u8; 8]) -> i32
    ensures status { result ≡ status_after status_of_fault (result_err made) }
    ensures block { result ≡ OK → made ≡ Ok block.new }
    ensures kept { result ≢ OK → block.new ≡ block.old }
{
    match made {
        Ok(made) => {
            *block = made;
            OK
        }
        Err(fault) => status_of(fault),
    }
}

/// Translates a PIN block of format 0, 1 or 3 that is encrypted under one key, of 8, 16 or 24
/// bytes, into the block of format 0 of the same PIN that is encrypted under another. The account
/// number, a text of 8 to 19 digits, is that of both. The status is that of the first fault, of the
/// keys, of the format, of the account number, and then `ERR_PIN_BLOCK`, whatever is wrong with the
/// block; and then `translated` is unchanged.
#[unsafe(no_mangle)]
pub extern "C" fn cukvashe_pin_translate_to_0(
    incoming: &[u8],
    format: u32,
    outgoing: &[u8],
    account: &[u8],
    block: &[u8; 8],
    translated: &mut [u8; 8],
) -> i32
    ensures status { result ≡ status_after status_of_fault
        (translation_fault incoming.now (format_by format) outgoing.now Format.Format0
        account.now (replicate 10 0) block.now) }
    ensures translated { result ≡ OK → IsTranslation incoming.now (format_by format)
        outgoing.now Format.Format0 account.now (replicate 10 0) block.now translated.new }
    ensures kept { result ≢ OK → translated.new ≡ translated.old }
{
    let from = format_of(format);
    let to = Format::Format0;
    let made = translate(incoming, from, outgoing, to, account, &[0; 10], block);
    write_block(made, translated)
}

/// Translates a PIN block of format 1 that is encrypted under one key, of 8, 16 or 24 bytes, into
/// the same block under another. The status is `ERR_KEY_LENGTH`, and then `ERR_PIN_BLOCK` if it is
/// no block of format 1; and then `translated` is unchanged.
#[unsafe(no_mangle)]
pub extern "C" fn cukvashe_pin_translate_to_1(
    incoming: &[u8],
    outgoing: &[u8],
    block: &[u8; 8],
    translated: &mut [u8; 8],
) -> i32
    ensures status { result ≡ status_after status_of_fault
        (rekeying_fault incoming.now outgoing.now block.now) }
    ensures translated { result ≡ OK
        → translated.new ≡ rekeyed incoming.now outgoing.now block.now }
    ensures kept { result ≢ OK → translated.new ≡ translated.old }
{
    write_block(translate_format_1(incoming, outgoing, block), translated)
}

/// As to format 0, into the block of format 3, of which `fill` has ten fill digits from 10 to 15:
/// the status is `ERR_FILL` after a fault of the account number.
#[unsafe(no_mangle)]
pub extern "C" fn cukvashe_pin_translate_to_3(
    incoming: &[u8],
    format: u32,
    outgoing: &[u8],
    account: &[u8],
    fill: &[u8; 10],
    block: &[u8; 8],
    translated: &mut [u8; 8],
) -> i32
    ensures status { result ≡ status_after status_of_fault
        (translation_fault incoming.now (format_by format) outgoing.now Format.Format3
        account.now fill.now block.now) }
    ensures translated { result ≡ OK → IsTranslation incoming.now (format_by format)
        outgoing.now Format.Format3 account.now fill.now block.now translated.new }
    ensures kept { result ≢ OK → translated.new ≡ translated.old }
{
    let from = format_of(format);
    let to = Format::Format3;
    let made = translate(incoming, from, outgoing, to, account, fill, block);
    write_block(made, translated)
}
