//! The exports of PIN blocks (ISO 9564-1).

ghost use Rattle.std.specs.Prelude.{◌≡◌, ◌≢◌, ℕ, List, Ok};
ghost use Rattle.std.specs.Option.{option_or};
ghost use Rattle.std.specs.Result.{result_err};
ghost use Rattle.des.specs.Cbc.{xor_blocks};
ghost use Rattle.des.specs.Relations.{IsTheOne};
ghost use Rattle.des_payment.specs.Digits.{digits_of as digits_in};
ghost use Rattle.des_payment.specs.PinBlocks.{account_field, IsFormat0, IsFormat1, IsFormat2, IsFormat3};
ghost use Rattle.des_payment.specs.PinBlocks.{pin_fault, account_fault, fill_fault, field_fault};
ghost use Rattle.des_c.specs.PinStatuses.{status_of as status_of_fault};
ghost use Rattle.des_c.specs.Statuses.{status_after};
ghost use Rattle.des_c.specs.Texts.{with_zeros};

use super::put;
use des_context::status::{
    ERR_ACCOUNT_DIGIT, ERR_ACCOUNT_LENGTH, ERR_FILL, ERR_FORMAT, ERR_PIN_DIGIT, ERR_PIN_LENGTH, OK,
};
use des_payment::pin_blocks::{
    decode_format_0, decode_format_1, decode_format_2, decode_format_3, encode_format_0,
    encode_format_1, encode_format_2, encode_format_3,
};
use des_payment::{Pin, PinError};

pub(crate) fn status_of(fault: PinError) -> i32
    ensures status { result ≡ status_of_fault fault }
    ensures fault { result ≢ OK }
{
    match fault {
        PinError::Format => ERR_FORMAT,
        PinError::PinLength => ERR_PIN_LENGTH,
        PinError::PinDigit => ERR_PIN_DIGIT,
        PinError::AccountLength => ERR_ACCOUNT_LENGTH,
        PinError::AccountDigit => ERR_ACCOUNT_DIGIT,
        PinError::Fill => ERR_FILL,
    }
}

// Writes the block that was made, if one was.
fn write_block(made: Result<[u8; 8], PinError>, block: &mut [u8; 8]) -> i32
    ensures status { result ≡ status_after status_of_fault (result_err made) }
    ensures block { result ≡ OK → made ≡ Ok block.new }
    ensures kept { result ≢ OK → block.new ≡ block.old }
{
    match made {
        Ok(made) => {
            *block = made;
            OK
        }
        Err(fault) => status_of(fault),
    }
}

// Writes the PIN that was read, if one was.
fn write_pin(read: Result<Pin, PinError>, pin: &mut [u8; 13]) -> i32
    ensures status { result ≡ status_after status_of_fault (result_err read) }
    ensures pin { result ≡ OK
        → (text : List ℕ) × (read ≡ Ok text) × (pin.new ≡ with_zeros 13 text) }
    ensures complete { (text : List ℕ) → read ≡ Ok text
        → (result ≡ OK) × (pin.new ≡ with_zeros 13 text) }
    ensures kept { result ≢ OK → pin.new ≡ pin.old }
{
    match read {
        Ok(read) => {
            put(read.text(), pin);
            OK
        }
        Err(fault) => status_of(fault),
    }
}

/// Writes the block of format 0 of a PIN of 4 to 12 digits and an account number of 8 to 19, both
/// texts of ASCII digits. The status is that of the first fault, of the PIN (`ERR_PIN_LENGTH`,
/// `ERR_PIN_DIGIT`) and then of the account number (`ERR_ACCOUNT_LENGTH`, `ERR_ACCOUNT_DIGIT`), and
/// then `block` is unchanged.
#[unsafe(no_mangle)]
pub extern "C" fn cukvashe_pin_encode_0(pin: &[u8], account: &[u8], block: &mut [u8; 8]) -> i32
    ensures status { result ≡ status_after status_of_fault
        (option_or (pin_fault pin.now) (account_fault account.now)) }
    ensures block { result ≡ OK → IsTheOne (IsFormat0 pin.now account.now) block.new }
    ensures kept { result ≢ OK → block.new ≡ block.old }
{
    match Pin::new(pin) {
        Ok(pin) => write_block(encode_format_0(&pin, account), block),
        Err(fault) => status_of(fault),
    }
}

/// Writes the block of format 1 of a PIN of 4 to 12 ASCII digits and ten transaction digits from 0
/// to 15. The status is that of the first fault, of the PIN and then of the transaction digits
/// (`ERR_FILL`), and then `block` is unchanged.
#[unsafe(no_mangle)]
pub extern "C" fn cukvashe_pin_encode_1(
    pin: &[u8],
    transaction: &[u8; 10],
    block: &mut [u8; 8],
) -> i32
    ensures status { result ≡ status_after status_of_fault
        (option_or (pin_fault pin.now) (fill_fault 0 transaction.now)) }
    ensures block { result ≡ OK
        → IsTheOne (IsFormat1 pin.now transaction.now) block.new }
    ensures kept { result ≢ OK → block.new ≡ block.old }
{
    match Pin::new(pin) {
        Ok(pin) => write_block(encode_format_1(&pin, transaction), block),
        Err(fault) => status_of(fault),
    }
}

/// Writes the block of format 2 of a PIN of 4 to 12 ASCII digits, for a card. The status is that of
/// the PIN's fault, and then `block` is unchanged.
#[unsafe(no_mangle)]
pub extern "C" fn cukvashe_pin_encode_2(pin: &[u8], block: &mut [u8; 8]) -> i32
    ensures status { result ≡ status_after status_of_fault (pin_fault pin.now) }
    ensures block { result ≡ OK → IsTheOne (IsFormat2 pin.now) block.new }
    ensures kept { result ≢ OK → block.new ≡ block.old }
{
    match Pin::new(pin) {
        Ok(pin) => write_block(Ok(encode_format_2(&pin)), block),
        Err(fault) => status_of(fault),
    }
}

/// Writes the block of format 3 of a PIN, an account number, as in format 0, and ten fill digits
/// from 10 to 15. The status is that of the first fault, of the PIN, of the account number and then
/// of the fill digits (`ERR_FILL`), and then `block` is unchanged.
#[unsafe(no_mangle)]
pub extern "C" fn cukvashe_pin_encode_3(
    pin: &[u8],
    account: &[u8],
    fill: &[u8; 10],
    block: &mut [u8; 8],
) -> i32
    ensures status { result ≡ status_after status_of_fault
        (option_or (pin_fault pin.now)
        (option_or (account_fault account.now) (fill_fault 10 fill.now))) }
    ensures block { result ≡ OK
        → IsTheOne (IsFormat3 pin.now account.now fill.now) block.new }
    ensures kept { result ≢ OK → block.new ≡ block.old }
{
    match Pin::new(pin) {
        Ok(pin) => write_block(encode_format_3(&pin, account, fill), block),
        Err(fault) => status_of(fault),
    }
}

/// Writes the PIN of a block of format 0 and an account number: its ASCII digits, and then zero
/// bytes. The status is that of the first fault: the account number's; `ERR_FORMAT` if the block
/// has another format; `ERR_PIN_LENGTH` or `ERR_PIN_DIGIT` if its PIN has another length or a digit
/// above 9; `ERR_FILL` if it is not filled with 15. Then `pin` is unchanged.
#[unsafe(no_mangle)]
pub extern "C" fn cukvashe_pin_decode_0(block: &[u8; 8], account: &[u8], pin: &mut [u8; 13]) -> i32
    ensures status { result ≡ status_after status_of_fault
        (option_or (account_fault account.now)
        (field_fault 0 15 (xor_blocks (digits_in block.now) (account_field account.now)))) }
    ensures decoded { result ≡ OK → (text : List ℕ)
        × IsFormat0 text account.now block.now × (pin.new ≡ with_zeros 13 text) }
    ensures complete { (text : List ℕ) → IsFormat0 text account.now block.now
        → (result ≡ OK) × (pin.new ≡ with_zeros 13 text) }
    ensures kept { result ≢ OK → pin.new ≡ pin.old }
{
    write_pin(decode_format_0(block, account), pin)
}

/// Writes the PIN of a block of format 1, as for one of format 0. The status for the first fault is
/// `ERR_FORMAT`, `ERR_PIN_LENGTH` or `ERR_PIN_DIGIT`.
#[unsafe(no_mangle)]
pub extern "C" fn cukvashe_pin_decode_1(block: &[u8; 8], pin: &mut [u8; 13]) -> i32
    ensures status { result ≡ status_after status_of_fault (field_fault 1 0 (digits_in block.now)) }
    ensures decoded { result ≡ OK → (text : List ℕ) × (transaction : List ℕ)
        × IsFormat1 text transaction block.now × (pin.new ≡ with_zeros 13 text) }
    ensures complete { (text transaction : List ℕ) → IsFormat1 text transaction block.now
        → (result ≡ OK) × (pin.new ≡ with_zeros 13 text) }
    ensures kept { result ≢ OK → pin.new ≡ pin.old }
{
    write_pin(decode_format_1(block), pin)
}

/// Writes the PIN of a block of format 2, as for one of format 0. The status for the first fault is
/// `ERR_FORMAT`, `ERR_PIN_LENGTH`, `ERR_PIN_DIGIT` or `ERR_FILL`.
#[unsafe(no_mangle)]
pub extern "C" fn cukvashe_pin_decode_2(block: &[u8; 8], pin: &mut [u8; 13]) -> i32
    ensures status { result ≡ status_after status_of_fault
        (field_fault 2 15 (digits_in block.now)) }
    ensures decoded { result ≡ OK → (text : List ℕ)
        × IsFormat2 text block.now × (pin.new ≡ with_zeros 13 text) }
    ensures complete { (text : List ℕ) → IsFormat2 text block.now
        → (result ≡ OK) × (pin.new ≡ with_zeros 13 text) }
    ensures kept { result ≢ OK → pin.new ≡ pin.old }
{
    write_pin(decode_format_2(block), pin)
}

/// Writes the PIN of a block of format 3 and an account number, as for one of format 0; the status
/// is `ERR_FILL` if the block is filled with a digit below 10.
#[unsafe(no_mangle)]
pub extern "C" fn cukvashe_pin_decode_3(block: &[u8; 8], account: &[u8], pin: &mut [u8; 13]) -> i32
    ensures status { result ≡ status_after status_of_fault
        (option_or (account_fault account.now)
        (field_fault 3 10 (xor_blocks (digits_in block.now) (account_field account.now)))) }
    ensures decoded { result ≡ OK → (text : List ℕ) × (fill : List ℕ)
        × IsFormat3 text account.now fill block.now × (pin.new ≡ with_zeros 13 text) }
    ensures complete { (text fill : List ℕ) → IsFormat3 text account.now fill block.now
        → (result ≡ OK) × (pin.new ≡ with_zeros 13 text) }
    ensures kept { result ≢ OK → pin.new ≡ pin.old }
{
    write_pin(decode_format_3(block, account), pin)
}
