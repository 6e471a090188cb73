//! Card cryptograms (EMV 4.3, Book 2): the key of a card, the keys of its sessions, the application
//! cryptogram and the issuer's responses, with triple DES.
//!
//! A key has 16 bytes, two halves of 8. Which data a cryptogram is of, the issuer names. No table
//! is read at an index that depends on a key, and no branch depends on one.

ghost use Rattle.std.specs.Prelude.{◌≡◌, ◌-◌, ◌++◌, length, take, replicate, OnOk, IfOk, IsTrue};
ghost use Rattle.std.specs.Result.{result_err};
ghost use Rattle.sha1.specs.Sha1.{sha1};
ghost use Rattle.des_payment.specs.Texts.{are_digits as are_digits_of, IsNumber};
ghost use Rattle.des_payment.specs.CardCryptograms.{rightmost, card_block as card_block_of, both as both_of, key_of_block as key_of_block_of, card_key as card_key_of, card_fault};
ghost use Rattle.des_payment.specs.CardCryptograms.{even_bytes, hashed_block as hashed_block_of, card_key_b as card_key_b_of};
ghost use Rattle.des_payment.specs.CardCryptograms.{with_third as with_third_of, session_key as session_key_of, application_key as application_key_of};
ghost use Rattle.des_payment.specs.CardCryptograms.{cryptogram as cryptogram_of, response_1 as response_1_of, response_2 as response_2_of, data_fault};

use crate::components::set_odd_parity;
use crate::decimals::first_decimals;
use crate::digits::{block_of, write_bytes, write_digits};
use crate::dukpt::joined;
use crate::emv_error::EmvError;
use crate::passes::encrypted_by_ede2;
use crate::texts::{check_number, to_values};
use crate::xor::xored;
use des_fast::no_tables::Des;
use des_mac::mac::Mac;
use des_mac::padding::Method2;
use des_mac::retail_mac::RetailMac;
use sha1::Sha1;

// The numbers of a card: the first fault, if they have one.
fn check_card(account: &[u8], sequence: &[u8]) -> Result<(), EmvError>
    ensures fault { result_err result ≡ card_fault account.now sequence.now }
    ensures account { OnOk result (IsNumber 8 19 account.now) }
    ensures sequence { OnOk result (IsNumber 2 2 sequence.now) }
{
    check_number(
        account,
        8,
        19,
        EmvError::AccountLength,
        EmvError::AccountDigit,
    )?;
    check_number(
        sequence,
        2,
        2,
        EmvError::SequenceLength,
        EmvError::SequenceDigit,
    )
}

// Sixteen zeros, the account number and the sequence number, and zeros to 37 digits.
fn padded_digits(account: &[u8], sequence: &[u8]) -> [u8; 37]
    requires account { IsNumber 8 19 account.now }
    requires sequence { IsNumber 2 2 sequence.now }
    ensures { result ≡ replicate 16 48 ++ (account.now ++ sequence.now)
        ++ replicate (19 - length account.now) 48 }
{
    let mut text = [b'0'; 37];
    let (_, rest) = text.split_at_mut(16);
    let (front, rest) = rest.split_at_mut(account.len());
    front.copy_from_slice(account);
    let (front, _) = rest.split_at_mut(2);
    front.copy_from_slice(sequence);
    text
}

// The sixteen rightmost digits of both numbers.
fn rightmost_digits(account: &[u8], sequence: &[u8]) -> [u8; 16]
    requires account { IsNumber 8 19 account.now }
    requires sequence { IsNumber 2 2 sequence.now }
    ensures text { result ≡ rightmost (account.now ++ sequence.now) }
    ensures digits { IsTrue (are_digits_of result) }
{
    let text = padded_digits(account, sequence);
    let mut digits = [0; 16];
    digits.copy_from_slice(&text[account.len() + 2..account.len() + 18]);
    digits
}

// The block of both numbers by option A.
fn card_block(account: &[u8], sequence: &[u8]) -> [u8; 8]
    requires account { IsNumber 8 19 account.now }
    requires sequence { IsNumber 2 2 sequence.now }
    ensures { result ≡ card_block_of account.now sequence.now }
{
    let mut digits = rightmost_digits(account, sequence);
    to_values(&mut digits);
    block_of(&digits)
}

// The hash of both numbers as bytes, two digits a byte, after a `0` if they have an odd number of
// digits.
fn hash_of(account: &[u8], sequence: &[u8]) -> [u8; 20]
    requires account { IsNumber 8 19 account.now }
    requires sequence { IsNumber 2 2 sequence.now }
    ensures { result ≡ sha1 (even_bytes (account.now ++ sequence.now)) }
{
    let mut digits = padded_digits(account, sequence);
    to_values(&mut digits);
    let digits = &digits[16 - account.len() % 2..account.len() + 18];
    let mut bytes = [0; 11];
    let bytes = &mut bytes[..digits.len() / 2];
    write_bytes(digits, bytes);
    Sha1::digest(bytes)
}

// The block of both numbers by option B, for account numbers of more than sixteen digits.
fn hashed_block(account: &[u8], sequence: &[u8]) -> [u8; 8]
    requires account { IsNumber 8 19 account.now }
    requires sequence { IsNumber 2 2 sequence.now }
    ensures { result ≡ hashed_block_of account.now sequence.now }
{
    let mut digits = [0; 40];
    write_digits(&hash_of(account, sequence), &mut digits);
    block_of(&first_decimals::<16>(&digits))
}

// Two blocks encrypted under a key, one after the other.
fn both(key: &[u8; 16], left: &[u8; 8], right: &[u8; 8]) -> [u8; 16]
    ensures { result ≡ both_of key.now left.now right.now }
{
    let left = encrypted_by_ede2(key, left);
    let right = encrypted_by_ede2(key, right);
    joined(&left, &right)
}

// The key of the card that a block stands for.
fn key_of_block(issuer: &[u8; 16], block: &[u8; 8]) -> [u8; 16]
    ensures { result ≡ key_of_block_of issuer.now block.now }
{
    let mut key = both(issuer, block, &xored(block, &[0xff; 8]));
    set_odd_parity(&mut key);
    key
}

/// The key of a card by option A (A1.4.1), from the issuer's master key (IMK), the account number
/// (PAN), a text of 8 to 19 digits with the check digit, and the sequence number of the card (PSN),
/// a text of two digits: `00` if the card has none.
///
/// The sixteen rightmost digits of both numbers together are a block; it and its complement are
/// encrypted under the issuer's key. Each byte of the key has odd parity. Most issuers take this
/// option, which is defined for each length of the account number.
pub fn card_key(issuer: &[u8; 16], account: &[u8], sequence: &[u8]) -> Result<[u8; 16], EmvError>
    ensures fault { result_err result ≡ card_fault account.now sequence.now }
    ensures key { IfOk result (λ key. key ≡ card_key_of issuer.now account.now sequence.now) }
{
    check_card(account, sequence)?;
    Ok(key_of_block(issuer, &card_block(account, sequence)))
}

/// The key of a card by option B (A1.4.2), from the same. It differs from `card_key` if the
/// account number has more than sixteen digits: take it for these if the card scheme asks for it.
///
/// Both numbers, after a `0` if their digits are odd in number, write bytes, two digits a byte.
/// Of the forty hexadecimal digits of their SHA-1 hash those from 0 to 9 are taken in order, and
/// then the others in order, less ten; the first sixteen are the block.
pub fn card_key_b(issuer: &[u8; 16], account: &[u8], sequence: &[u8]) -> Result<[u8; 16], EmvError>
    ensures fault { result_err result ≡ card_fault account.now sequence.now }
    ensures key { IfOk result (λ key. key ≡ card_key_b_of issuer.now account.now sequence.now) }
{
    check_card(account, sequence)?;
    let block = if account.len() > 16 {
        hashed_block(account, sequence)
    } else {
        card_block(account, sequence)
    };
    Ok(key_of_block(issuer, &block))
}

// The block with another third byte.
fn with_third(block: &[u8; 8], byte: u8) -> [u8; 8]
    ensures { result ≡ with_third_of byte block.now }
{
    let mut changed = *block;
    changed[2] = byte;
    changed
}

/// The session key of a card's key by the common derivation (A1.3), from eight bytes that are
/// different for each session: for secure messaging the application cryptogram. Their third byte
/// has no part in it.
pub fn session_key(card: &[u8; 16], block: &[u8; 8]) -> [u8; 16]
    ensures { result ≡ session_key_of card.now block.now }
{
    both(card, &with_third(block, 0xf0), &with_third(block, 0x0f))
}

// Two bytes, filled with zeros to a block.
fn with_zeros(bytes: &[u8; 2]) -> [u8; 8]
    ensures { result ≡ bytes.now ++ replicate 6 0 }
{
    [bytes[0], bytes[1], 0, 0, 0, 0, 0, 0]
}

/// The session key for application cryptograms, by the application transaction counter (ATC), two
/// bytes.
pub fn application_key(card: &[u8; 16], counter: &[u8; 2]) -> [u8; 16]
    ensures { result ≡ application_key_of card.now counter.now }
{
    session_key(card, &with_zeros(counter))
}

/// The application cryptogram (ARQC, TC or AAC) of bytes under a session key (8.1.2): the retail
/// MAC with padding method 2 under the two halves of the key.
pub fn application_cryptogram(session: &[u8; 16], bytes: &[u8]) -> [u8; 8]
    ensures { result ≡ cryptogram_of session.now bytes.now }
{
    RetailMac::<Des, Method2>::mac(session, bytes).unwrap()
}

/// The response (ARPC) by method 1 (8.2.1) to an application cryptogram, with a response code of
/// two bytes (ASCII characters, as `00` for approved): the cryptogram xor the code and zeros,
/// encrypted under the session key.
pub fn response_1(session: &[u8; 16], cryptogram: &[u8; 8], code: &[u8; 2]) -> [u8; 8]
    ensures { result ≡ response_1_of session.now cryptogram.now code.now }
{
    encrypted_by_ede2(session, &xored(cryptogram, &with_zeros(code)))
}

// The first four bytes of a block.
fn first_four(block: &[u8; 8]) -> [u8; 4]
    ensures { result ≡ take 4 block.now }
{
    [block[0], block[1], block[2], block[3]]
}

// The issuer's data: the fault, if they have one.
fn check_data(bytes: &[u8]) -> Result<(), EmvError>
    ensures { result_err result ≡ data_fault bytes.now }
{
    if bytes.len() > 8 {
        return Err(EmvError::DataLength);
    }
    Ok(())
}

/// The response (ARPC) by method 2 (8.2.2) to an application cryptogram, with a card status update
/// of four bytes and at most eight bytes of the issuer's: the first four bytes of the retail MAC
/// with padding method 2 of all three. `DataLength` if the issuer has more bytes.
pub fn response_2(
    session: &[u8; 16],
    cryptogram: &[u8; 8],
    status: &[u8; 4],
    bytes: &[u8],
) -> Result<[u8; 4], EmvError>
    ensures fault { result_err result ≡ data_fault bytes.now }
    ensures response { IfOk result (λ response.
        response ≡ response_2_of session.now cryptogram.now status.now bytes.now) }
{
    check_data(bytes)?;
    let mut state = RetailMac::<Des, Method2>::new_from_slice(session).unwrap();
    state.update(cryptogram);
    state.update(status);
    state.update(bytes);
    Ok(first_four(&state.finalize()))
}
