//! The lines of calculations with cards: their keys, cryptograms and the issuer's responses.

ghost use Rattle.std.specs.Prelude.{◌≡◌, ◌≤◌, length, take, IfOk};
ghost use Rattle.std.specs.Result.{result_err};
ghost use Rattle.des_payment.specs.CardCryptograms.{card_fault};
ghost use Rattle.des_lines.specs.Texts.{bytes_of as bytes_of_text, hex_line as hex_line_of};
ghost use Rattle.des_lines.specs.Faults.{FailsBy, FailsOnlyBy};
ghost use Rattle.des_lines.specs.EmvLines.{card_key_by, cryptogram_of, cryptogram_fault, issuer_data_fault, IsEmvLine, FailsAsEmv};

use crate::digits::{Lines, bytes_in, decode, hex_answer};
use crate::fault::FaultKind;
use crate::keys::pair_of;
use crate::requests::{CardKeyOption, EmvCalculation, Inputs, MAX_INPUT};
use des_payment::emv;
use des_payment::emv_error::EmvError;
use std::alloc::Global;

/// The line of a calculation with a card's keys and cryptograms.
///
/// Every fault but `Memory` is found before any memory is asked for.
pub fn emv_line(alloc: Global, calculation: EmvCalculation, inputs: Inputs) -> Lines
    requires { length inputs.text.now ≤ MAX_INPUT }
    ensures fault { FailsAsEmv calculation.entry inputs.entry result }
    ensures line { IfOk result (λ line. IsEmvLine calculation.entry inputs.entry line.items) }
{
    match calculation {
        EmvCalculation::CardKey { option, sequence } => {
            let issuer = pair_of(inputs.text)?;
            let key = card_key(option, &issuer, inputs.account, sequence.as_bytes())?;
            hex_answer(alloc, &key)
        }
        EmvCalculation::ApplicationKey { counter } => {
            let card = pair_of(inputs.text)?;
            let counter = bytes_in::<2>(counter, FaultKind::Counter)?;
            hex_answer(alloc, &emv::application_key(&card, &counter))
        }
        EmvCalculation::SessionKey { cryptogram } => {
            let card = pair_of(inputs.text)?;
            let block = bytes_in::<8>(cryptogram, FaultKind::Cryptogram)?;
            hex_answer(alloc, &emv::session_key(&card, &block))
        }
        EmvCalculation::Cryptogram => cryptogram_line(alloc, inputs),
        EmvCalculation::Response1 { cryptogram, code } => {
            let session = pair_of(inputs.text)?;
            let block = bytes_in::<8>(cryptogram, FaultKind::Cryptogram)?;
            let code = bytes_in::<2>(code, FaultKind::ResponseCode)?;
            hex_answer(alloc, &emv::response_1(&session, &block, &code))
        }
        EmvCalculation::Response2 {
            cryptogram,
            status,
            issued,
        } => {
            let session = pair_of(inputs.text)?;
            let block = bytes_in::<8>(cryptogram, FaultKind::Cryptogram)?;
            let status = bytes_in::<4>(status, FaultKind::CardStatus)?;
            let mut bytes = [0u8; 8];
            let size = read_data(issued, &mut bytes)?;
            let response = emv::response_2(&session, &block, &status, &bytes[..size])?;
            hex_answer(alloc, &response)
        }
    }
}

// The key of a card by an option.
fn card_key(
    option: CardKeyOption,
    issuer: &[u8; 16],
    account: &[u8],
    sequence: &[u8],
) -> Result<[u8; 16], EmvError>
    ensures fault { result_err result ≡ card_fault account.now sequence.now }
    ensures key { IfOk result (λ key.
        key ≡ card_key_by option issuer.now account.now sequence.now) }
{
    match option {
        CardKeyOption::A => emv::card_key(issuer, account, sequence),
        CardKeyOption::B => emv::card_key_b(issuer, account, sequence),
    }
}

// The line of the cryptogram of the data that digits write.
fn cryptogram_line(alloc: Global, inputs: Inputs) -> Lines
    requires { length inputs.text.now ≤ MAX_INPUT }
    ensures fault { FailsBy (cryptogram_fault inputs.entry) result }
    ensures line { IfOk result (λ line. line.items ≡ hex_line_of (cryptogram_of inputs.entry)) }
{
    let session = pair_of(inputs.key)?;
    let digits = inputs.text;
    if digits.is_empty() || digits.len() % 2 != 0 {
        return Err(FaultKind::CryptogramData);
    }
    let mut buffer = [0u8; MAX_INPUT / 2];
    let bytes = &mut buffer[..digits.len() / 2];
    decode(digits, bytes, FaultKind::CryptogramData)?;
    hex_answer(alloc, &emv::application_cryptogram(&session, bytes))
}

// Reads the issuer's data, at most eight bytes, into the first bytes of a block, and returns their
// number.
fn read_data(text: &str, block: &mut [u8; 8]) -> Result<usize, FaultKind>
    ensures fault { FailsOnlyBy (issuer_data_fault text.now) result }
    ensures size { IfOk result (λ size. size ≤ 8) }
    ensures bytes { IfOk result (λ size. take size block.new ≡ bytes_of_text text.now) }
{
    let digits = text.as_bytes();
    if digits.len() > 16 || digits.len() % 2 != 0 {
        return Err(FaultKind::IssuerData);
    }
    let size = digits.len() / 2;
    decode(digits, &mut block[..size], FaultKind::IssuerData)?;
    Ok(size)
}
