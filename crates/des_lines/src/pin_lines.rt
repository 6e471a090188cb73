//! The lines of calculations with PINs and keys: PIN blocks under another key, PIN verification
//! values, natural PINs and offsets.

ghost use Rattle.std.specs.Prelude.{◌≡◌, IfOk};
ghost use Rattle.std.specs.Result.{result_err};
ghost use Rattle.des_payment.specs.PinVerification.{table_fault};
ghost use Rattle.des_payment.specs.Texts.{values, number_fault};
ghost use Rattle.des_lines.specs.Texts.{bytes_of as bytes_of_text, hex_line as hex_line_of, text_line};
ghost use Rattle.des_lines.specs.Faults.{FailsBy, FailsOnlyBy};
ghost use Rattle.des_lines.specs.PinLines.{fill_for as fill_by, fill_text_fault, block_text_fault, translated_fault, rekeyed_by, rekeyed_fault};
ghost use Rattle.des_lines.specs.PinLines.{pvv_of, pvv_fault, HasPvv, pvv_verdict_fault, natural_pin_by, natural_fault};
ghost use Rattle.des_lines.specs.PinLines.{least_variety, data_fault, key_and_pin_fault, offset_by, offset_fault, HasOffset, offset_verdict_fault};
ghost use Rattle.des_lines.specs.PinLines.{IsVerdictLine, TellsOutcome, pin_line_fault, IsPinLine};

use crate::digits::{Lines, bytes_in, bytes_of, fill_of, hex_answer, text_answer};
use crate::fault::FaultKind;
use crate::keys::{AnyKey, pair_of};
use crate::requests::{Inputs, NaturalPins, PinCalculation};
use crate::tags::{RIGHT, WRONG};
use des_payment::pin_verification::{natural_pin, pin_offset, pvv, verify_offset, verify_pvv};
use des_payment::translation::{Format, translate, translate_format_1};
use des_payment::{DecimalTable, Pin, VerificationError, are_digits};
use std::alloc::Global;

/// The line of a calculation with a PIN and a key.
///
/// Every fault but `Memory` is found before any memory is asked for.
pub fn pin_line(alloc: Global, calculation: PinCalculation, inputs: Inputs) -> Lines
    ensures fault { FailsBy (pin_line_fault calculation.entry inputs.entry) result }
    ensures line { IfOk result (λ line. IsPinLine calculation.entry inputs.entry line.items) }
{
    match calculation {
        PinCalculation::Translate { from, to, fill } => {
            translated_line(alloc, from, to, fill, inputs)
        }
        PinCalculation::TranslateFormat1 => rekeyed_line(alloc, inputs),
        PinCalculation::MakePvv { index } => pvv_line(alloc, index, inputs),
        PinCalculation::VerifyPvv { index, value } => pvv_verdict(alloc, index, value, inputs),
        PinCalculation::Natural { by, count } => natural_line(alloc, by, count, inputs.text),
        PinCalculation::MakeOffset { by } => offset_line(alloc, by, inputs),
        PinCalculation::VerifyOffset { by, offset } => offset_verdict(alloc, by, offset, inputs),
    }
}

// ---- PIN blocks

fn fill_for(to: Format, fill: &str) -> Result<[u8; 10], FaultKind>
    ensures fault { FailsOnlyBy (fill_text_fault to fill.now) result }
    ensures digits { IfOk result (λ digits. digits ≡ fill_by to fill.now) }
{
    match to {
        Format::Format3 => fill_of(fill),
        _ => Ok([15; 10]),
    }
}

// The key and the outgoing key of a translation, and the block.
fn block_of(inputs: Inputs) -> Result<(AnyKey, AnyKey, [u8; 8]), FaultKind>
    ensures fault { FailsOnlyBy (block_text_fault inputs.entry) result }
    ensures key { IfOk result (λ read. read.0 ≡ bytes_of_text inputs.entry.key.now) }
    ensures to_key { IfOk result (λ read. read.1 ≡ bytes_of_text inputs.entry.to_key.now) }
    ensures block { IfOk result (λ read. read.2 ≡ bytes_of_text inputs.entry.text.now) }
{
    let key = AnyKey::of_digits(inputs.key)?;
    let to_key = AnyKey::read(inputs.to_key, FaultKind::ToKeyLength, FaultKind::ToKeyText)?;
    let block = bytes_of::<8>(inputs.text, FaultKind::BlockLength, FaultKind::BlockText)?;
    Ok((key, to_key, block))
}

fn translated_line(alloc: Global, from: Format, to: Format, fill: &str, inputs: Inputs) -> Lines
    ensures fault { FailsBy (translated_fault from to fill.now inputs.entry) result }
    ensures line { IfOk result (λ line.
        IsPinLine (PinCalculation.Translate from to fill.entry) inputs.entry line.items) }
{
    let (key, to_key, block) = block_of(inputs)?;
    let fill = fill_for(to, fill)?;
    let (key, to_key) = (key.bytes(), to_key.bytes());
    let translated = translate(key, from, to_key, to, inputs.account, &fill, &block)?;
    hex_answer(alloc, &translated)
}

fn rekeyed_line(alloc: Global, inputs: Inputs) -> Lines
    ensures fault { FailsBy (rekeyed_fault inputs.entry) result }
    ensures line { IfOk result (λ line. line.items ≡ hex_line_of (rekeyed_by inputs.entry)) }
{
    let (key, to_key, block) = block_of(inputs)?;
    let translated = translate_format_1(key.bytes(), to_key.bytes(), &block)?;
    hex_answer(alloc, &translated)
}

// ---- PIN verification values

// The line of a verification, or its fault.
fn verdict(alloc: Global, outcome: Result<(), VerificationError>) -> Lines
    ensures { TellsOutcome outcome result }
{
    match outcome {
        Ok(()) => Ok(Vec::from_slice(alloc, RIGHT.as_bytes())?),
        Err(VerificationError::WrongPin) => Ok(Vec::from_slice(alloc, WRONG.as_bytes())?),
        Err(error) => Err(FaultKind::Verification(error)),
    }
}

fn value_of(text: &str) -> Result<[u8; 4], FaultKind>
    ensures fault { FailsOnlyBy (number_fault 4 4 FaultKind.Value FaultKind.Value text.now) result }
    ensures value { IfOk result (λ value. value ≡ text.now) }
{
    if !are_digits(text.as_bytes()) {
        return Err(FaultKind::Value);
    }
    <[u8; 4]>::try_from(text.as_bytes()).map_err(|_| FaultKind::Value)
}

fn pvv_line(alloc: Global, index: u8, inputs: Inputs) -> Lines
    ensures fault { FailsBy (pvv_fault index inputs.entry) result }
    ensures line { IfOk result (λ line. line.items ≡ text_line (pvv_of index inputs.entry)) }
{
    let key = pair_of(inputs.key)?;
    let pin = Pin::new(inputs.text)?;
    let value = pvv(&key, inputs.account, index, &pin)?;
    text_answer(alloc, &value)
}

fn pvv_verdict(alloc: Global, index: u8, value: &str, inputs: Inputs) -> Lines
    ensures fault { FailsBy (pvv_verdict_fault index value.now inputs.entry) result }
    ensures line { IfOk result (λ line.
        IsVerdictLine (HasPvv index value.now inputs.entry) line.items) }
{
    let key = pair_of(inputs.key)?;
    let pin = Pin::new(inputs.text)?;
    let value = value_of(value)?;
    let outcome = verify_pvv(&key, inputs.account, index, &pin, &value);
    verdict(alloc, outcome)
}

// ---- natural PINs and offsets

fn table_of(by: NaturalPins) -> Result<DecimalTable, VerificationError>
    ensures fault { result_err result ≡ table_fault (least_variety by.entry.takes_any_table) by.entry.table.now }
    ensures table { IfOk result (λ table. table ≡ values by.entry.table.now) }
{
    let text = by.table.as_bytes();
    if by.takes_any_table {
        DecimalTable::of_any_variety(text)
    } else {
        DecimalTable::new(text)
    }
}

// The validation data and the decimalization table that digits write.
fn data_of(by: NaturalPins) -> Result<([u8; 8], DecimalTable), FaultKind>
    ensures fault { FailsOnlyBy (data_fault by.entry) result }
    ensures validation { IfOk result (λ found. found.0 ≡ bytes_of_text by.entry.validation.now) }
    ensures table { IfOk result (λ found. found.1 ≡ values by.entry.table.now) }
{
    let validation = bytes_in::<8>(by.validation, FaultKind::Validation)?;
    Ok((validation, table_of(by)?))
}

// The line of the natural PIN of `count` digits under the key that digits write.
fn natural_line(alloc: Global, by: NaturalPins, count: u8, digits: &[u8]) -> Lines
    ensures fault { FailsBy (natural_fault by.entry count digits.now) result }
    ensures line { IfOk result (λ line.
        line.items ≡ text_line (natural_pin_by by.entry count digits.now)) }
{
    let key = AnyKey::of_digits(digits)?;
    let (validation, table) = data_of(by)?;
    let pin = natural_pin(key.bytes(), &table, &validation, count as usize)?;
    text_answer(alloc, pin.text())
}

// The key and the PIN that digits write.
fn key_and_pin(inputs: Inputs) -> Result<(AnyKey, Pin), FaultKind>
    ensures fault { FailsOnlyBy (key_and_pin_fault inputs.entry) result }
    ensures key { IfOk result (λ read. read.0 ≡ bytes_of_text inputs.entry.key.now) }
    ensures pin { IfOk result (λ read. read.1 ≡ inputs.entry.text.now) }
{
    let key = AnyKey::of_digits(inputs.key)?;
    let pin = Pin::new(inputs.text)?;
    Ok((key, pin))
}

fn offset_line(alloc: Global, by: NaturalPins, inputs: Inputs) -> Lines
    ensures fault { FailsBy (offset_fault by.entry inputs.entry) result }
    ensures line { IfOk result (λ line. line.items ≡ text_line (offset_by by.entry inputs.entry)) }
{
    let (key, pin) = key_and_pin(inputs)?;
    let (validation, table) = data_of(by)?;
    let offset = pin_offset(key.bytes(), &table, &validation, &pin)?;
    text_answer(alloc, offset.text())
}

// The offset that a text writes, which has a PIN's form.
fn given_offset(text: &str) -> Result<Pin, FaultKind>
    ensures fault { FailsOnlyBy (number_fault 4 12 FaultKind.Offset FaultKind.Offset text.now) result }
    ensures offset { IfOk result (λ offset. offset ≡ text.now) }
{
    Pin::new(text.as_bytes()).map_err(|_| FaultKind::Offset)
}

fn offset_verdict(alloc: Global, by: NaturalPins, offset: &str, inputs: Inputs) -> Lines
    ensures fault { FailsBy (offset_verdict_fault by.entry offset.now inputs.entry) result }
    ensures line { IfOk result (λ line.
        IsVerdictLine (HasOffset by.entry offset.now inputs.entry) line.items) }
{
    let (key, pin) = key_and_pin(inputs)?;
    let (validation, table) = data_of(by)?;
    let offset = given_offset(offset)?;
    let outcome = verify_offset(key.bytes(), &table, &validation, &pin, &offset);
    verdict(alloc, outcome)
}
