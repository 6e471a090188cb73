//! The lines of a calculation: what it writes, by what was read for it.

ghost use Rattle.std.specs.Prelude.{◌≡◌, ◌≤◌, ◌*◌, ◌/◌, ◌%◌, ◌⊎◌, length, IfOk};
ghost use Rattle.des.specs.WeakKeys.{IsRefused};
ghost use Rattle.des_payment.specs.Components.{combined};
ghost use Rattle.des_lines.specs.Texts.{bytes_of as bytes_of_text, hex_line as hex_line_of, text_fault};
ghost use Rattle.des_lines.specs.Faults.{FailsBy, FailsOnlyBy, FailsOrRefuses};
ghost use Rattle.des_lines.specs.Keys.{key_fault, IsKeySize};
ghost use Rattle.des_lines.specs.Lines.{check_value_of, IsWeakLine, key_of_components, key_size_of, key_of_count, few_fault, components_fault, encoding_fault, IsEncoded, decoding_fault, IsDecoded};
ghost use Rattle.des_lines.specs.Lines.{FailsAs, IsLine, key_for, initial_key_of as initial_key_by, transaction_key_of, transaction_fault};

use crate::digits::{Lines, bytes_of, decode, fill_of, hex_answer, hex_line, text_answer};
use crate::emv_lines::emv_line;
use crate::fault::FaultKind;
use crate::key_block_lines::key_block_lines;
use crate::keys::{AnyKey, is_weak, key_of_digits, pair_of};
use crate::pin_lines::pin_line;
use crate::requests::{Calculation, Inputs, MAX_INPUT, Purpose};
use des_payment::translation::Format;
use des_payment::{Pin, combine, cvv, dukpt, key_check_value, pin_blocks, set_odd_parity};
use std::alloc::Global;

// What is written of a key that is weak, and of one that is not.
pub const WEAK: &str = "weak\n";

const NOT_WEAK: &str = "not weak\n";

/// The line of a calculation, or its lines, by what was read for it.
///
/// Every fault but `Memory` is found before any memory is asked for.
pub fn lines_of(alloc: Global, calculation: Calculation, inputs: Inputs) -> Lines
    requires { length inputs.text.now ≤ MAX_INPUT }
    ensures fault { FailsAs calculation.entry inputs.entry result }
    ensures line { IfOk result (λ line. IsLine calculation.entry inputs.entry line.items) }
{
    match calculation {
        Calculation::CheckValue { bytes } => check_line(alloc, bytes, inputs.text),
        Calculation::Parity => {
            let mut key = key_of_digits(alloc, inputs.text, None)?;
            set_odd_parity(&mut key);
            hex_answer(alloc, key.as_slice())
        }
        Calculation::Weak => weak_line(alloc, inputs.text),
        Calculation::Combine { count } => combine_line(alloc, count, inputs.text),
        Calculation::CombineBytes { size } => combined_bytes_line(alloc, size, inputs.text),
        Calculation::Encode { format, fill } => {
            let pin = Pin::new(inputs.text)?;
            hex_answer(alloc, &block_of(format, fill, inputs.account, &pin)?)
        }
        Calculation::Decode { format } => {
            let block = bytes_of::<8>(inputs.text, FaultKind::BlockLength, FaultKind::BlockText)?;
            text_answer(alloc, pin_of(format, inputs.account, &block)?.text())
        }
        Calculation::Transaction {
            serial,
            purpose,
            is_initial,
        } => transaction_line(alloc, serial, purpose, is_initial, inputs.text),
        Calculation::Cvv { expiry, service } => {
            let key = pair_of(inputs.text)?;
            let value = cvv(&key, inputs.account, expiry.as_bytes(), service.as_bytes())?;
            text_answer(alloc, &value)
        }
        Calculation::Pin(calculation) => pin_line(alloc, calculation, inputs),
        Calculation::Emv(calculation) => emv_line(alloc, calculation, inputs),
        Calculation::KeyBlock(calculation) => key_block_lines(alloc, calculation, inputs),
    }
}

// ---- keys

// The line of the first bytes of the check value of the key that the digits write.
fn check_line(alloc: Global, bytes: u8, digits: &[u8]) -> Lines
    ensures fault { FailsBy (key_fault None digits.now) result }
    ensures line { IfOk result (λ line. line.items ≡ hex_line_of (check_value_of bytes digits.now)) }
{
    let key = AnyKey::of_digits(digits)?;
    let value = key_check_value(key.bytes()).unwrap();
    let count = std::cmp::min(bytes as usize, 3);
    Ok(hex_line(alloc, &value[..count])?)
}

fn weak_text(key: &[u8]) -> &'static str
    requires { IsKeySize (length key.now) }
    ensures { IsWeakLine key.now result.now }
{
    if is_weak(key) { WEAK } else { NOT_WEAK }
}

fn weak_line(alloc: Global, digits: &[u8]) -> Lines
    ensures fault { FailsBy (key_fault None digits.now) result }
    ensures line { IfOk result (λ line. IsWeakLine (bytes_of_text digits.now) line.items) }
{
    let key = AnyKey::of_digits(digits)?;
    let text = weak_text(key.bytes());
    Ok(Vec::from_slice(alloc, text.as_bytes())?)
}

// ---- components

fn combine_all<const N: usize>(components: &[[u8; N]]) -> Result<[u8; N], FaultKind>
    requires size { (N ≡ 8) ⊎ (N ≡ 16) ⊎ (N ≡ 24) }
    ensures fault { FailsOrRefuses (few_fault (length components.now))
        (IsRefused (combined components.now)) result }
    ensures key { IfOk result (λ key. key ≡ combined components.now) }
{
    match components {
        [first, second, others @ ..] => Ok(combine(first, second, others)?),
        _ => Err(FaultKind::Components),
    }
}

// The key of the components, of N bytes each, one after another.
fn combine_bytes<const N: usize>(bytes: &[u8]) -> Result<[u8; N], FaultKind>
    requires size { (N ≡ 8) ⊎ (N ≡ 16) ⊎ (N ≡ 24) }
    ensures fault { FailsOrRefuses (few_fault (length bytes.now / N))
        (IsRefused (key_of_components N bytes.now)) result }
    ensures key { IfOk result (λ key. key ≡ key_of_components N bytes.now) }
{
    let (components, _) = bytes.as_chunks::<N>();
    combine_all(components)
}

fn combined_line<const N: usize>(alloc: Global, bytes: &[u8]) -> Lines
    requires size { (N ≡ 8) ⊎ (N ≡ 16) ⊎ (N ≡ 24) }
    ensures fault { FailsOrRefuses (few_fault (length bytes.now / N))
        (IsRefused (key_of_components N bytes.now)) result }
    ensures line { IfOk result (λ line. line.items ≡ hex_line_of (key_of_components N bytes.now)) }
{
    let key = combine_bytes::<N>(bytes)?;
    hex_answer(alloc, &key)
}

// The line of the key of the components, of `size` bytes each, one after another.
fn combined_bytes_line(alloc: Global, size: u8, bytes: &[u8]) -> Lines
    ensures fault { FailsOrRefuses (few_fault (length bytes.now / key_size_of size))
        (IsRefused (key_of_components (key_size_of size) bytes.now)) result }
    ensures line { IfOk result (λ line.
        line.items ≡ hex_line_of (key_of_components (key_size_of size) bytes.now)) }
{
    match size {
        8 => combined_line::<8>(alloc, bytes),
        16 => combined_line::<16>(alloc, bytes),
        _ => combined_line::<24>(alloc, bytes),
    }
}

// The line of the key of the components, of N bytes each, that digits write one after another.
fn components_line<const N: usize>(alloc: Global, digits: &[u8]) -> Lines
    requires size { (N ≡ 8) ⊎ (N ≡ 16) ⊎ (N ≡ 24) }
    requires whole { length digits.now % (2 * N) ≡ 0 }
    requires two { 4 * N ≤ length digits.now }
    requires longest { length digits.now ≤ MAX_INPUT }
    ensures fault { FailsOrRefuses (text_fault FaultKind.KeyText digits.now)
        (IsRefused (key_of_components N (bytes_of_text digits.now))) result }
    ensures line { IfOk result (λ line.
        line.items ≡ hex_line_of (key_of_components N (bytes_of_text digits.now))) }
{
    let mut buffer = [0u8; MAX_INPUT / 2];
    let bytes = &mut buffer[..digits.len() / 2];
    decode(digits, bytes, FaultKind::KeyText)?;
    combined_line::<N>(alloc, bytes)
}

fn combine_line(alloc: Global, count: u8, digits: &[u8]) -> Lines
    requires { length digits.now ≤ MAX_INPUT }
    ensures fault { FailsOrRefuses (components_fault count digits.now)
        (IsRefused (key_of_count count digits.now)) result }
    ensures line { IfOk result (λ line. line.items ≡ hex_line_of (key_of_count count digits.now)) }
{
    if count < 2 {
        return Err(FaultKind::Components);
    }
    let count = count as usize;
    let length = digits.len();
    if length == 16 * count {
        components_line::<8>(alloc, digits)
    } else if length == 32 * count {
        components_line::<16>(alloc, digits)
    } else if length == 48 * count {
        components_line::<24>(alloc, digits)
    } else {
        Err(FaultKind::KeyLength(None))
    }
}

// ---- PIN blocks

fn block_of(format: Format, fill: &str, account: &[u8], pin: &Pin) -> Result<[u8; 8], FaultKind>
    ensures fault { FailsOnlyBy (encoding_fault format fill.now account.now) result }
    ensures block { IfOk result (IsEncoded format fill.now account.now pin.now) }
{
    let block = match format {
        Format::Format0 => pin_blocks::encode_format_0(pin, account)?,
        Format::Format1 => pin_blocks::encode_format_1(pin, &fill_of(fill)?)?,
        Format::Format2 => pin_blocks::encode_format_2(pin),
        Format::Format3 => pin_blocks::encode_format_3(pin, account, &fill_of(fill)?)?,
    };
    Ok(block)
}

fn pin_of(format: Format, account: &[u8], block: &[u8; 8]) -> Result<Pin, FaultKind>
    ensures fault { FailsOnlyBy (decoding_fault format account.now block.now) result }
    ensures pin { IfOk result (λ pin. IsDecoded format account.now pin block.now) }
{
    let pin = match format {
        Format::Format0 => pin_blocks::decode_format_0(block, account)?,
        Format::Format1 => pin_blocks::decode_format_1(block)?,
        Format::Format2 => pin_blocks::decode_format_2(block)?,
        Format::Format3 => pin_blocks::decode_format_3(block, account)?,
    };
    Ok(pin)
}

// ---- keys of transactions

fn key_of_purpose(purpose: Purpose, transaction: &[u8; 16]) -> [u8; 16]
    ensures { result ≡ key_for purpose transaction.now }
{
    match purpose {
        Purpose::Pin => dukpt::pin_key(transaction),
        Purpose::Mac(message) => dukpt::mac_key(transaction, message),
        Purpose::Data(message) => dukpt::data_key(transaction, message),
        Purpose::DataVariant(message) => dukpt::data_variant(transaction, message),
    }
}

// The initial key of a key serial number, if a key is that or the base derivation key.
fn initial_key_of(is_initial: bool, key: &[u8; 16], serial: &[u8; 10]) -> [u8; 16]
    ensures { result ≡ initial_key_by is_initial key.now serial.now }
{
    if is_initial {
        *key
    } else {
        dukpt::initial_key(key, serial)
    }
}

fn transaction_line(
    alloc: Global,
    serial: &str,
    purpose: Purpose,
    is_initial: bool,
    digits: &[u8],
) -> Lines
    ensures fault { FailsBy (transaction_fault serial.now digits.now) result }
    ensures line { IfOk result (λ line. line.items
        ≡ hex_line_of (key_for purpose (transaction_key_of is_initial serial.now digits.now))) }
{
    let key = pair_of(digits)?;
    let serial = bytes_of::<10>(
        serial.as_bytes(),
        FaultKind::SerialLength,
        FaultKind::SerialText,
    )?;
    if !dukpt::is_usable(&serial) {
        return Err(FaultKind::SerialCounter);
    }
    let transaction = dukpt::transaction_key(&initial_key_of(is_initial, &key, &serial), &serial);
    hex_answer(alloc, &key_of_purpose(purpose, &transaction))
}
