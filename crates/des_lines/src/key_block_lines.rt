//! The lines of calculations with key blocks: the fields of a header, what a block holds, and a
//! block that is made.

ghost use Rattle.std.specs.Prelude.{◌≡◌, ◌≤◌, ◌⊎◌, ◌++◌, List, ℕ, length, None, IsTrue, IfOk, OnOk};
ghost use Rattle.std.specs.String.{string_bytes};
ghost use Rattle.des_payment.specs.KeyLengths.{is_key};
ghost use Rattle.des_lines.specs.Texts.{bytes_of as bytes_of_text};
ghost use Rattle.des_lines.specs.Faults.{FailsBy, FailsOnlyBy};
ghost use Rattle.des_lines.specs.KeyBlockLines.{shown_character, shown_text, field_line, header_lines as header_lines_of, context_lines, optional_line, optional_lines, check_lines};
ghost use Rattle.des_lines.specs.KeyBlockLines.{IsReadable, TellsHeader, FailsAsHeader, protection_fault, TellsKey, FailsAsUnwrapped};
ghost use Rattle.des_lines.specs.KeyBlockLines.{field_fault, header_text_fault, IsHeaderOf, IsMadeLine, IsWrapped, FailsAsMade, FailsAsWrapped};
ghost use Rattle.des_lines.specs.KeyBlockLines.{FailsAsKeyBlock, AnswersKeyBlock};

use crate::digits::{Lines, hex_answer, hex_line, text_answer};
use crate::fault::{FaultKind, Field};
use crate::keys::AnyKey;
use crate::requests::{Inputs, KeyBlockCalculation, MAX_RANDOM_BYTES, Wrapping};
use des_key_blocks::key_block_error::KeyBlockError;
use des_key_blocks::key_block_header::{
    Algorithm, Exportability, Header, KeyContext, MAX_CHARACTERS, ModeOfUse, Usage,
    are_alphanumeric,
};
use des_key_blocks::key_blocks::{self, key_context, optional_block, wrap};
use des_key_blocks::optional_blocks::{
    MAX_BLOCKS, OptionalBlock, is_printable, read_optional_blocks,
};
use des_payment::key_check_value;
use std::alloc::{AllocError, Global};

/// The lines of a calculation with a key block. The key protects blocks; the input is a block, or
/// the digits of the key that is wrapped. A block that is made is padded by the first of the random
/// bytes.
///
/// Every fault but `Memory` is found before any memory is asked for.
pub fn key_block_lines(alloc: Global, calculation: KeyBlockCalculation, inputs: Inputs) -> Lines
    ensures fault { FailsAsKeyBlock calculation.entry inputs.entry result }
    ensures lines { IfOk result (λ lines.
        AnswersKeyBlock calculation.entry inputs.entry lines.items) }
{
    match calculation {
        KeyBlockCalculation::Header => header_lines(alloc, inputs.text),
        KeyBlockCalculation::Unwrap { shows_key } => {
            unwrap_lines(alloc, shows_key, inputs.key, inputs.text)
        }
        KeyBlockCalculation::Wrap(wrapping) => wrap_line(alloc, &wrapping, inputs),
    }
}

// ---- headers

// A character as a line shows it: a question mark in the place of one that is not printable.
fn shown(character: u8) -> u8
    ensures { result ≡ shown_character character }
{
    if is_printable(character) {
        character
    } else {
        b'?'
    }
}

/// A name as a line shows it.
pub fn shown_name(alloc: Global, name: &[u8]) -> Result<String, AllocError>
    ensures { IfOk result (λ text. string_bytes text ≡ shown_text name.now) }
{
    let mut text = String::new(alloc);
    for character in name {
        text.push(shown(*character) as char)?;
    }
    Ok(text)
}

fn add_shown(lines: &mut Vec<u8>, text: &[u8]) -> Result<(), FaultKind>
    ensures fault { FailsBy None result }
    ensures text { OnOk result (lines.new.items ≡ lines.old.items ++ shown_text text.now) }
{
    for character in text {
        lines.push(shown(*character))?;
    }
    Ok(())
}

fn add_field(lines: &mut Vec<u8>, name: &str, value: &[u8]) -> Result<(), FaultKind>
    ensures fault { FailsBy None result }
    ensures line { OnOk result
        (lines.new.items ≡ lines.old.items ++ field_line name.now value.now) }
{
    lines.extend_from_slice(name.as_bytes())?;
    lines.push(b' ')?;
    add_shown(lines, value)?;
    lines.push(b'\n')?;
    Ok(())
}

fn add_header(lines: &mut Vec<u8>, header: &Header) -> Result<(), FaultKind>
    ensures fault { FailsBy None result }
    ensures lines { OnOk result
        (lines.new.items ≡ lines.old.items ++ header_lines_of header.now) }
{
    add_field(lines, "version", &[header.version.character()])?;
    add_field(lines, "usage", &header.usage.text())?;
    add_field(lines, "algorithm", &[header.algorithm.character()])?;
    add_field(lines, "mode", &[header.mode.character()])?;
    add_field(lines, "key-version", &header.key_version)?;
    add_field(lines, "exportability", &[header.exportability.character()])
}

// Adds the line of a key's context, if it is not storage and exchange.
fn add_context(lines: &mut Vec<u8>, context: KeyContext) -> Result<(), FaultKind>
    ensures fault { FailsBy None result }
    ensures line { OnOk result (lines.new.items ≡ lines.old.items ++ context_lines context) }
{
    match context {
        KeyContext::StorageOrExchange => Ok(()),
        _ => add_field(lines, "context", &[context.character()]),
    }
}

fn add_optional(lines: &mut Vec<u8>, block: OptionalBlock) -> Result<(), FaultKind>
    ensures fault { FailsBy None result }
    ensures line { OnOk result (lines.new.items ≡ lines.old.items
        ++ optional_line (block.entry.name, block.entry.content.now)) }
{
    lines.extend_from_slice(b"optional ")?;
    add_shown(lines, &block.name)?;
    lines.push(b' ')?;
    add_shown(lines, block.content)?;
    lines.push(b'\n')?;
    Ok(())
}

// Adds the lines of the optional blocks of a block.
fn add_optional_blocks(lines: &mut Vec<u8>, block: &[u8]) -> Result<(), FaultKind>
    ensures { (header : Header) (blocks : List (List ℕ × List ℕ)) → IsReadable header blocks block.now
        → FailsBy None result × OnOk result (lines.new.items
        ≡ lines.old.items ++ optional_lines blocks) }
{
    for place in 0..MAX_BLOCKS {
        match optional_block(block, place)? {
            Some(found) => add_optional(lines, found)?,
            None => return Ok(()),
        }
    }
    Ok(())
}

// The lines of the header of a block, of its key's context, and of its optional blocks.
fn header_lines(alloc: Global, block: &[u8]) -> Lines
    ensures fault { FailsAsHeader block.now result }
    ensures only { (header : Header) (blocks : List (List ℕ × List ℕ))
        → IsReadable header blocks block.now → FailsBy None result }
    ensures lines { IfOk result (λ lines. TellsHeader block.now lines.items) }
{
    let header = key_blocks::header(block)?;
    let context = key_context(block)?;
    let mut lines = Vec::new(alloc);
    add_header(&mut lines, &header)?;
    add_context(&mut lines, context)?;
    add_optional_blocks(&mut lines, block)?;
    Ok(lines)
}

// ---- what a block holds

// The key of two parts or three, which protects blocks, that digits write.
fn protection_of(digits: &[u8]) -> Result<AnyKey, FaultKind>
    ensures fault { FailsOnlyBy (protection_fault digits.now) result }
    ensures size { IfOk result (λ key. (length key ≡ 16) ⊎ (length key ≡ 24)) }
    ensures key { IfOk result (λ key. key ≡ bytes_of_text digits.now) }
{
    let length_fault = FaultKind::KeyBlock(KeyBlockError::ProtectionKeyLength);
    if digits.len() == 16 {
        return Err(length_fault);
    }
    AnyKey::read(digits, length_fault, FaultKind::KeyText)
}

// Adds the line of a key's check value, which keys of DES and triple DES have.
fn add_check_value(
    alloc: Global,
    lines: &mut Vec<u8>,
    algorithm: Algorithm,
    key: &[u8],
) -> Result<(), FaultKind>
    requires { IsTrue (is_key key.now) }
    ensures fault { FailsBy None result }
    ensures line { OnOk result
        (lines.new.items ≡ lines.old.items ++ check_lines algorithm key.now) }
{
    match algorithm {
        Algorithm::OtherAlgorithm(_) => Ok(()),
        _ => {
            let value = key_check_value(key).unwrap();
            let line = hex_line(alloc, &value)?;
            lines.extend_from_slice(b"check-value ")?;
            lines.extend_from_slice(line.as_slice())?;
            Ok(())
        }
    }
}

// What a block says of its key, with the key's check value; or the key.
fn unwrap_lines(alloc: Global, shows_key: bool, protection: &[u8], block: &[u8]) -> Lines
    ensures fault { FailsAsUnwrapped protection.now block.now result }
    ensures lines { IfOk result (λ lines.
        TellsKey shows_key protection.now block.now lines.items) }
{
    let protection = protection_of(protection)?;
    let (header, key) = key_blocks::unwrap(protection.bytes(), block)?;
    if shows_key {
        return hex_answer(alloc, key.bytes());
    }
    let mut lines = header_lines(alloc, block)?;
    add_check_value(alloc, &mut lines, header.algorithm, key.bytes())?;
    Ok(lines)
}

// ---- blocks that are made

// The letters and digits of a field.
fn field_of<const N: usize>(text: &str, field: Field) -> Result<[u8; N], FaultKind>
    requires { N ≤ 2 }
    ensures fault { FailsOnlyBy (field_fault N field text.now) result }
    ensures text { IfOk result (λ characters. characters ≡ text.now) }
{
    let characters = text.as_bytes();
    if !are_alphanumeric(characters) {
        return Err(FaultKind::Field(field));
    }
    <[u8; N]>::try_from(characters).map_err(|_| FaultKind::Field(field))
}

// The header that texts give.
fn header_of(wrapping: &Wrapping) -> Result<Header, FaultKind>
    ensures fault { FailsOnlyBy (header_text_fault wrapping.now) result }
    ensures header { IfOk result (IsHeaderOf wrapping.now) }
{
    let usage = field_of::<2>(wrapping.usage, Field::Usage)?;
    let [algorithm] = field_of::<1>(wrapping.algorithm, Field::Algorithm)?;
    let [mode] = field_of::<1>(wrapping.mode, Field::Mode)?;
    let key_version = field_of::<2>(wrapping.key_version, Field::KeyVersion)?;
    let [exportability] = field_of::<1>(wrapping.exportability, Field::Exportability)?;
    Ok(Header {
        version: wrapping.version,
        usage: Usage::of(usage),
        algorithm: Algorithm::of(algorithm),
        mode: ModeOfUse::of(mode),
        key_version,
        exportability: Exportability::of(exportability),
    })
}

// The line of the block of a key, by the text of its optional blocks.
fn block_line(
    alloc: Global,
    protection: &[u8],
    header: &Header,
    optional: &[u8],
    key: &[u8],
    random: &[u8; MAX_RANDOM_BYTES],
) -> Lines
    requires least { 8 ≤ length key.now }
    requires most { length key.now ≤ 24 }
    ensures fault { FailsAsMade protection.now header.now optional.now key.now random.now result }
    ensures line { IfOk result (λ line.
        IsMadeLine protection.now header.now optional.now key.now random.now line.items) }
{
    let nothing = OptionalBlock {
        name: [0; 2],
        content: &[],
    };
    let mut blocks = [nothing; MAX_BLOCKS];
    let count = read_optional_blocks(optional, &mut blocks)?;
    let padding = &random[..30 - key.len()];
    let mut text = [0u8; MAX_CHARACTERS];
    let size = wrap(
        protection,
        header,
        &blocks[..count],
        key,
        padding,
        &mut text,
    )?;
    text_answer(alloc, &text[..size])
}

// The line of the block of the key that digits write.
fn wrap_line(alloc: Global, wrapping: &Wrapping, inputs: Inputs) -> Lines
    ensures fault { FailsAsWrapped wrapping.now inputs.entry result }
    ensures line { IfOk result (λ line. IsWrapped wrapping.now inputs.entry line.items) }
{
    let protection = protection_of(inputs.key)?;
    let key = AnyKey::read(inputs.text, FaultKind::ToKeyLength, FaultKind::ToKeyText)?;
    let header = header_of(wrapping)?;
    let optional = wrapping.optional.as_bytes();
    let (protection, key) = (protection.bytes(), key.bytes());
    block_line(alloc, protection, &header, optional, key, inputs.random)
}
