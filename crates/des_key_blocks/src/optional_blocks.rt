//! The optional blocks of a key block (ANSI X9.143, ASC X9 TR-31), which stand after the header.

ghost use Rattle.std.specs.Prelude.{◌≡◌, ℕ, List, ◌+◌, ◌-◌, ◌*◌, ◌%◌, ◌^◌, ◌<◌, ◌≤◌, ◌⊎◌, ◌==◌, ◌++◌, if◌then◌else◌, length, map, take, drop, codes, Some, Ok, IfSome, IfNone, IsSomeAnd, IfOk, IfErr, OnErr};
ghost use Rattle.std.specs.Result.{result_err};
ghost use Rattle.des_key_blocks.specs.declared.key_block_error.KeyBlockError.TheVariants.{OptionalBlock as NoOptionalBlock};
ghost use Rattle.des_key_blocks.specs.KeyBlocks.{blocks_fault};
ghost use Rattle.des_key_blocks.specs.OptionalBlocks.{long_block, IsOptionalBlock, AreOptionalBlocks, block_text, blocks_text, filled};
ghost use Rattle.des_key_blocks.specs.OptionalBlocks.{size_of as size_of_content, size_of_all as size_of_contents};
ghost use Rattle.des_key_blocks.specs.OptionalBlocks.{is_printable as is_printable_of, are_printable as are_printable_of, is_written as is_written_of, are_written as are_written_of, is_filling as is_filling_of, are_placed as are_placed_of};
ghost use Rattle.des_key_blocks.specs.Hex.{hex_number as hex_number_of};

use crate::hex::{hex_digit, hex_number};
use crate::key_block_error::KeyBlockError;
use crate::key_block_header::{MAX_CHARACTERS, are_alphanumeric};

/// The most optional blocks of a key block.
pub const MAX_BLOCKS: usize = 99;

/// An optional block: its name, two characters, and its content, ASCII characters.
#[derive(Clone, Copy)]
pub struct OptionalBlock<'a> {
    /// The name, as `KS` or `KV`.
    pub name: [u8; 2],
    /// What it says.
    pub content: &'a [u8],
}

// How many characters stand before the content of a block, and how many the block has, if two zeros
// say that a length of four digits follows: after how long it is, in bytes or in digits. Writers
// differ in that; here 02 is written, and both are read.
fn long_extent(text: &[u8]) -> Option<(usize, usize)>
    requires there { 4 ≤ length text.now }
    requires zeros { codes "00" ≡ take 2 (drop 2 text.now) }
    ensures front { IfSome result (λ extent. 2 ≤ extent.0) }
    ensures block { IfSome result (λ extent. extent.0 ≤ extent.1 → extent.1 ≤ length text.now
        → IsOptionalBlock (take 2 text.now) (drop extent.0 (take extent.1 text.now))
        (take extent.1 text.now)) }
    ensures only { (unit : ℕ) (name content rest : List ℕ) → length name ≡ 2
        → (unit ≡ 2) ⊎ (unit ≡ 4) → length content + 10 < 16 ^ 4
        → text.now ≡ long_block unit name content ++ rest
        → result ≡ Some (record { 0 = 10; 1 = length content + 10 }) }
{
    if text.len() < 10 {
        return None;
    }
    let unit = hex_number(&text[4..6])?;
    if unit != 2 && unit != 4 {
        return None;
    }
    let size = hex_number(&text[6..10])?;
    Some((10, size))
}

// How many characters stand before the content of a block, and how many the block has.
fn extent_of(text: &[u8]) -> Option<(usize, usize)>
    ensures front { IfSome result (λ extent. 2 ≤ extent.0) }
    ensures block { IfSome result (λ extent. extent.0 ≤ extent.1 → extent.1 ≤ length text.now
        → IsOptionalBlock (take 2 text.now) (drop extent.0 (take extent.1 text.now))
        (take extent.1 text.now)) }
    ensures only { (name content first rest : List ℕ) → IsOptionalBlock name content first
        → text.now ≡ first ++ rest
        → (front : ℕ) × ((front ≤ length first)
        × (result ≡ Some (record { 0 = front; 1 = length first }))) }
{
    if text.len() < 4 {
        return None;
    }
    match hex_number(&text[2..4])? {
        0 => long_extent(text),
        size => Some((4, size)),
    }
}

// The first optional block of a text that begins with one, and how many characters it has.
pub(crate) fn first_block(text: &[u8]) -> Option<(OptionalBlock<'_>, usize)>
    ensures within { IfSome result (λ found. found.1 ≤ length text.now) }
    ensures first { IfSome result (λ found.
        IsOptionalBlock found.0.name found.0.content.now (take found.1 text.now)) }
    ensures short { IfSome result (λ found. length found.0.content.now ≤ found.1) }
    ensures content { IfSome result (λ found. found.0.content.now ≡ take (length found.0.content.now)
        (drop (found.1 - length found.0.content.now) text.now)) }
    ensures only { (name content first rest : List ℕ) → IsOptionalBlock name content first
        → text.now ≡ first ++ rest → IsSomeAnd result (λ found. found.1 ≡ length first) }
{
    let (front, size) = extent_of(text)?;
    if size < front || text.len() < size {
        return None;
    }
    let block = OptionalBlock {
        name: [text[0], text[1]],
        content: &text[front..size],
    };
    Some((block, size))
}

// How many characters the optional blocks at the beginning of a text have, if there are `count`.
pub(crate) fn size_of_blocks(text: &[u8], count: usize) -> Option<usize>
    ensures within { IfSome result (λ size. size ≤ length text.now) }
    ensures all { IfSome result (λ size. (blocks : List (List ℕ × List ℕ))
        × ((length blocks ≡ count) × AreOptionalBlocks blocks (take size text.now))) }
    ensures only { (blocks : List (List ℕ × List ℕ)) (optional rest : List ℕ)
        → length blocks ≡ count → AreOptionalBlocks blocks optional
        → text.now ≡ optional ++ rest → result ≡ Some (length optional) }
{
    if count == 0 {
        return Some(0);
    }
    let (_, first) = first_block(text)?;
    let rest = size_of_blocks(&text[first..], count - 1)?;
    Some(first + rest)
}

// Reads optional blocks to the front of `blocks`, and returns their number.
fn read_blocks<'a>(
    text: &'a [u8],
    blocks: &mut [OptionalBlock<'a>; MAX_BLOCKS],
) -> Result<usize, KeyBlockError>
    ensures few { IfOk result (λ count. count ≤ 99) }
    ensures read { IfOk result (λ count. AreOptionalBlocks
        (map (λ block. (block.name, block.content.now)) (take count blocks.new)) text.now) }
    ensures rest { IfOk result (λ count. drop count blocks.new ≡ drop count blocks.old) }
    ensures only { (read : List (List ℕ × List ℕ)) → length read ≤ 99
        → AreOptionalBlocks read text.now → result ≡ Ok (length read) }
    ensures fault { IfErr result (λ error. error ≡ NoOptionalBlock) }
{
    let mut count = 0;
    let mut at = 0;
    while at < text.len() {
        if count == MAX_BLOCKS {
            return Err(KeyBlockError::OptionalBlock);
        }
        let Some((block, size)) = first_block(&text[at..]) else {
            return Err(KeyBlockError::OptionalBlock);
        };
        blocks[count] = block;
        count += 1;
        at += size;
    }
    Ok(count)
}

/// Reads optional blocks that stand one after another, as in a key block, to the front of `blocks`,
/// and returns their number; those after them are unchanged. A text that is not such, or holds more
/// than 99, is an error, `OptionalBlock`, and then all of `blocks` is unchanged.
pub fn read_optional_blocks<'a>(
    text: &'a [u8],
    blocks: &mut [OptionalBlock<'a>; MAX_BLOCKS],
) -> Result<usize, KeyBlockError>
    ensures few { IfOk result (λ count. count ≤ 99) }
    ensures read { IfOk result (λ count. AreOptionalBlocks
        (map (λ block. (block.name, block.content.now)) (take count blocks.new)) text.now) }
    ensures rest { IfOk result (λ count. drop count blocks.new ≡ drop count blocks.old) }
    ensures only { (read : List (List ℕ × List ℕ)) → length read ≤ 99
        → AreOptionalBlocks read text.now → result ≡ Ok (length read) }
    ensures fault { IfErr result (λ error. error ≡ NoOptionalBlock) }
    ensures same { OnErr result (blocks.new ≡ blocks.old) }
{
    let mut read = *blocks;
    let count = read_blocks(text, &mut read)?;
    *blocks = read;
    Ok(count)
}

/// Whether a character is a space or a printable one of ASCII.
pub fn is_printable(character: u8) -> bool
    ensures { result ≡ is_printable_of character }
{
    character >= b' ' && character <= b'~'
}

// Whether all characters are such.
fn are_printable(text: &[u8]) -> bool
    ensures { result ≡ are_printable_of text.now }
{
    text.iter().all(|character| is_printable(*character))
}

// Whether a block has a name of letters and digits, and a content of printable characters.
fn is_written(block: &OptionalBlock<'_>) -> bool
    ensures { result ≡ is_written_of (block.now.name, block.now.content.now) }
{
    are_alphanumeric(&block.name) && are_printable(block.content)
}

// Whether all blocks are such.
fn are_written(blocks: &[OptionalBlock<'_>]) -> bool
    ensures { result
        ≡ are_written_of (map (λ block. (block.name, block.content.now)) blocks.now) }
{
    for block in blocks {
        if !is_written(block) {
            return false;
        }
    }
    true
}

// Whether a block has the name of one that fills.
fn is_filling(block: &OptionalBlock<'_>) -> bool
    ensures { result ≡ is_filling_of (block.now.name, block.now.content.now) }
{
    block.name[0] == b'P' && block.name[1] == b'B'
}

// The number of blocks that may not be the filling block `PB`: all, or all but the last if the
// blocks have a multiple of eight characters.
fn unfilling(count: usize, size: usize) -> usize
    ensures { result ≡ (if size % 8 == 0 then count - 1 else count) }
{
    if size % 8 == 0 {
        count.saturating_sub(1)
    } else {
        count
    }
}

// Whether no block is a `PB`. The last may be one if the blocks end with it at a multiple of eight
// characters.
fn are_placed(blocks: &[OptionalBlock<'_>], size: usize) -> bool
    requires { size ≡ size_of_contents (map (λ block. (block.name, block.content.now)) blocks.now) }
    ensures { result
        ≡ are_placed_of (map (λ block. (block.name, block.content.now)) blocks.now) }
{
    let others = &blocks[..unfilling(blocks.len(), size)];
    for block in others {
        if is_filling(block) {
            return false;
        }
    }
    true
}

// The number of characters of an optional block with a content.
fn size_of(content: &[u8]) -> usize
    requires { length content.now ≤ 9999 }
    ensures { result ≡ size_of_content content.now }
{
    if content.len() + 4 < 256 {
        content.len() + 4
    } else {
        content.len() + 10
    }
}

// How many characters optional blocks have, if there are not more than a key block can have.
fn size_of_all(blocks: &[OptionalBlock<'_>]) -> Option<usize>
    ensures some { IfSome result (λ size. (size ≤ 9999) × (size
        ≡ size_of_contents (map (λ block. (block.name, block.content.now)) blocks.now))) }
    ensures none { IfNone result (9999 < size_of_contents
        (map (λ block. (block.name, block.content.now)) blocks.now)) }
{
    let mut size = 0;
    for block in blocks {
        if block.content.len() > MAX_CHARACTERS {
            return None;
        }
        size += size_of(block.content);
        if size > MAX_CHARACTERS {
            return None;
        }
    }
    Some(size)
}

// How many zeros a block `PB` has that fills `size` characters to a multiple of eight.
fn zeros_after(size: usize) -> usize
    ensures { result ≡ (12 - size % 8) % 8 }
{
    (12 - size % 8) % 8
}

// How many characters optional blocks have with the block `PB` that fills them to a multiple of
// eight, if they need one, and how many they are.
pub(crate) fn filled_extent(blocks: &[OptionalBlock<'_>]) -> Result<(usize, usize), KeyBlockError>
    ensures fault { result_err result
        ≡ blocks_fault (map (λ block. (block.name, block.content.now)) blocks.now) }
    ensures size { IfOk result (λ extent. extent.0 ≡ size_of_contents
        (filled (map (λ block. (block.name, block.content.now)) blocks.now))) }
    ensures count { IfOk result (λ extent. extent.1
        ≡ length (filled (map (λ block. (block.name, block.content.now)) blocks.now))) }
    ensures within { IfOk result (λ extent. extent.0 ≤ 10008) }
    ensures few { IfOk result (λ extent. extent.1 < 100) }
    ensures alone { IfOk result (λ _. size_of_contents
        (map (λ block. (block.name, block.content.now)) blocks.now) ≤ 9999) }
{
    if blocks.len() > MAX_BLOCKS || !are_written(blocks) {
        return Err(KeyBlockError::OptionalBlock);
    }
    let size = match size_of_all(blocks) {
        Some(size) => size,
        None => return Err(KeyBlockError::Length),
    };
    if !are_placed(blocks, size) {
        return Err(KeyBlockError::OptionalBlock);
    }
    if size % 8 == 0 {
        return Ok((size, blocks.len()));
    }
    if blocks.len() == MAX_BLOCKS {
        return Err(KeyBlockError::OptionalBlock);
    }
    Ok((size + 4 + zeros_after(size), blocks.len() + 1))
}

// Two hexadecimal digits of a number.
fn two_digits(number: usize) -> [u8; 2]
    ensures { result ≡ hex_number_of 2 number }
{
    [
        hex_digit((number / 16 % 16) as u8),
        hex_digit((number % 16) as u8),
    ]
}

// Writes an optional block.
fn write_block(block: &OptionalBlock<'_>, text: &mut [u8])
    requires size { length text.old ≡ size_of_content block.now.content.now }
    requires few { length block.now.content.now ≤ 9999 }
    ensures is { IsOptionalBlock block.now.name block.now.content.now text.new }
    ensures text { text.new ≡ block_text (block.now.name, block.now.content.now) }
{
    let size = text.len();
    let (name, rest) = text.split_at_mut(2);
    name.copy_from_slice(&block.name);
    let (short, rest) = rest.split_at_mut(2);
    if size < 256 {
        short.copy_from_slice(&two_digits(size));
        rest.copy_from_slice(block.content);
    } else {
        short.copy_from_slice(b"00");
        let (digits, rest) = rest.split_at_mut(2);
        digits.copy_from_slice(b"02");
        let (high, rest) = rest.split_at_mut(2);
        high.copy_from_slice(&two_digits(size / 256));
        let (low, rest) = rest.split_at_mut(2);
        low.copy_from_slice(&two_digits(size));
        rest.copy_from_slice(block.content);
    }
}

// Writes optional blocks, and the block `PB` that fills them to a multiple of eight characters.
pub(crate) fn write_blocks(blocks: &[OptionalBlock<'_>], text: &mut [u8])
    requires blocks { size_of_contents (map (λ block. (block.name, block.content.now)) blocks.now)
        ≤ 9999 }
    requires size { length text.old ≡ size_of_contents
        (filled (map (λ block. (block.name, block.content.now)) blocks.now)) }
    ensures are { AreOptionalBlocks
        (filled (map (λ block. (block.name, block.content.now)) blocks.now)) text.new }
    ensures text { text.new
        ≡ blocks_text (filled (map (λ block. (block.name, block.content.now)) blocks.now)) }
{
    let mut at = 0;
    for block in blocks {
        let end = at + size_of(block.content);
        write_block(block, &mut text[at..end]);
        at = end;
    }
    if at % 8 != 0 {
        let zeros = [b'0'; 8];
        let block = OptionalBlock {
            name: *b"PB",
            content: &zeros[..zeros_after(at)],
        };
        write_block(&block, &mut text[at..]);
    }
}
