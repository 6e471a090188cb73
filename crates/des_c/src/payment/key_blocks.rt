//! The exports of key blocks (ANSI X9.143, ASC X9 TR-31).

ghost use Rattle.std.specs.Prelude.{◌≡◌, ◌≢◌, ◌⊎◌, ◌↔◌, ◌≤◌, ◌+◌, ◌-◌, ℕ, List, [], ◌∷◌, Some, None, IfOk, IsTrue, length as length_of, take, drop, slice_get, slice_index};
ghost use Rattle.std.specs.Result.{result_err};
ghost use Rattle.des_key_blocks.specs.KeyBlockHeaders.{context_text, version_text};
ghost use Rattle.des_key_blocks.specs.KeyBlockReading.{HasFault, HasLayout, HasLayoutFault};
ghost use Rattle.des_key_blocks.specs.KeyBlocks.{wrap_fault, HoldsKey};
ghost use Rattle.des_key_blocks.specs.OptionalBlocks.{AreOptionalBlocks};
ghost use Rattle.des_c.specs.KeyBlockStatuses.{status_of as status_of_fault};
ghost use Rattle.des_c.specs.KeyBlockTexts.{shown, version_fault, AreReadable, IsMade, IsTextOf, IsUnwrapped, IsWrapped, IsWrittenTextOf};
ghost use Rattle.des_c.specs.Statuses.{status_after};
ghost use Rattle.des_c.specs.Texts.{with_zeros};

use super::put;
use des_context::status::{
    ERR_HEADER, ERR_KEY_BLOCK_DIGIT, ERR_KEY_BLOCK_LENGTH, ERR_KEY_BLOCK_MAC, ERR_KEY_DATA_LENGTH,
    ERR_KEY_LENGTH, ERR_NO_OPTIONAL_BLOCK, ERR_OPTIONAL_BLOCK, ERR_PADDING_LENGTH,
    ERR_PROTECTION_KEY_LENGTH, ERR_VERSION, OK,
};
use des_key_blocks::key_block_error::KeyBlockError;
use des_key_blocks::key_block_header::{
    Algorithm, Exportability, Header, ModeOfUse, Usage, Version,
};
use des_key_blocks::key_blocks::{header, key_context, placed_optional_block, unwrap, wrap};
use des_key_blocks::optional_blocks::{MAX_BLOCKS, OptionalBlock, read_optional_blocks};

fn status_of(fault: KeyBlockError) -> i32
    ensures status { result ≡ status_of_fault fault }
    ensures fault { result ≢ OK }
    ensures listed { result ≢ ERR_NO_OPTIONAL_BLOCK }
{
    match fault {
        KeyBlockError::ProtectionKeyLength => ERR_PROTECTION_KEY_LENGTH,
        KeyBlockError::Length => ERR_KEY_BLOCK_LENGTH,
        KeyBlockError::Version => ERR_VERSION,
        KeyBlockError::Header => ERR_HEADER,
        KeyBlockError::OptionalBlock => ERR_OPTIONAL_BLOCK,
        KeyBlockError::DataLength => ERR_KEY_DATA_LENGTH,
        KeyBlockError::Digit => ERR_KEY_BLOCK_DIGIT,
        KeyBlockError::Mac => ERR_KEY_BLOCK_MAC,
        KeyBlockError::KeyLength => ERR_KEY_LENGTH,
        KeyBlockError::PaddingLength => ERR_PADDING_LENGTH,
    }
}

/// The fields of a header, as ASCII characters. A zero byte stands after each text of two.
#[repr(C)]
#[derive(Clone, Copy)]
pub struct HeaderText {
    version: u8,
    usage: [u8; 3],
    algorithm: u8,
    mode: u8,
    key_version: [u8; 3],
    exportability: u8,
}

// A text of two, and a zero byte after it.
fn ended(text: [u8; 2]) -> [u8; 3]
    ensures text { take 2 result ≡ text }
    ensures end { drop 2 result ≡ 0 ∷ [] }
{
    [text[0], text[1], 0]
}

// The characters of a header's fields.
fn text_of(header: &Header) -> HeaderText
    ensures { IsWrittenTextOf result header.now }
{
    HeaderText {
        version: header.version.character(),
        usage: ended(header.usage.text()),
        algorithm: header.algorithm.character(),
        mode: header.mode.character(),
        key_version: ended(header.key_version),
        exportability: header.exportability.character(),
    }
}

// A text of two. What stands after it plays no part.
fn two_of(text: &[u8; 3]) -> [u8; 2]
    ensures { result ≡ take 2 text.now }
{
    [text[0], text[1]]
}

// The version of a block that can be made.
fn version_of(text: &HeaderText) -> Result<Version, KeyBlockError>
    ensures fault { result_err result ≡ version_fault text.now }
    ensures version { IfOk result (λ version. text.now.version ≡ version_text version) }
{
    match text.version {
        b'B' => Ok(Version::B),
        b'C' => Ok(Version::C),
        _ => Err(KeyBlockError::Version),
    }
}

// The header of these characters, whose version is one of a block that can be made.
fn header_of(text: &HeaderText) -> Result<Header, KeyBlockError>
    ensures fault { result_err result ≡ version_fault text.now }
    ensures header { IfOk result (λ header. IsTextOf text.now header) }
{
    Ok(Header {
        version: version_of(text)?,
        usage: Usage::of(two_of(&text.usage)),
        algorithm: Algorithm::of(text.algorithm),
        mode: ModeOfUse::of(text.mode),
        key_version: two_of(&text.key_version),
        exportability: Exportability::of(text.exportability),
    })
}

/// Writes the header and the key of a key block, under a protection key of 16 or 24 bytes: the
/// key's 8, 16 or 24 bytes and then zeros, and how many it has. The status is that of the first
/// fault, of the protection key and then of the block, and then all three are unchanged. Nothing of
/// the key is given before the block is authenticated.
#[unsafe(no_mangle)]
pub extern "C" fn cukvashe_key_block_unwrap(
    protection: &[u8],
    block: &[u8],
    header: &mut HeaderText,
    key: &mut [u8; 24],
    length: &mut usize,
) -> i32
    ensures opened { result ≡ OK
        → IsUnwrapped protection.now block.now header.new key.new length.new }
    ensures only { (of : Header) (bytes : List ℕ) → HoldsKey protection.now block.now of bytes
        → (result ≡ OK) × (key.new ≡ with_zeros 24 bytes) × (length.new ≡ length_of bytes) }
    ensures fault { result ≢ OK → (error : KeyBlockError) × ((result ≡ status_of_fault error)
        × HasFault protection.now block.now error) }
    ensures kept { result ≢ OK → (header.new ≡ header.old) × (key.new ≡ key.old)
        × (length.new ≡ length.old) }
{
    match unwrap(protection, block) {
        Ok((found, opened)) => {
            let bytes = opened.bytes();
            *header = text_of(&found);
            put(bytes, key);
            *length = bytes.len();
            OK
        }
        Err(fault) => status_of(fault),
    }
}

/// Writes the fields of a block's header, with no key. The status is that of the first fault that
/// shows without one, and then `text` is unchanged. Nothing of it is authenticated.
#[unsafe(no_mangle)]
pub extern "C" fn cukvashe_key_block_header(block: &[u8], text: &mut HeaderText) -> i32
    ensures found { result ≡ OK → (layout : HasLayout block.now)
        × IsWrittenTextOf text.new layout.header }
    ensures only { HasLayout block.now → result ≡ OK }
    ensures fault { result ≢ OK → (error : KeyBlockError) × ((result ≡ status_of_fault error)
        × HasLayoutFault block.now error) }
    ensures kept { result ≢ OK → text.new ≡ text.old }
{
    match header(block) {
        Ok(read) => {
            *text = text_of(&read);
            OK
        }
        Err(fault) => status_of(fault),
    }
}

/// Writes where the key of a block may be, as the character of its header, with no key: `0`, `1` or
/// `2`. The status is that of the first fault that shows without one, and then `context` is
/// unchanged. Nothing of it is authenticated.
#[unsafe(no_mangle)]
pub extern "C" fn cukvashe_key_block_context(block: &[u8], context: &mut u8) -> i32
    ensures found { (layout : HasLayout block.now)
        → (result ≡ OK) × (context.new ≡ context_text layout.parts.context) }
    ensures parts { result ≡ OK → HasLayout block.now }
    ensures fault { result ≢ OK → (error : KeyBlockError) × ((result ≡ status_of_fault error)
        × HasLayoutFault block.now error) }
    ensures kept { result ≢ OK → context.new ≡ context.old }
{
    match key_context(block) {
        Ok(found) => {
            *context = found.character();
            OK
        }
        Err(fault) => status_of(fault),
    }
}

/// Writes the optional block of a key block at a place, from 0: its name and a zero byte, where its
/// content begins in the key block, and how many characters it has. The status is that of the key
/// block's first fault that shows without a key, or `ERR_NO_OPTIONAL_BLOCK` if there are no more;
/// all three are then unchanged. Nothing is authenticated.
#[unsafe(no_mangle)]
pub extern "C" fn cukvashe_key_block_optional_block(
    block: &[u8],
    place: usize,
    name: &mut [u8; 3],
    offset: &mut usize,
    length: &mut usize,
) -> i32
    ensures found { (layout : HasLayout block.now) → result ≡ OK → slice_get layout.blocks place
        ≡ Some (take 2 name.new, take length.new (drop offset.new block.now)) }
    ensures place { (layout : HasLayout block.now) → result ≡ OK → AreOptionalBlocks
        (take (place + 1) layout.blocks) (drop 16 (take (offset.new + length.new) block.now)) }
    ensures within { result ≡ OK → offset.new + length.new ≤ length_of block.now }
    ensures none { (layout : HasLayout block.now)
        → (result ≡ ERR_NO_OPTIONAL_BLOCK) ↔ (slice_get layout.blocks place ≡ None) }
    ensures parts { (result ≡ OK) ⊎ (result ≡ ERR_NO_OPTIONAL_BLOCK) → HasLayout block.now }
    ensures end { result ≡ OK → slice_index name.new 2 ≡ 0 }
    ensures fault { result ≢ OK → result ≢ ERR_NO_OPTIONAL_BLOCK → (error : KeyBlockError)
        × ((result ≡ status_of_fault error) × HasLayoutFault block.now error) }
    ensures kept { result ≢ OK → (name.new ≡ name.old) × (offset.new ≡ offset.old)
        × (length.new ≡ length.old) }
{
    match placed_optional_block(block, place) {
        Ok(Some((found, before))) => {
            *name = ended(found.name);
            *offset = before;
            *length = found.content.len();
            OK
        }
        Ok(None) => ERR_NO_OPTIONAL_BLOCK,
        Err(fault) => status_of(fault),
    }
}

// Writes the key block of a header and of optional blocks, and a zero byte after it.
fn write_wrapped(
    protection: &[u8],
    header: &Header,
    optional: &[OptionalBlock<'_>],
    key: &[u8],
    padding: &[u8],
    block: &mut [u8],
    length: &mut usize,
) -> i32
    ensures status { result ≡ status_after status_of_fault (wrap_fault protection.now header.now
        (shown optional.now) key.now padding.now (length_of block.old - 1)) }
    ensures wrapped { result ≡ OK → IsMade protection.now header.now (shown optional.now) key.now
        padding.now (take length.new block.new) length.new }
    ensures end { result ≡ OK → slice_index block.new length.new ≡ 0 }
    ensures rest { result ≡ OK
        → drop (length.new + 1) block.new ≡ drop (length.new + 1) block.old }
    ensures kept { result ≢ OK → (block.new ≡ block.old) × (length.new ≡ length.old) }
{
    let capacity = block.len().saturating_sub(1);
    match wrap(
        protection,
        header,
        optional,
        key,
        padding,
        &mut block[..capacity],
    ) {
        Ok(size) => {
            block[size] = 0;
            *length = size;
            OK
        }
        Err(fault) => status_of(fault),
    }
}

/// Writes the key block of a header, of optional blocks, one after the other, and of a key of 8, 16
/// or 24 bytes with random padding, under a protection key of 16 or 24 bytes; then a zero byte, for
/// which there has to be space; and how many characters the block has without it.
///
/// The status is that of the first fault, and then `block` and `length` are unchanged:
/// `ERR_VERSION` if the version is neither `B` nor `C`; `ERR_OPTIONAL_BLOCK` if the optional blocks
/// can't be read, or are more than 99; and then as `wrap` says.
#[unsafe(no_mangle)]
pub extern "C" fn cukvashe_key_block_wrap(
    protection: &[u8],
    header: &HeaderText,
    optional: &[u8],
    key: &[u8],
    padding: &[u8],
    block: &mut [u8],
    length: &mut usize,
) -> i32
    ensures version { version_fault header.now ≢ None → result ≡ ERR_VERSION }
    ensures status { version_fault header.now ≡ None → AreReadable optional.now
        → (of : Header) × ((blocks : List (List ℕ × List ℕ)) × (IsTextOf header.now of
        × AreOptionalBlocks blocks optional.now
        × (result ≡ status_after status_of_fault (wrap_fault protection.now of blocks
        key.now padding.now (length_of block.old - 1))))) }
    ensures unread { version_fault header.now ≡ None → ¬ (AreReadable optional.now)
        → result ≡ ERR_OPTIONAL_BLOCK }
    ensures wrapped { result ≡ OK → IsWrapped protection.now header.now optional.now key.now
        padding.now (take length.new block.new) length.new }
    ensures end { result ≡ OK → slice_index block.new length.new ≡ 0 }
    ensures rest { result ≡ OK
        → drop (length.new + 1) block.new ≡ drop (length.new + 1) block.old }
    ensures kept { result ≢ OK → (block.new ≡ block.old) × (length.new ≡ length.old) }
{
    let header = match header_of(header) {
        Ok(header) => header,
        Err(fault) => return status_of(fault),
    };
    let none = OptionalBlock {
        name: [0; 2],
        content: &[],
    };
    let mut blocks = [none; MAX_BLOCKS];
    let count = match read_optional_blocks(optional, &mut blocks) {
        Ok(count) => count,
        Err(fault) => return status_of(fault),
    };
    write_wrapped(
        protection,
        &header,
        &blocks[..count],
        key,
        padding,
        block,
        length,
    )
}
