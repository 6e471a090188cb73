//! Key blocks (ANSI X9.143, ASC X9 TR-31) of versions B and C, and reading of version A: a key with
//! what it is for, encrypted and authenticated under a protection key (KBPK), as ASCII characters.

ghost use Rattle.std.specs.Prelude.{◌≡◌, ◌+◌, ◌*◌, ◌%◌, ◌<◌, ◌≤◌, ◌++◌, List, ℕ, length, map, take, drop, slice_get, option_map, IfOk, IfErr, IsOkAnd, IfSome, IfNone, OnOk, OnErr, IsTrue};
ghost use Rattle.std.specs.Result.{result_err};
ghost use Rattle.std.specs.List.{All};
ghost use Rattle.des.specs.Blocks.{AreBytes, IsBlock};
ghost use Rattle.des_key_blocks.specs.Hex.{hex_of};
ghost use Rattle.des_key_blocks.specs.declared.key_block_header.KeyContext.TheVariants.{StorageOrExchange};
ghost use Rattle.des_key_blocks.specs.KeyBlockHeaders.{IsHeader, IsNamed, header_text as header_text_of};
ghost use Rattle.des_key_blocks.specs.KeyBlocks.{joined, key_data, mac_size as mac_size_of, is_key as is_key_of, is_protection_key, is_key_data, parts_fault, HasParts, IsSealed, HoldsKey, IsKeyBlock, front_text, size_of_block, wrap_fault};
ghost use Rattle.des_key_blocks.specs.KeyBlockReading.{AreAlike, is_sealed_length as is_sealed_length_of, AreHexDigits, HasLayout, HasLayoutFault, HasSealFault, HasFault};
ghost use Rattle.des_key_blocks.specs.OptionalBlocks.{AreOptionalBlocks, blocks_text, filled, size_of_all as size_of_contents};

use crate::hex::{read_hex, write_hex};
use crate::key_block_error::KeyBlockError;
use crate::key_block_header::{
    Header, KeyContext, MAX_CHARACTERS, Version, header_text, is_written, read_header,
};
use crate::optional_blocks::{
    OptionalBlock, filled_extent, first_block, size_of_blocks, write_blocks,
};
use crate::protection_keys::protection_keys;
use crate::sealing::{mac_size, seal, unseal};
use des::cipher::{are_blocks, are_bytes};
use std::fmt;
use std::marker::Model;

// The characters of a header.
const HEADER: usize = 16;

// The most bytes of key data: a key's length, 24 bytes of key, and six of padding. So blocks of
// keys of triple DES have one length, whatever the key's; a longer key of AES is refused.
const MAX_DATA: usize = 32;

/// A key out of a key block: 8, 16 or 24 bytes.
#[derive(Drop)]
pub struct BlockKey {
    bytes: [u8; 24],
    count: usize,
}

impl Model for BlockKey {
    ghost Value = { List ℕ };

    ghost view = { λ key. take key.count key.bytes };

    ghost invariant = { λ key. key.count ≤ 24 };
}

impl BlockKey {
    /// Its bytes.
    pub fn bytes(&self) -> &[u8]
        ensures { result.now ≡ self.now }
    {
        &self.bytes[..self.count]
    }
}

/// Writes the type's name, and no byte, whatever options are set.
impl fmt::Debug for BlockKey {
    ghost use Rattle.std.specs.Prelude.{codes, Some};
    ghost use Rattle.std.specs.Fmt.{DisplaysOnOk, DisplaysStyledOnOk};

    ghost debug_output = { λ _. Some (codes "BlockKey { ... }") };

    fn fmt<W: fmt::Write>(&self, f: &mut fmt::Formatter<W>) -> fmt::Result
        ensures writes { DisplaysOnOk W.write_str_gives f.old result
            (Some (codes "BlockKey { ... }")) f.new }
        ensures styled { DisplaysStyledOnOk W.write_str_gives f.old result
            (Some (codes "BlockKey { ... }")) f.new }
    {
        f.write_str("BlockKey { ... }")
    }
}

// The header of a block, how many characters it has with the optional blocks, and the key's
// context, or the first fault of these.
fn front_of(block: &[u8]) -> Result<(Header, usize, KeyContext), KeyBlockError>
    ensures least { IfOk result (λ found. 16 ≤ found.1) }
    ensures within { IfOk result (λ found. found.1 ≤ length block.now) }
    ensures found { IfOk result (λ found. (blocks : List (List ℕ × List ℕ))
        × HasParts found.0 blocks (take found.1 block.now) (drop found.1 block.now) block.now) }
    ensures named { IfOk result (λ found. IsNamed found.0) }
    ensures only { (header : Header) (blocks : List (List ℕ × List ℕ)) (front rest : List ℕ)
        → (parts : HasParts header blocks front rest block.now)
        → IsOkAnd result (λ found. AreAlike found.0 header × (found.1 ≡ length front)
        × (found.2 ≡ parts.context)) }
    ensures fault { IfErr result (λ error. HasLayoutFault block.now error) }
{
    let (header, count, context) = read_header(block)?;
    let size = match size_of_blocks(&block[HEADER..], count) {
        Some(size) => size,
        None => return Err(KeyBlockError::OptionalBlock),
    };
    if size % 8 != 0 {
        return Err(KeyBlockError::OptionalBlock);
    }
    Ok((header, HEADER + size, context))
}

// Whether encrypted key data and a MAC can have this many characters.
fn is_sealed_length(version: Version, size: usize) -> bool
    ensures { result ≡ is_sealed_length_of version size }
{
    let mac = 2 * mac_size(version);
    size == mac + 16 || size == mac + 32 || size == mac + 48 || size == mac + 64
}

// The header of a block, how many characters it has with the optional blocks, and the key's
// context, or the first fault that shows without a key.
fn layout_of(block: &[u8]) -> Result<(Header, usize, KeyContext), KeyBlockError>
    ensures least { IfOk result (λ found. 16 ≤ found.1) }
    ensures within { IfOk result (λ found. found.1 ≤ length block.now) }
    ensures found { IfOk result (λ found. (blocks : List (List ℕ × List ℕ))
        × HasParts found.0 blocks (take found.1 block.now) (drop found.1 block.now) block.now) }
    ensures named { IfOk result (λ found. IsNamed found.0) }
    ensures sealed { IfOk result (λ found. IsTrue (is_sealed_length_of found.0.version
        (length (drop found.1 block.now)))) }
    ensures only { (header : Header) (blocks : List (List ℕ × List ℕ)) (front rest : List ℕ)
        → (parts : HasParts header blocks front rest block.now)
        → IsTrue (is_sealed_length_of header.version (length rest))
        → IsOkAnd result (λ found. AreAlike found.0 header × (found.1 ≡ length front)
        × (found.2 ≡ parts.context)) }
    ensures fault { IfErr result (λ error. HasLayoutFault block.now error) }
{
    let (header, front, context) = front_of(block)?;
    if !is_sealed_length(header.version, block.len() - front) {
        return Err(KeyBlockError::DataLength);
    }
    Ok((header, front, context))
}

// Eight of the bytes, from a place.
fn block_from(bytes: &[u8; MAX_DATA], from: usize) -> [u8; 8]
    requires { from + 8 ≤ 32 }
    ensures { result ≡ take 8 (drop from bytes.now) }
{
    let mut block = [0; 8];
    block.copy_from_slice(&bytes[from..from + 8]);
    block
}

// The bytes as blocks.
fn blocks_of(bytes: &[u8; MAX_DATA]) -> [[u8; 8]; 4]
    ensures { joined result ≡ bytes.now }
{
    [
        block_from(bytes, 0),
        block_from(bytes, 8),
        block_from(bytes, 16),
        block_from(bytes, 24),
    ]
}

// The key of key data in clear.
fn key_of(bytes: &[u8]) -> Result<BlockKey, KeyBlockError>
    requires { 2 ≤ length bytes.now }
    ensures opened { IfOk result (λ key.
        (padding : List ℕ) × ((bytes.now ≡ key_data key padding) × IsTrue (is_key_of key))) }
    ensures only { (key padding : List ℕ) → IsTrue (is_key_of key)
        → bytes.now ≡ key_data key padding → IsOkAnd result (λ opened. opened ≡ key) }
    ensures fault { IfErr result (λ error. error ≡ KeyBlockError.KeyLength) }
{
    let bits = 256 * bytes[0] as usize + bytes[1] as usize;
    if bits != 64 && bits != 128 && bits != 192 || bits / 8 + 2 > bytes.len() {
        return Err(KeyBlockError::KeyLength);
    }
    let mut key = [0; 24];
    key[..bits / 8].copy_from_slice(&bytes[2..bits / 8 + 2]);
    Ok(BlockKey {
        bytes: key,
        count: bits / 8,
    })
}

// Encrypted key data, and the MAC at the front of eight bytes.
#[derive(Clone, Copy)]
struct Sealed {
    blocks: [[u8; 8]; 4],
    count: usize,
    mac: [u8; 8],
}

// What stands in hexadecimal digits after the front of a block.
fn read_sealed(version: Version, text: &[u8]) -> Option<Sealed>
    requires { IsTrue (is_sealed_length_of version (length text.now)) }
    ensures some { IfSome result (λ sealed. (1 ≤ sealed.count) × (sealed.count ≤ 4)) }
    ensures blocks { IfSome result (λ sealed. All IsBlock sealed.blocks) }
    ensures mac { IfSome result (λ sealed. AreBytes sealed.mac) }
    ensures text { IfSome result (λ sealed. text.now
        ≡ hex_of (joined (take sealed.count sealed.blocks))
        ++ hex_of (take (mac_size_of version) sealed.mac)) }
    ensures none { IfNone result (¬ (AreHexDigits text.now)) }
{
    let mac_bytes = mac_size(version);
    let count = (text.len() - 2 * mac_bytes) / 16;
    let (front, back) = text.split_at(16 * count);
    let mut bytes = [0; MAX_DATA];
    if !read_hex(front, &mut bytes[..8 * count]) {
        return None;
    }
    let mut mac = [0; 8];
    if !read_hex(back, &mut mac[..mac_bytes]) {
        return None;
    }
    let blocks = blocks_of(&bytes);
    are_blocks(&blocks);
    are_bytes(&mac);
    Some(Sealed { blocks, count, mac })
}

// The key that is sealed after the front of a block, or the first fault of what stands there.
fn sealed_key(
    version: Version,
    protection: &[u8],
    front: &[u8],
    text: &[u8],
) -> Result<BlockKey, KeyBlockError>
    requires protection { IsTrue (is_protection_key protection.now) }
    requires some { 8 ≤ length front.now }
    requires whole { length front.now % 8 ≡ 0 }
    requires text { IsTrue (is_sealed_length_of version (length text.now)) }
    ensures opened { IfOk result (λ key. (padding : List ℕ) × (IsTrue (is_key_data key padding)
        × IsSealed version protection.now front.now (key_data key padding) text.now)) }
    ensures only { (key padding : List ℕ) → IsTrue (is_key_data key padding)
        → IsSealed version protection.now front.now (key_data key padding) text.now
        → IsOkAnd result (λ opened. opened ≡ key) }
    ensures fault { IfErr result (λ error.
        HasSealFault protection.now version front.now text.now error) }
{
    let sealed = match read_sealed(version, text) {
        Some(sealed) => sealed,
        None => return Err(KeyBlockError::Digit),
    };
    let mut blocks = sealed.blocks;
    let part = &mut blocks[..sealed.count];
    let keys = protection_keys(version, protection);
    let mac = &sealed.mac[..mac_size(version)];
    let verdict = unseal(version, &keys, front, mac, part);
    are_blocks(part);
    if verdict.is_err() {
        return Err(KeyBlockError::Mac);
    }
    key_of(part.as_flattened())
}

/// The header and the key of a key block, under a protection key of 16 or 24 bytes. The first fault
/// is reported, in the order of `KeyBlockError`: nothing of the key is given, nor its length looked
/// at, before the block is authenticated.
pub fn unwrap(protection: &[u8], block: &[u8]) -> Result<(Header, BlockKey), KeyBlockError>
    ensures opened { IfOk result (λ opened.
        HoldsKey protection.now block.now opened.0 opened.1) }
    ensures named { IfOk result (λ opened. IsNamed opened.0) }
    ensures exact { (header : Header) (key : List ℕ) → IsNamed header
        → HoldsKey protection.now block.now header key → IsOkAnd result (λ opened.
        (opened.0 ≡ header) × (opened.1 ≡ key)) }
    ensures only { (header : Header) (key : List ℕ) → HoldsKey protection.now block.now header key
        → IsOkAnd result (λ opened. AreAlike opened.0 header × (opened.1 ≡ key)) }
    ensures fault { IfErr result (λ error. HasFault protection.now block.now error) }
{
    if protection.len() != 16 && protection.len() != 24 {
        return Err(KeyBlockError::ProtectionKeyLength);
    }
    let (header, size, _) = layout_of(block)?;
    let (front, text) = block.split_at(size);
    let key = sealed_key(header.version, protection, front, text)?;
    Ok((header, key))
}

/// The fields of a block's header, or the block's first fault, as far as it has one that shows
/// without a key. Nothing of it is authenticated.
pub fn header(block: &[u8]) -> Result<Header, KeyBlockError>
    ensures found { IfOk result (λ header. (blocks : List (List ℕ × List ℕ))
        × ((front : List ℕ) × ((rest : List ℕ) × (HasParts header blocks front rest block.now
        × IsTrue (is_sealed_length_of header.version (length rest)))))) }
    ensures named { IfOk result (λ header. IsNamed header) }
    ensures only { (header : Header) (blocks : List (List ℕ × List ℕ)) (front rest : List ℕ)
        → HasParts header blocks front rest block.now
        → IsTrue (is_sealed_length_of header.version (length rest))
        → IsOkAnd result (λ found. AreAlike found header) }
    ensures fault { IfErr result (λ error. HasLayoutFault block.now error) }
{
    let (header, _, _) = layout_of(block)?;
    Ok(header)
}

/// Where the key of a block may be, by the block's header, or the block's first fault, as far as it
/// has one that shows without a key. Nothing of it is authenticated: `unwrap` does that.
pub fn key_context(block: &[u8]) -> Result<KeyContext, KeyBlockError>
    ensures parts { IfOk result (λ _. HasLayout block.now) }
    ensures found { (layout : HasLayout block.now)
        → IsOkAnd result (λ context. context ≡ layout.parts.context) }
    ensures fault { IfErr result (λ error. HasLayoutFault block.now error) }
{
    let (_, _, context) = layout_of(block)?;
    Ok(context)
}

// The block at a place, from 0, of a text of optional blocks, and how many characters stand before
// its content, or `None` if there are no more.
fn block_at(text: &[u8], place: usize) -> Option<(OptionalBlock<'_>, usize)>
    ensures within { IfSome result (λ found.
        found.1 + length found.0.content.now ≤ length text.now) }
    ensures content { IfSome result (λ found. found.0.content.now
        ≡ take (length found.0.content.now) (drop found.1 text.now)) }
    ensures found { (blocks : List (List ℕ × List ℕ)) → AreOptionalBlocks blocks text.now
        → option_map (λ found. (found.0.name, found.0.content.now)) result
        ≡ slice_get blocks place }
    ensures end { (blocks : List (List ℕ × List ℕ)) → AreOptionalBlocks blocks text.now
        → IfSome result (λ found. AreOptionalBlocks (take (place + 1) blocks)
        (take (found.1 + length found.0.content.now) text.now)) }
{
    let (block, size) = first_block(text)?;
    if place == 0 {
        return Some((block, size - block.content.len()));
    }
    let (block, before) = block_at(&text[size..], place - 1)?;
    Some((block, size + before))
}

/// The optional block of a block at a place, from 0, and how many characters of the block stand
/// before its content, or `None` if there are no more. Nothing of it is authenticated.
pub fn placed_optional_block(
    block: &[u8],
    place: usize,
) -> Result<Option<(OptionalBlock<'_>, usize)>, KeyBlockError>
    ensures parts { IfOk result (λ _. HasLayout block.now) }
    ensures found { (layout : HasLayout block.now) → IsOkAnd result (λ found.
        option_map (λ found. (found.0.name, found.0.content.now)) found
        ≡ slice_get layout.blocks place) }
    ensures within { IfOk result (λ found. IfSome found (λ found.
        found.1 + length found.0.content.now ≤ length block.now)) }
    ensures content { IfOk result (λ found. IfSome found (λ found. found.0.content.now
        ≡ take (length found.0.content.now) (drop found.1 block.now))) }
    ensures end { (layout : HasLayout block.now) → IfOk result (λ found. IfSome found (λ found.
        AreOptionalBlocks (take (place + 1) layout.blocks)
        (drop 16 (take (found.1 + length found.0.content.now) block.now)))) }
    ensures fault { IfErr result (λ error. HasLayoutFault block.now error) }
{
    let (_, size, _) = layout_of(block)?;
    match block_at(&block[HEADER..size], place) {
        Some((found, before)) => Ok(Some((found, HEADER + before))),
        None => Ok(None),
    }
}

/// The optional block of a block at a place, from 0, or `None` if there are no more. Nothing of
/// it is authenticated.
pub fn optional_block(
    block: &[u8],
    place: usize,
) -> Result<Option<OptionalBlock<'_>>, KeyBlockError>
    ensures found { IfOk result (λ found. (header : Header) × ((blocks : List (List ℕ × List ℕ))
        × ((front : List ℕ) × ((rest : List ℕ) × (HasParts header blocks front rest block.now
        × IsTrue (is_sealed_length_of header.version (length rest))))))) }
    ensures only { (header : Header) (blocks : List (List ℕ × List ℕ)) (front rest : List ℕ)
        → HasParts header blocks front rest block.now
        → IsTrue (is_sealed_length_of header.version (length rest))
        → IsOkAnd result (λ found. option_map (λ block. (block.name, block.content.now)) found
        ≡ slice_get blocks place) }
    ensures fault { IfErr result (λ error. HasLayoutFault block.now error) }
{
    match placed_optional_block(block, place)? {
        Some((found, _)) => Ok(Some(found)),
        None => Ok(None),
    }
}

// Key data: the key's length in bits, the key and the padding, and zeros to 32 bytes.
fn data_of(key: &[u8], padding: &[u8]) -> [u8; MAX_DATA]
    requires key { length key.now ≤ 24 }
    requires padding { 2 + length key.now + length padding.now ≤ 32 }
    ensures { take (2 + length key.now + length padding.now) result
        ≡ key_data key.now padding.now }
{
    let mut bytes = [0; MAX_DATA];
    let (bits, rest) = bytes.split_at_mut(2);
    bits.copy_from_slice(&(8 * key.len() as u16).to_be_bytes());
    let (front, rest) = rest.split_at_mut(key.len());
    front.copy_from_slice(key);
    rest[..padding.len()].copy_from_slice(padding);
    bytes
}

// Whether a key has one part, two or three.
fn is_key(key: &[u8]) -> bool
    ensures { result ≡ is_key_of key.now }
{
    key.len() == 8 || key.len() == 16 || key.len() == 24
}

// The fault of what a block is to be made of, if it has one.
fn check_parts(
    protection: &[u8],
    header: &Header,
    key: &[u8],
    padding: &[u8],
) -> Result<(), KeyBlockError>
    ensures fault { result_err result ≡ parts_fault protection.now header.now key.now padding.now }
    ensures protection { OnOk result (IsTrue (is_protection_key protection.now)) }
    ensures clear { OnOk result (IsTrue (is_key_data key.now padding.now)) }
    ensures small { OnOk result (2 + length key.now + length padding.now ≤ 32) }
{
    if protection.len() != 16 && protection.len() != 24 {
        return Err(KeyBlockError::ProtectionKeyLength);
    }
    if header.version == Version::A {
        return Err(KeyBlockError::Version);
    }
    if !is_written(header) {
        return Err(KeyBlockError::Header);
    }
    if !is_key(key) {
        return Err(KeyBlockError::KeyLength);
    }
    if padding.len() > MAX_DATA - 2 - key.len() || (2 + key.len() + padding.len()) % 8 != 0 {
        return Err(KeyBlockError::PaddingLength);
    }
    Ok(())
}

// Writes a header and optional blocks, with one that fills them if they need it.
fn write_front(
    header: &Header,
    optional: &[OptionalBlock<'_>],
    size: usize,
    count: usize,
    front: &mut [u8],
)
    requires size { size < 10000 }
    requires count { count < 100 }
    requires blocks { size_of_contents (map (λ block. (block.name, block.content.now)) optional.now)
        ≤ 9999 }
    requires front { length front.old ≡ 16 + size_of_contents
        (filled (map (λ block. (block.name, block.content.now)) optional.now)) }
    ensures is_header { IsHeader header.now }
    ensures are { AreOptionalBlocks
        (filled (map (λ block. (block.name, block.content.now)) optional.now))
        (blocks_text (filled (map (λ block. (block.name, block.content.now)) optional.now))) }
    ensures text { front.new ≡ header_text_of header.now StorageOrExchange size count
        ++ blocks_text (filled (map (λ block. (block.name, block.content.now)) optional.now)) }
{
    let (fields, blocks) = front.split_at_mut(HEADER);
    fields.copy_from_slice(&header_text(header, size, count));
    write_blocks(optional, blocks);
}

// Writes key data, encrypted and authenticated after the front of a block.
fn write_sealed(
    version: Version,
    protection: &[u8],
    front: &[u8],
    key: &[u8],
    padding: &[u8],
    text: &mut [u8],
)
    requires protection { IsTrue (is_protection_key protection.now) }
    requires some { 8 ≤ length front.now }
    requires whole { length front.now % 8 ≡ 0 }
    requires clear { IsTrue (is_key_data key.now padding.now) }
    requires text { length text.old
        ≡ 2 * (2 + length key.now + length padding.now + mac_size_of version) }
    ensures { IsSealed version protection.now front.now (key_data key.now padding.now) text.new }
{
    let bytes = 2 + key.len() + padding.len();
    let clear = data_of(key, padding);
    let mut blocks = blocks_of(&clear);
    are_blocks(&blocks);
    let part = &mut blocks[..bytes / 8];
    let keys = protection_keys(version, protection);
    let tag = seal(version, &keys, front, part);
    let (digits, mac) = text.split_at_mut(2 * bytes);
    write_hex(part.as_flattened(), digits);
    write_hex(&tag[..mac_size(version)], mac);
}

/// Writes the key block of a header, optional blocks, a key of 8, 16 or 24 bytes and random padding
/// under a protection key of 16 or 24 bytes to the front of `text`, and returns how many characters
/// it has.
///
/// The padding fills the last eight bytes after two bytes of length and the key; 22, 14 or 6 bytes
/// of it hide how long the key is. If the optional blocks do not fill eight characters, a block
/// `PB` of zeros does. A block's length has two digits if they hold it, else the longer form. The
/// key's context is `StorageOrExchange`.
///
/// The first fault is reported, in this order: `ProtectionKeyLength`; `Version`, if it is `A`;
/// `Header`, if a field has other characters than letters and digits; `KeyLength`; `PaddingLength`;
/// `OptionalBlock`, if there are more than 99, or one has a name that is not letters and digits or
/// a content that is not printable ASCII; `Length`, if they have more than 9999 characters;
/// `OptionalBlock`, if a `PB` is not their last, or does not end at a multiple of eight characters,
/// or if one more than 99 would have to fill them; `Length`, if the block has more than 9999
/// characters or `text` is too short. After a fault `text` is what it was, and otherwise what
/// stands in it after the block is.
pub fn wrap(
    protection: &[u8],
    header: &Header,
    optional: &[OptionalBlock<'_>],
    key: &[u8],
    padding: &[u8],
    text: &mut [u8],
) -> Result<usize, KeyBlockError>
    ensures fault { result_err result ≡ wrap_fault protection.now header.now
        (map (λ block. (block.name, block.content.now)) optional.now)
        key.now padding.now (length text.old) }
    ensures within { IfOk result (λ size. size ≤ length text.new) }
    ensures size { IfOk result (λ size. size ≡ size_of_block header.now.version
        (map (λ block. (block.name, block.content.now)) optional.now) key.now padding.now) }
    ensures text { IfOk result (λ size. (sealed : List ℕ) × ((take size text.new
        ≡ front_text header.now
        (filled (map (λ block. (block.name, block.content.now)) optional.now)) size ++ sealed)
        × IsSealed header.now.version protection.now (front_text header.now
        (filled (map (λ block. (block.name, block.content.now)) optional.now)) size)
        (key_data key.now padding.now) sealed)) }
    ensures wrapped { IfOk result (λ size. IsKeyBlock protection.now header.now
        (filled (map (λ block. (block.name, block.content.now)) optional.now))
        key.now padding.now (take size text.new)) }
    ensures rest { IfOk result (λ size. drop size text.new ≡ drop size text.old) }
    ensures same { OnErr result (text.new ≡ text.old) }
{
    check_parts(protection, header, key, padding)?;
    let (size, count) = filled_extent(optional)?;
    let front = HEADER + size;
    let whole = front + 2 * (2 + key.len() + padding.len() + mac_size(header.version));
    if whole > text.len() || whole > MAX_CHARACTERS {
        return Err(KeyBlockError::Length);
    }
    let (block, _) = text.split_at_mut(whole);
    let (front, rest) = block.split_at_mut(front);
    write_front(header, optional, whole, count, front);
    write_sealed(header.version, protection, front, key, padding, rest);
    Ok(whole)
}
