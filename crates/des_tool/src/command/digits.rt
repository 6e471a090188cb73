//! Keys, vectors and blocks that hexadecimal digits write, and the digits of blocks.

ghost use Rattle.std.specs.Prelude.{◌≡◌, ◌≤◌, ◌*◌, length, IsTrue, None, IfOk, OnOk};
ghost use Rattle.std.specs.List.{All, concat, list_all};
ghost use Rattle.hex.specs.Hex.{is_hex_digit};
ghost use Rattle.des.specs.Blocks.{IsKey, IsBlock};
ghost use Rattle.des_tool.specs.Digits.{bytes_of_digits, text_of_blocks};
ghost use Rattle.des_tool.specs.Fault.{key_fault, vector_fault, blocks_fault, FailsBy, FailsOnlyBy};

use super::fault::Fault;
use des::cipher::KeyInit;
use std::alloc::Global;

// The bytes of the longest key that a cipher has.
pub(super) const MAX_KEY: usize = 24;

// The cipher of the key that the digits write.
pub(super) fn parse_cipher_key<C: KeyInit + Drop>(digits: &str) -> Result<C, Fault>
    requires { C.KEY_SIZE ≤ MAX_KEY }
    ensures fault { FailsOnlyBy (key_fault C.KEY_SIZE digits.now) result }
    ensures key { OnOk result (IsKey C.KEY_SIZE (bytes_of_digits digits.now)) }
    ensures made { IfOk result (λ cipher. C.is_made_from cipher (bytes_of_digits digits.now)) }
{
    let mut buffer = [0u8; MAX_KEY];
    let key = &mut buffer[..C::KEY_SIZE];
    parse_key(digits, key)?;
    Ok(C::new_from_slice(key).unwrap())
}

// Reads the key that the digits write, of the length of `key`.
pub(super) fn parse_key(digits: &str, key: &mut [u8]) -> Result<(), Fault>
    requires { length key.old ≤ MAX_KEY }
    ensures fault { FailsOnlyBy (key_fault (length key.old) digits.now) result }
    ensures key { OnOk result (key.new ≡ bytes_of_digits digits.now) }
    ensures is_key { OnOk result (IsKey (length key.old) (bytes_of_digits digits.now)) }
{
    if digits.len() != 2 * key.len() {
        return Err(Fault::KeyLength);
    }
    if !are_digits(digits) {
        return Err(Fault::KeyText);
    }
    decode(digits.as_bytes(), key);
    Ok(())
}

// Reads the initialization vector that the digits write.
pub(super) fn parse_vector(digits: &str) -> Result<[u8; 8], Fault>
    ensures fault { FailsOnlyBy (vector_fault digits.now) result }
    ensures vector { IfOk result (λ vector. vector ≡ bytes_of_digits digits.now) }
    ensures is_block { OnOk result (IsBlock (bytes_of_digits digits.now)) }
{
    if digits.len() != 16 {
        return Err(Fault::BlockLength);
    }
    if !are_digits(digits) {
        return Err(Fault::BlockText);
    }
    let mut vector = [0u8; 8];
    decode(digits.as_bytes(), &mut vector);
    Ok(vector)
}

// The argument is taken whole before any memory is asked for, so only memory fails after that.
pub(super) fn parse_blocks(alloc: Global, digits: &str) -> Result<Vec<[u8; 8]>, Fault>
    ensures fault { FailsBy (blocks_fault digits.now) result }
    ensures joined { IfOk result (λ blocks. concat blocks.items ≡ bytes_of_digits digits.now) }
    ensures blocks { IfOk result (λ blocks. All IsBlock blocks.items) }
{
    if digits.len() % 16 != 0 {
        return Err(Fault::BlockLength);
    }
    if !are_digits(digits) {
        return Err(Fault::BlockText);
    }
    let (chunks, _) = digits.as_bytes().as_chunks::<16>();
    let mut blocks = Vec::with_capacity(alloc, chunks.len())?;
    for chunk in chunks {
        let mut block = [0u8; 8];
        decode(chunk, &mut block);
        blocks.push(block)?;
    }
    Ok(blocks)
}

fn are_digits(text: &str) -> bool
    ensures { result ≡ list_all is_hex_digit text.now }
{
    text.bytes().all(|digit| digit.is_ascii_hexdigit())
}

fn decode(digits: &[u8], bytes: &mut [u8])
    requires count { length digits.now ≡ 2 * length bytes.old }
    requires digits { IsTrue (list_all is_hex_digit digits.now) }
    ensures { bytes.new ≡ bytes_of_digits digits.now }
{
    hex::decode_to_slice(digits, bytes).unwrap();
}

// The lower-case digits of the blocks, in order, and a newline.
pub(super) fn text_of(alloc: Global, blocks: &[[u8; 8]]) -> Result<Vec<u8>, Fault>
    ensures text { IfOk result (λ text. text.items ≡ text_of_blocks blocks.now) }
    ensures fault { FailsBy None result }
{
    let bytes = blocks.as_flattened();
    let digits = 2 * bytes.len();
    let mut text = Vec::with_capacity(alloc, digits + 1)?;
    text.resize(digits, 0u8)?;
    hex::encode_to_slice(bytes, text.as_mut_slice()).unwrap();
    text.push(b'\n')?;
    Ok(text)
}
