//! The text that answers the arguments.

ghost use Rattle.std.specs.Prelude.{◌≡◌, ◌≤◌, map, IfOk};
ghost use Rattle.std.specs.Option.{option_or};
ghost use Rattle.des.specs.Blocks.{AnswersEach};
ghost use Rattle.des.specs.Cbc.{CbcUnder, Cbc, CbcDecrypts};
ghost use Rattle.des.specs.Relations.{IsTheOne};
ghost use Rattle.des_tool.specs.Digits.{bytes_of_digits};
ghost use Rattle.des_tool.specs.Request.{of_blocks, of_cbc, texts};
ghost use Rattle.des_tool.specs.Fault.{key_fault, tested_key_fault, vector_fault, blocks_fault, fault_of_request, fault_of, FailsBy};
ghost use Rattle.des_tool.specs.Answer.{ReadIn, IsTextOf, IsVerdict, AnswersRequest, IsAnswer};
ghost use Rattle.des_tool.specs.Ciphers.{in_direction, IsMadeBy};

use super::digits::{MAX_KEY, parse_blocks, parse_cipher_key, parse_key, parse_vector, text_of};
use super::fault::Fault;
use super::request::{CbcCipher, Cipher, Command, Direction, parse};
use des::cipher::{BlockCipher, KeyedCipher};
use des::{Des, TdesEde2, TdesEde3, TdesEee2, TdesEee3, WeakKeyError, cbc, weak_key_test};
use std::alloc::Global;

/// The text that answers the arguments of a command line, without the program's own name.
///
/// `CIPHER encrypt KEY BLOCKS` enciphers blocks of 8 bytes, and `CIPHER decrypt KEY BLOCKS`
/// deciphers them, each block on its own. `CIPHER` is `des`, with a key of 8 bytes, `ede3` or
/// `eee3`, with one of 24, or `ede2` or `eee2`, with one of 16. `KEY` and `BLOCKS` are hexadecimal
/// digits in either case, two a byte; no block at all is a list too. The answer is the blocks'
/// lower-case digits, in order, and a newline.
///
/// `CBC-CIPHER encrypt KEY VECTOR BLOCKS` enciphers blocks by cipher block chaining (FIPS 81), from
/// an initialization vector of 8 bytes, and `CBC-CIPHER decrypt KEY VECTOR BLOCKS` deciphers them.
/// `CBC-CIPHER` is `des-cbc`, with a key of 8 bytes, or `ede3-cbc`, with one of 24; the rest is as
/// above.
///
/// `weak KEY` tests a key of 8, 16 or 24 bytes: the answer is `WeakKey` if `weak_key_test`
/// refuses it, else `Ok`, and a newline.
///
/// Every fault but `Memory` is found before any memory is asked for.
pub fn answer(alloc: Global, arguments: &[&str]) -> Result<Vec<u8>, Fault>
    ensures fault { FailsBy (fault_of (texts arguments.now)) result }
    ensures answer { IfOk result (λ text. IsTheOne (IsAnswer (texts arguments.now)) text.items) }
{
    match parse(arguments).ok_or(Fault::Usage)? {
        Command::Blocks {
            cipher,
            direction,
            key,
            blocks,
        } => blocks_text(alloc, cipher, direction, key, blocks),
        Command::Cbc {
            cipher,
            direction,
            key,
            vector,
            blocks,
        } => cbc_text(alloc, cipher, direction, key, vector, blocks),
        Command::Weak { key } => weak_text(alloc, key),
    }
}

fn blocks_text(
    alloc: Global,
    cipher: Cipher,
    direction: Direction,
    key: &str,
    digits: &str,
) -> Result<Vec<u8>, Fault>
    ensures fault { FailsBy
        (fault_of_request (of_blocks cipher direction key.now digits.now)) result }
    ensures answer { IfOk result (λ text.
        AnswersRequest (of_blocks cipher direction key.now digits.now) text.items) }
{
    match cipher {
        Cipher::Des => text_by::<Des>(alloc, direction, key, digits),
        Cipher::Ede3 => text_by::<TdesEde3>(alloc, direction, key, digits),
        Cipher::Eee3 => text_by::<TdesEee3>(alloc, direction, key, digits),
        Cipher::Ede2 => text_by::<TdesEde2>(alloc, direction, key, digits),
        Cipher::Eee2 => text_by::<TdesEee2>(alloc, direction, key, digits),
    }
}

fn text_by<C: KeyedCipher + Drop>(
    alloc: Global,
    direction: Direction,
    key: &str,
    digits: &str,
) -> Result<Vec<u8>, Fault>
    requires { C.KEY_SIZE ≤ MAX_KEY }
    ensures fault { FailsBy
        (option_or (key_fault C.KEY_SIZE key.now) (blocks_fault digits.now)) result }
    ensures answer { IfOk result (λ text. IsTextOf (AnswersEach
        (IsMadeBy (in_direction direction C.encryption C.decryption) C.KEY_SIZE
        (bytes_of_digits key.now)))
        digits.now text.items) }
{
    let cipher: C = parse_cipher_key(key)?;
    let mut blocks = parse_blocks(alloc, digits)?;
    apply_ecb(&cipher, direction, blocks.as_mut_slice());
    text_of(alloc, blocks.as_slice())
}

fn cbc_text(
    alloc: Global,
    cipher: CbcCipher,
    direction: Direction,
    key: &str,
    vector: &str,
    digits: &str,
) -> Result<Vec<u8>, Fault>
    ensures fault { FailsBy
        (fault_of_request (of_cbc cipher direction key.now vector.now digits.now)) result }
    ensures answer { IfOk result (λ text.
        AnswersRequest (of_cbc cipher direction key.now vector.now digits.now) text.items) }
{
    match cipher {
        CbcCipher::DesCbc => cbc_text_by::<Des>(alloc, direction, key, vector, digits),
        CbcCipher::Ede3Cbc => cbc_text_by::<TdesEde3>(alloc, direction, key, vector, digits),
    }
}

fn cbc_text_by<C: KeyedCipher + Drop>(
    alloc: Global,
    direction: Direction,
    key: &str,
    vector: &str,
    digits: &str,
) -> Result<Vec<u8>, Fault>
    requires { C.KEY_SIZE ≤ MAX_KEY }
    ensures fault { FailsBy (option_or (key_fault C.KEY_SIZE key.now)
        (option_or (vector_fault vector.now) (blocks_fault digits.now))) result }
    ensures answer { IfOk result (λ text. IsTextOf (ReadIn direction
        (CbcUnder (IsMadeBy C.encryption C.KEY_SIZE (bytes_of_digits key.now))
        (bytes_of_digits vector.now)))
        digits.now text.items) }
{
    let cipher: C = parse_cipher_key(key)?;
    let iv = parse_vector(vector)?;
    let mut blocks = parse_blocks(alloc, digits)?;
    apply_cbc(&cipher, direction, &iv, blocks.as_mut_slice());
    text_of(alloc, blocks.as_slice())
}

fn weak_text(alloc: Global, digits: &str) -> Result<Vec<u8>, Fault>
    ensures fault { FailsBy (tested_key_fault digits.now) result }
    ensures answer { IfOk result (λ text.
        IsVerdict (bytes_of_digits digits.now) text.items) }
{
    let size = match digits.len() {
        16 => 8,
        32 => 16,
        48 => 24,
        _ => return Err(Fault::KeyLength),
    };
    let mut buffer = [0u8; MAX_KEY];
    let key = &mut buffer[..size];
    parse_key(digits, key)?;
    let text = match weak_key_test(key) {
        Ok(()) => b"Ok\n".as_slice(),
        Err(WeakKeyError) => b"WeakKey\n".as_slice(),
    };
    Ok(Vec::from_slice(alloc, text)?)
}

fn apply_ecb<C: BlockCipher>(cipher: &C, direction: Direction, blocks: &mut [[u8; 8]])
    ensures { blocks.new
        ≡ map (in_direction direction C.encrypted C.decrypted cipher.now) blocks.old }
{
    match direction {
        Direction::Encrypt => cipher.encrypt_blocks(blocks),
        Direction::Decrypt => cipher.decrypt_blocks(blocks),
    }
}

fn apply_cbc<C: BlockCipher>(cipher: &C, direction: Direction, iv: &[u8; 8], blocks: &mut [[u8; 8]])
    ensures { in_direction direction
        (Cbc (C.encrypted cipher.now)) (CbcDecrypts (C.decrypted cipher.now))
        iv.now blocks.old blocks.new }
{
    match direction {
        Direction::Encrypt => cbc::encrypt(cipher, iv, blocks),
        Direction::Decrypt => cbc::decrypt(cipher, iv, blocks),
    }
}
