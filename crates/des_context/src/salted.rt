//! What `openssl enc` encrypted under a password by CBC (manual page openssl-enc(1)), opened.

ghost use Rattle.std.specs.Prelude.{◌≡◌, ◌≢◌, ◌≤◌, ◌+◌, ◌*◌, ◌++◌, ℕ, List, None, IfSome, IfOk, IfErr, length, take, drop};
ghost use Rattle.des_context.specs.Bytes.{AreWhole};
ghost use Rattle.des_context.specs.Contexts.{IsContextOf};
ghost use Rattle.des_context.specs.CipherTypes.{relation_of};
ghost use Rattle.des_context.specs.Keys.{IsKeyLength};
ghost use Rattle.des_context.specs.Salted.{EndsWith, HoldsPlain, IsOpened, IsOpeningFault, IsPartsFault, IsPlainOf, IsSaltedFault, IsUnder, Opens};

use crate::block_modes::decrypt_cbc_blocks;
use crate::ciphers::CipherType;
use crate::contexts::init;
use crate::status::{
    ERR_BLOCKS, ERR_CAPACITY, ERR_HASH, ERR_ITERATIONS, ERR_NOT_SALTED, ERR_PADDING,
    ERR_SALT_LENGTH, OK,
};
use des::cbc::next_vector;
use des::cipher::are_blocks;
use des_io::padding::{Padding, count_before};
use des_passwords::{Derivation, Salted, SaltedError, read_salted};
use std::simd::prelude::*;

// How many blocks are decrypted together: two batches.
const PIECE: usize = 256;

// Writes the plaintext of a few blocks to a buffer of as many bytes.
fn write_piece(context: &[u64], vector: &[u8; 8], blocks: &[[u8; 8]], plain: &mut [u8])
    requires key { (key : List ℕ) × IsContextOf context.now key }
    requires few { length blocks.now ≤ 256 }
    requires count { length plain.old ≡ 8 * length blocks.now }
    ensures { (key : List ℕ) → IsContextOf context.now key
        → IsPlainOf (relation_of key) vector.now blocks.now plain.new }
{
    let mut piece = [[0; 8]; PIECE];
    let piece = &mut piece[..blocks.len()];
    piece.copy_from_slice(blocks);
    let cipher = CipherType::of_key_size(context.len() / 2);
    decrypt_cbc_blocks::<u64x2>(cipher, true, context, vector, piece);
    plain.copy_from_slice(piece.as_flattened());
}

// Writes the plaintext of blocks to the front of a buffer.
fn write_front(context: &[u64], vector: &[u8; 8], blocks: &[[u8; 8]], plain: &mut [u8])
    requires key { (key : List ℕ) × IsContextOf context.now key }
    requires capacity { 8 * length blocks.now ≤ length plain.old }
    ensures { (key : List ℕ) → IsContextOf context.now key → (start : List ℕ)
        × IsPlainOf (relation_of key) vector.now blocks.now start
        × (plain.new ≡ start ++ drop (8 * length blocks.now) plain.old) }
{
    let mut from = 0;
    'pieces: while from < blocks.len() {
        let to = blocks.len().min(from + PIECE);
        let previous = next_vector(vector, &blocks[..from]);
        let piece = &mut plain[8 * from..8 * to];
        write_piece(context, &previous, &blocks[from..to], piece);
        from = to;
    }
}

// The blocks before the last one, that one decrypted, and how many bytes of it are before the
// padding; none if there is no block or no padding.
fn end_of<'a>(
    context: &[u64],
    vector: &[u8; 8],
    encrypted: &'a [u8],
) -> Option<(&'a [[u8; 8]], [u8; 8], usize)>
    requires key { (key : List ℕ) × IsContextOf context.now key }
    requires whole { AreWhole encrypted.now }
    ensures none { result ≡ None → (key : List ℕ) → IsContextOf context.now key
        → (plain : List ℕ) → ¬ (IsOpened (relation_of key) vector.now encrypted.now plain) }
    ensures some { IfSome result (λ end. (key : List ℕ) → IsContextOf context.now key → EndsWith
        (relation_of key) vector.now encrypted.now end.0.now (take end.2 end.1)) }
    ensures size { IfSome result (λ end. (8 * length end.0.now + 8 ≡ length encrypted.now)
        × (end.2 ≤ 8)) }
{
    let (blocks, _) = encrypted.as_chunks::<8>();
    are_blocks(blocks);
    let (last, front) = blocks.split_last()?;
    let mut block = [0; 8];
    write_piece(context, &next_vector(vector, front), &[*last], &mut block);
    let count = count_before(Padding::Pkcs7, &block)?;
    Some((front, block, count))
}

// Writes what was encrypted by CBC from a vector, without its padding. The end is decrypted first,
// since nothing may be written if it has no padding.
fn open_blocks(
    context: &[u64],
    vector: &[u8; 8],
    encrypted: &[u8],
    plain: &mut [u8],
    plain_length: &mut usize,
) -> i32
    requires { (key : List ℕ) × IsContextOf context.now key }
    ensures { (key : List ℕ) → IsContextOf context.now key
        → Opens (IsOpened (relation_of key) vector.now encrypted.now)
        (IsOpeningFault (relation_of key) vector.now encrypted.now (length plain.old))
        plain.old plain.new plain_length.old plain_length.new result }
{
    if encrypted.len() % 8 != 0 {
        return ERR_BLOCKS;
    }
    let (front, block, count) = match end_of(context, vector, encrypted) {
        Some(end) => end,
        None => return ERR_PADDING,
    };
    let start = 8 * front.len();
    let size = start + count;
    if plain.len() < size {
        return ERR_CAPACITY;
    }
    write_front(context, vector, front, plain);
    plain[start..size].copy_from_slice(&block[..count]);
    *plain_length = size;
    OK
}

// The key of a password and of a salt, the first `size` bytes of the array, the vector, and what is
// encrypted; or the status of the first fault.
fn derive<'a>(
    size: usize,
    derivation: Option<Derivation>,
    password: &[u8],
    bytes: &'a [u8],
) -> Result<([u8; 32], [u8; 8], &'a [u8]), i32>
    requires { size ≤ 24 }
    ensures fault { IfErr result (λ status. IsPartsFault derivation bytes.now status) }
    ensures refused { IfErr result (λ status. status ≢ OK) }
    ensures parts { IfOk result (λ parts. IsUnder size derivation password.now bytes.now
        (take size parts.0) parts.1 parts.2.now) }
{
    let derivation = derivation.ok_or(ERR_HASH)?;
    let Salted { salt, encrypted } = read_salted(bytes).map_err(|fault| match fault {
        SaltedError::NotSalted => ERR_NOT_SALTED,
        SaltedError::SaltCut => ERR_SALT_LENGTH,
    })?;
    let mut both = [0; 32];
    derivation
        .write_bytes(password, salt, &mut both[..size + 8])
        .map_err(|_| ERR_ITERATIONS)?;
    let mut vector = [0; 8];
    vector.copy_from_slice(&both[size..size + 8]);
    Ok((both, vector, encrypted))
}

/// Writes what `openssl enc` encrypted under a password, without its padding, and how many bytes it
/// has: by DES under a key of 8 bytes, by triple DES in the EDE form under one of 16 or 24. The
/// calls read no table. The status is that of the first fault, and then nothing is written:
/// `ERR_HASH` if there is no derivation, `ERR_NOT_SALTED`, `ERR_SALT_LENGTH`, `ERR_ITERATIONS`,
/// `ERR_BLOCKS`, `ERR_PADDING` and `ERR_CAPACITY`.
pub fn open_salted(
    key_size: usize,
    derivation: Option<Derivation>,
    password: &[u8],
    bytes: &[u8],
    plain: &mut [u8],
    plain_length: &mut usize,
) -> i32
    requires { IsKeyLength key_size }
    ensures { Opens (HoldsPlain key_size derivation password.now bytes.now)
        (IsSaltedFault key_size derivation password.now bytes.now (length plain.old))
        plain.old plain.new plain_length.old plain_length.new result }
{
    let (key, vector, encrypted) = match derive(key_size, derivation, password, bytes) {
        Ok(parts) => parts,
        Err(status) => return status,
    };
    let mut words = [0; 49];
    let context = &mut words[..2 * key_size + 1];
    init(context, &key[..key_size], true);
    open_blocks(context, &vector, encrypted, plain, plain_length)
}
