//! Records of blocks, one after another in a list, each in CBC from a vector of its own:
//! once for every cipher and every width.

ghost use Rattle.std.specs.Prelude.{◌≡◌, ◌≢◌, ◌↔◌, ℕ, List, length};
ghost use Rattle.des_fast.specs.Records.{GoOn};
ghost use Rattle.des_context.specs.Bytes.{AreBytesOf};
ghost use Rattle.des_context.specs.CipherTypes.{relation_of};
ghost use Rattle.des_context.specs.Contexts.{HasCipherType, HasMark, IsContextOf, IsSoundIfMarked};
ghost use Rattle.des_context.specs.Records.{AreSizesOf, ChainedByKey, CbcUnderEach};

use crate::ciphers::{CipherType, ContextCipher, NO_MAC, dispatch_cipher, opened};
use crate::status::{ERR_BLOCKS, ERR_CONTEXT, ERR_COUNTS, OK};
use des_fast::many::{Slice, SpreadOnce};

// Encrypts records in place by CBC, by a cipher.
#[inline(never)]
fn encrypt_records_by<C: ContextCipher + SpreadOnce, S: Slice>(
    context: &[u64],
    vectors: &mut [[u8; 8]],
    sizes: &[usize],
    blocks: &mut [[u8; 8]],
) -> i32
    requires cipher_type { HasCipherType C.CIPHER_TYPE context.now }
    requires made { (key : List ℕ) × IsContextOf context.now key }
    ensures { ChainedByKey context.now sizes.now vectors.old vectors.new blocks.old blocks.new
        blocks.old blocks.new result }
{
    let keys = C::of(context).spread_keys::<S>();
    match keys.encrypt_cbc_records(vectors, sizes, blocks) {
        Ok(()) => OK,
        Err(_) => ERR_COUNTS,
    }
}

// Encrypts records in place by CBC, by the cipher of a type.
#[inline(always)]
fn encrypt_records<S: Slice>(
    cipher: CipherType,
    context: &[u64],
    vectors: &mut [[u8; 8]],
    sizes: &[usize],
    blocks: &mut [[u8; 8]],
) -> i32
    requires cipher_type { HasCipherType cipher context.now }
    requires made { (key : List ℕ) × IsContextOf context.now key }
    ensures { ChainedByKey context.now sizes.now vectors.old vectors.new blocks.old blocks.new
        blocks.old blocks.new result }
{
    dispatch_cipher!(
        cipher,
        encrypt_records_by::<S>(context, vectors, sizes, blocks)
    )
}

// Decrypts records in place that CBC encrypted, by a cipher.
#[inline(never)]
fn decrypt_records_by<C: ContextCipher + SpreadOnce, S: Slice>(
    context: &[u64],
    vectors: &mut [[u8; 8]],
    sizes: &[usize],
    blocks: &mut [[u8; 8]],
) -> i32
    requires cipher_type { HasCipherType C.CIPHER_TYPE context.now }
    requires made { (key : List ℕ) × IsContextOf context.now key }
    ensures { ChainedByKey context.now sizes.now vectors.old vectors.new blocks.old blocks.new
        blocks.new blocks.old result }
{
    let keys = C::of(context).spread_keys::<S>();
    match keys.decrypt_cbc_records(vectors, sizes, blocks) {
        Ok(()) => OK,
        Err(_) => ERR_COUNTS,
    }
}

// Decrypts records in place that CBC encrypted, by the cipher of a type.
#[inline(always)]
fn decrypt_records<S: Slice>(
    cipher: CipherType,
    context: &[u64],
    vectors: &mut [[u8; 8]],
    sizes: &[usize],
    blocks: &mut [[u8; 8]],
) -> i32
    requires cipher_type { HasCipherType cipher context.now }
    requires made { (key : List ℕ) × IsContextOf context.now key }
    ensures { ChainedByKey context.now sizes.now vectors.old vectors.new blocks.old blocks.new
        blocks.new blocks.old result }
{
    dispatch_cipher!(
        cipher,
        decrypt_records_by::<S>(context, vectors, sizes, blocks)
    )
}

/// Encrypts records in place by CBC, in step: `sizes[k]` blocks are record k, one record after
/// another in `blocks`, and `vectors[k]`, from which CBC begins, becomes its last ciphertext block.
/// The status is `ERR_CONTEXT` or `ERR_BLOCKS` as for `encrypt_ecb`, and `ERR_COUNTS` if the
/// numbers of vectors and sizes differ, or the sizes do not add up to the number of blocks; vectors
/// and blocks are then unchanged.
pub fn encrypt_cbc_records<S: Slice>(
    context: &[u64],
    vectors: &mut [[u8; 8]],
    sizes: &[usize],
    blocks: &mut [[u8; 8]],
    size: usize,
) -> i32
    requires { IsSoundIfMarked context.now }
    ensures unmarked { (result ≡ ERR_CONTEXT) ↔ ¬ (HasMark NO_MAC context.now) }
    ensures cut { (result ≡ ERR_BLOCKS)
        ↔ (HasMark NO_MAC context.now × ¬ (AreBytesOf blocks.old size)) }
    ensures accepted { (result ≡ OK) ↔ (HasMark NO_MAC context.now
        × AreBytesOf blocks.old size × AreSizesOf sizes.now vectors.old blocks.old) }
    ensures refused { (result ≡ ERR_COUNTS) ↔ (HasMark NO_MAC context.now
        × AreBytesOf blocks.old size × ¬ (AreSizesOf sizes.now vectors.old blocks.old)) }
    ensures chained { result ≡ OK → (key : List ℕ) → IsContextOf context.now key
        → CbcUnderEach (relation_of key) sizes.now vectors.old blocks.old blocks.new }
    ensures goes_on { result ≡ OK → GoOn sizes.now vectors.old blocks.new vectors.new }
    ensures count { (length vectors.new ≡ length vectors.old)
        × (length blocks.new ≡ length blocks.old) }
    ensures kept { result ≢ OK → (vectors.new ≡ vectors.old) × (blocks.new ≡ blocks.old) }
{
    let Some((cipher, _)) = opened(NO_MAC, context) else {
        return ERR_CONTEXT;
    };
    if size != blocks.as_flattened().len() {
        return ERR_BLOCKS;
    }
    encrypt_records::<S>(cipher, context, vectors, sizes, blocks)
}

/// Decrypts records in place that CBC encrypted, as `encrypt_cbc_records` does. The status is as
/// for that call.
pub fn decrypt_cbc_records<S: Slice>(
    context: &[u64],
    vectors: &mut [[u8; 8]],
    sizes: &[usize],
    blocks: &mut [[u8; 8]],
    size: usize,
) -> i32
    requires { IsSoundIfMarked context.now }
    ensures unmarked { (result ≡ ERR_CONTEXT) ↔ ¬ (HasMark NO_MAC context.now) }
    ensures cut { (result ≡ ERR_BLOCKS)
        ↔ (HasMark NO_MAC context.now × ¬ (AreBytesOf blocks.old size)) }
    ensures accepted { (result ≡ OK) ↔ (HasMark NO_MAC context.now
        × AreBytesOf blocks.old size × AreSizesOf sizes.now vectors.old blocks.old) }
    ensures refused { (result ≡ ERR_COUNTS) ↔ (HasMark NO_MAC context.now
        × AreBytesOf blocks.old size × ¬ (AreSizesOf sizes.now vectors.old blocks.old)) }
    ensures chained { result ≡ OK → (key : List ℕ) → IsContextOf context.now key
        → CbcUnderEach (relation_of key) sizes.now vectors.old blocks.new blocks.old }
    ensures goes_on { result ≡ OK → GoOn sizes.now vectors.old blocks.old vectors.new }
    ensures count { (length vectors.new ≡ length vectors.old)
        × (length blocks.new ≡ length blocks.old) }
    ensures kept { result ≢ OK → (vectors.new ≡ vectors.old) × (blocks.new ≡ blocks.old) }
{
    let Some((cipher, _)) = opened(NO_MAC, context) else {
        return ERR_CONTEXT;
    };
    if size != blocks.as_flattened().len() {
        return ERR_BLOCKS;
    }
    decrypt_records::<S>(cipher, context, vectors, sizes, blocks)
}
