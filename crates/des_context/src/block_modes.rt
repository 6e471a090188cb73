//! ECB and CBC over any context and any width: what blocks become, by the relation of the key that
//! the context is made from. A call refuses words that do not end with the mark of a cipher's init,
//! by `ERR_CONTEXT`, before it looks at anything else. `size` is the caller's number of bytes; a
//! call refuses it unless it is 8 for each block. The cipher is made by the type that reads tables,
//! for contexts without tables too: the calls of lists are told which it is, and read none then.

ghost use Rattle.std.specs.Prelude.{◌≡◌, ◌≢◌, ◌↔◌, ℕ, List, IsTrue};
ghost use Rattle.des.specs.Blocks.{AnswersEach};
ghost use Rattle.des.specs.Cbc.{CbcUnder, next_vector};
ghost use Rattle.des.specs.Relations.{IsTheOne};
ghost use Rattle.des_context.specs.Bytes.{AreBytesOf, FitInto};
ghost use Rattle.des_context.specs.Contexts.{HasCipherType, HasMark, IsContextOf, IsSoundIfMarked};
ghost use Rattle.des_context.specs.CipherTypes.{relation_of};
ghost use Rattle.des_context.specs.declared.ciphers.TheConstants.{NO_MAC};

use crate::ciphers::{CipherType, ContextCipher, NO_MAC, dispatch_cipher, opened};
use crate::status::{ERR_BLOCKS, ERR_CONTEXT, OK};
use des::cbc::next_vector;
use des_fast::many::{ManyBlocks, Slice};

// Encrypts each block by itself, by a cipher.
#[inline(never)]
fn encrypt_by<C: ContextCipher + ManyBlocks, S: Slice>(
    context: &[u64],
    no_tables: bool,
    blocks: &mut [[u8; 8]],
)
    requires cipher_type { HasCipherType C.CIPHER_TYPE context.now }
    requires made { (key : List ℕ) × IsContextOf context.now key }
    ensures { (key : List ℕ) → IsContextOf context.now key
        → IsTheOne (λ ciphertext. AnswersEach (relation_of key) blocks.old ciphertext) blocks.new }
{
    C::of(context).encrypt_list_by::<S>(no_tables, blocks);
}

// Decrypts each block by itself, by a cipher.
#[inline(never)]
fn decrypt_by<C: ContextCipher + ManyBlocks, S: Slice>(
    context: &[u64],
    no_tables: bool,
    blocks: &mut [[u8; 8]],
)
    requires cipher_type { HasCipherType C.CIPHER_TYPE context.now }
    requires made { (key : List ℕ) × IsContextOf context.now key }
    ensures { (key : List ℕ) → IsContextOf context.now key
        → IsTheOne (λ plaintext. AnswersEach (relation_of key) plaintext blocks.old) blocks.new }
{
    C::of(context).decrypt_list_by::<S>(no_tables, blocks);
}

// Encrypts blocks by CBC from the vector, which becomes the last ciphertext block, by a cipher.
#[inline(never)]
fn encrypt_cbc_by<C: ContextCipher + ManyBlocks>(
    context: &[u64],
    no_tables: bool,
    iv: &mut [u8; 8],
    blocks: &mut [[u8; 8]],
)
    requires cipher_type { HasCipherType C.CIPHER_TYPE context.now }
    requires made { (key : List ℕ) × IsContextOf context.now key }
    ensures chained { (key : List ℕ) → IsContextOf context.now key
        → CbcUnder (relation_of key) iv.old blocks.old blocks.new }
    ensures goes_on { iv.new ≡ next_vector iv.old blocks.new }
{
    C::of(context).encrypt_cbc_list(no_tables, iv, blocks);
    *iv = next_vector(iv, blocks);
}

// Decrypts blocks that CBC encrypted from the vector, by a cipher.
#[inline(never)]
fn decrypt_cbc_by<C: ContextCipher + ManyBlocks, S: Slice>(
    context: &[u64],
    no_tables: bool,
    iv: &[u8; 8],
    blocks: &mut [[u8; 8]],
)
    requires cipher_type { HasCipherType C.CIPHER_TYPE context.now }
    requires made { (key : List ℕ) × IsContextOf context.now key }
    ensures { (key : List ℕ) → IsContextOf context.now key
        → CbcUnder (relation_of key) iv.now blocks.new blocks.old }
{
    C::of(context).decrypt_cbc_list_by::<S>(no_tables, iv, blocks);
}

/// Decrypts blocks that CBC encrypted from the vector.
pub(crate) fn decrypt_cbc_blocks<S: Slice>(
    cipher: CipherType,
    no_tables: bool,
    context: &[u64],
    iv: &[u8; 8],
    blocks: &mut [[u8; 8]],
)
    requires cipher_type { HasCipherType cipher context.now }
    requires made { (key : List ℕ) × IsContextOf context.now key }
    ensures { (key : List ℕ) → IsContextOf context.now key
        → CbcUnder (relation_of key) iv.now blocks.new blocks.old }
{
    dispatch_cipher!(cipher, decrypt_cbc_by::<S>(context, no_tables, iv, blocks))
}

/// Encrypts blocks in place, each by itself. The status is `ERR_BLOCKS` if the caller's bytes are
/// not whole blocks; they are then unchanged.
pub fn encrypt_ecb<S: Slice>(context: &[u64], blocks: &mut [[u8; 8]], size: usize) -> i32
    requires { IsSoundIfMarked context.now }
    ensures unmarked { (result ≡ ERR_CONTEXT) ↔ ¬ (HasMark NO_MAC context.now) }
    ensures accepted { (result ≡ OK) ↔ (HasMark NO_MAC context.now × AreBytesOf blocks.old size) }
    ensures refused { (result ≡ ERR_BLOCKS)
        ↔ (HasMark NO_MAC context.now × ¬ (AreBytesOf blocks.old size)) }
    ensures encrypted { result ≡ OK → (key : List ℕ) → IsContextOf context.now key
        → IsTheOne (λ ciphertext. AnswersEach (relation_of key) blocks.old ciphertext) blocks.new }
    ensures kept { result ≢ OK → blocks.new ≡ blocks.old }
{
    let Some((cipher, no_tables)) = opened(NO_MAC, context) else {
        return ERR_CONTEXT;
    };
    if size != blocks.as_flattened().len() {
        return ERR_BLOCKS;
    }
    dispatch_cipher!(cipher, encrypt_by::<S>(context, no_tables, blocks));
    OK
}

/// Decrypts blocks in place, each by itself. The status is as for `encrypt_ecb`.
pub fn decrypt_ecb<S: Slice>(context: &[u64], blocks: &mut [[u8; 8]], size: usize) -> i32
    requires { IsSoundIfMarked context.now }
    ensures unmarked { (result ≡ ERR_CONTEXT) ↔ ¬ (HasMark NO_MAC context.now) }
    ensures accepted { (result ≡ OK) ↔ (HasMark NO_MAC context.now × AreBytesOf blocks.old size) }
    ensures refused { (result ≡ ERR_BLOCKS)
        ↔ (HasMark NO_MAC context.now × ¬ (AreBytesOf blocks.old size)) }
    ensures decrypted { result ≡ OK → (key : List ℕ) → IsContextOf context.now key
        → IsTheOne (λ plaintext. AnswersEach (relation_of key) plaintext blocks.old) blocks.new }
    ensures kept { result ≢ OK → blocks.new ≡ blocks.old }
{
    let Some((cipher, no_tables)) = opened(NO_MAC, context) else {
        return ERR_CONTEXT;
    };
    if size != blocks.as_flattened().len() {
        return ERR_BLOCKS;
    }
    dispatch_cipher!(cipher, decrypt_by::<S>(context, no_tables, blocks));
    OK
}

/// Encrypts blocks in place by CBC from the vector, which becomes the last ciphertext block. The
/// status is `ERR_BLOCKS` if the caller's bytes are not whole blocks; they and the vector then
/// are unchanged.
pub fn encrypt_cbc(context: &[u64], iv: &mut [u8; 8], blocks: &mut [[u8; 8]], size: usize) -> i32
    requires { IsSoundIfMarked context.now }
    ensures unmarked { (result ≡ ERR_CONTEXT) ↔ ¬ (HasMark NO_MAC context.now) }
    ensures accepted { (result ≡ OK) ↔ (HasMark NO_MAC context.now × AreBytesOf blocks.old size) }
    ensures refused { (result ≡ ERR_BLOCKS)
        ↔ (HasMark NO_MAC context.now × ¬ (AreBytesOf blocks.old size)) }
    ensures chained { result ≡ OK → (key : List ℕ) → IsContextOf context.now key
        → CbcUnder (relation_of key) iv.old blocks.old blocks.new }
    ensures goes_on { result ≡ OK → iv.new ≡ next_vector iv.old blocks.new }
    ensures kept { result ≢ OK → (blocks.new ≡ blocks.old) × (iv.new ≡ iv.old) }
{
    let Some((cipher, no_tables)) = opened(NO_MAC, context) else {
        return ERR_CONTEXT;
    };
    if size != blocks.as_flattened().len() {
        return ERR_BLOCKS;
    }
    dispatch_cipher!(cipher, encrypt_cbc_by(context, no_tables, iv, blocks));
    OK
}

/// Decrypts blocks in place that CBC encrypted from the vector, which becomes the last ciphertext
/// block. The status is as for `encrypt_cbc`.
pub fn decrypt_cbc<S: Slice>(
    context: &[u64],
    iv: &mut [u8; 8],
    blocks: &mut [[u8; 8]],
    size: usize,
) -> i32
    requires { IsSoundIfMarked context.now }
    ensures unmarked { (result ≡ ERR_CONTEXT) ↔ ¬ (HasMark NO_MAC context.now) }
    ensures accepted { (result ≡ OK) ↔ (HasMark NO_MAC context.now × AreBytesOf blocks.old size) }
    ensures refused { (result ≡ ERR_BLOCKS)
        ↔ (HasMark NO_MAC context.now × ¬ (AreBytesOf blocks.old size)) }
    ensures chained { result ≡ OK → (key : List ℕ) → IsContextOf context.now key
        → CbcUnder (relation_of key) iv.old blocks.new blocks.old }
    ensures goes_on { result ≡ OK → iv.new ≡ next_vector iv.old blocks.old }
    ensures kept { result ≢ OK → (blocks.new ≡ blocks.old) × (iv.new ≡ iv.old) }
{
    let Some((cipher, no_tables)) = opened(NO_MAC, context) else {
        return ERR_CONTEXT;
    };
    if size != blocks.as_flattened().len() {
        return ERR_BLOCKS;
    }
    let next = next_vector(iv, blocks);
    decrypt_cbc_blocks::<S>(cipher, no_tables, context, iv, blocks);
    *iv = next;
    OK
}

/// Copies blocks to a buffer of as many, if `size` is 8 for each: for a call from one buffer to
/// another, which then goes on in place. Otherwise the status is `ERR_BLOCKS`, and the buffer is
/// unchanged.
pub fn copy_whole(context: &[u64], input: &[[u8; 8]], output: &mut [[u8; 8]], size: usize) -> i32
    ensures unmarked { (result ≡ ERR_CONTEXT) ↔ ¬ (HasMark NO_MAC context.now) }
    ensures accepted { (result ≡ OK)
        ↔ (HasMark NO_MAC context.now × FitInto output.old input.now size) }
    ensures refused { (result ≡ ERR_BLOCKS)
        ↔ (HasMark NO_MAC context.now × ¬ (FitInto output.old input.now size)) }
    ensures made { result ≡ OK → output.new ≡ input.now }
    ensures kept { result ≢ OK → output.new ≡ output.old }
{
    if opened(NO_MAC, context).is_none() {
        return ERR_CONTEXT;
    }
    if input.len() != output.len() || size != input.as_flattened().len() {
        return ERR_BLOCKS;
    }
    output.copy_from_slice(input);
    OK
}
