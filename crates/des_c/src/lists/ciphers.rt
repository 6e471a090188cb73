//! The exports of ECB, and those that decrypt by CBC.

ghost use Rattle.std.specs.Prelude.{◌≡◌, ◌≢◌, ◌↔◌, ℕ, List};
ghost use Rattle.des.specs.Blocks.{AnswersEach};
ghost use Rattle.des.specs.Cbc.{CbcUnder, next_vector};
ghost use Rattle.des.specs.Relations.{IsTheOne};
ghost use Rattle.des_context.specs.Bytes.{AreBytesOf, FitInto};
ghost use Rattle.des_context.specs.Contexts.{HasMark, IsContextOf, IsSoundIfMarked};
ghost use Rattle.des_context.specs.CipherTypes.{relation_of};

use super::Width;
use des_context::block_modes;
use des_context::ciphers::NO_MAC;
use des_context::status::{ERR_BLOCKS, ERR_CONTEXT, OK};

/// Encrypts bytes in place, each block of eight by itself. The status is `ERR_BLOCKS` if they
/// are not whole blocks; they are then unchanged.
#[unsafe(no_mangle)]
pub extern "C" fn cukvashe_internal_encrypt_ecb(
    context: &[u64],
    blocks: &mut [[u8; 8]],
    size: usize,
) -> i32
    requires { IsSoundIfMarked context.now }
    ensures unmarked { (result ≡ ERR_CONTEXT) ↔ ¬ (HasMark NO_MAC context.now) }
    ensures accepted { (result ≡ OK) ↔ (HasMark NO_MAC context.now × AreBytesOf blocks.old size) }
    ensures refused { (result ≡ ERR_BLOCKS)
        ↔ (HasMark NO_MAC context.now × ¬ (AreBytesOf blocks.old size)) }
    ensures encrypted { result ≡ OK → (key : List ℕ) → IsContextOf context.now key
        → IsTheOne (λ ciphertext. AnswersEach (relation_of key) blocks.old ciphertext) blocks.new }
    ensures kept { result ≢ OK → blocks.new ≡ blocks.old }
{
    block_modes::encrypt_ecb::<Width>(context, blocks, size)
}

/// Decrypts bytes in place, each block of eight by itself. The status is `ERR_BLOCKS` if they
/// are not whole blocks; they are then unchanged.
#[unsafe(no_mangle)]
pub extern "C" fn cukvashe_internal_decrypt_ecb(
    context: &[u64],
    blocks: &mut [[u8; 8]],
    size: usize,
) -> i32
    requires { IsSoundIfMarked context.now }
    ensures unmarked { (result ≡ ERR_CONTEXT) ↔ ¬ (HasMark NO_MAC context.now) }
    ensures accepted { (result ≡ OK) ↔ (HasMark NO_MAC context.now × AreBytesOf blocks.old size) }
    ensures refused { (result ≡ ERR_BLOCKS)
        ↔ (HasMark NO_MAC context.now × ¬ (AreBytesOf blocks.old size)) }
    ensures decrypted { result ≡ OK → (key : List ℕ) → IsContextOf context.now key
        → IsTheOne (λ plaintext. AnswersEach (relation_of key) plaintext blocks.old) blocks.new }
    ensures kept { result ≢ OK → blocks.new ≡ blocks.old }
{
    block_modes::decrypt_ecb::<Width>(context, blocks, size)
}

/// Writes the bytes of `input`, encrypted as by `cukvashe_internal_encrypt_ecb`, to `output`. The
/// status is `ERR_BLOCKS` if they are not whole blocks or the two differ in length; `output`
/// is then unchanged.
#[unsafe(no_mangle)]
pub extern "C" fn cukvashe_internal_encrypt_ecb_to(
    context: &[u64],
    input: &[[u8; 8]],
    output: &mut [[u8; 8]],
    size: usize,
) -> i32
    requires { IsSoundIfMarked context.now }
    ensures unmarked { (result ≡ ERR_CONTEXT) ↔ ¬ (HasMark NO_MAC context.now) }
    ensures accepted { (result ≡ OK)
        ↔ (HasMark NO_MAC context.now × FitInto output.old input.now size) }
    ensures refused { (result ≡ ERR_BLOCKS)
        ↔ (HasMark NO_MAC context.now × ¬ (FitInto output.old input.now size)) }
    ensures encrypted { result ≡ OK → (key : List ℕ) → IsContextOf context.now key
        → IsTheOne (λ ciphertext. AnswersEach (relation_of key) input.now ciphertext) output.new }
    ensures kept { result ≢ OK → output.new ≡ output.old }
{
    match block_modes::copy_whole(context, input, output, size) {
        OK => block_modes::encrypt_ecb::<Width>(context, output, size),
        status => status,
    }
}

/// Writes the bytes of `input`, decrypted as by `cukvashe_internal_decrypt_ecb`, to `output`. The
/// status is as for `cukvashe_internal_encrypt_ecb_to`.
#[unsafe(no_mangle)]
pub extern "C" fn cukvashe_internal_decrypt_ecb_to(
    context: &[u64],
    input: &[[u8; 8]],
    output: &mut [[u8; 8]],
    size: usize,
) -> i32
    requires { IsSoundIfMarked context.now }
    ensures unmarked { (result ≡ ERR_CONTEXT) ↔ ¬ (HasMark NO_MAC context.now) }
    ensures accepted { (result ≡ OK)
        ↔ (HasMark NO_MAC context.now × FitInto output.old input.now size) }
    ensures refused { (result ≡ ERR_BLOCKS)
        ↔ (HasMark NO_MAC context.now × ¬ (FitInto output.old input.now size)) }
    ensures decrypted { result ≡ OK → (key : List ℕ) → IsContextOf context.now key
        → IsTheOne (λ plaintext. AnswersEach (relation_of key) plaintext input.now) output.new }
    ensures kept { result ≢ OK → output.new ≡ output.old }
{
    match block_modes::copy_whole(context, input, output, size) {
        OK => block_modes::decrypt_ecb::<Width>(context, output, size),
        status => status,
    }
}

/// Decrypts bytes in place that CBC encrypted from the vector, which becomes the last ciphertext
/// block. The status is `ERR_BLOCKS` if the bytes are not whole blocks; they and the vector then
/// are unchanged.
#[unsafe(no_mangle)]
pub extern "C" fn cukvashe_internal_decrypt_cbc(
    context: &[u64],
    iv: &mut [u8; 8],
    blocks: &mut [[u8; 8]],
    size: usize,
) -> i32
    requires { IsSoundIfMarked context.now }
    ensures unmarked { (result ≡ ERR_CONTEXT) ↔ ¬ (HasMark NO_MAC context.now) }
    ensures accepted { (result ≡ OK) ↔ (HasMark NO_MAC context.now × AreBytesOf blocks.old size) }
    ensures refused { (result ≡ ERR_BLOCKS)
        ↔ (HasMark NO_MAC context.now × ¬ (AreBytesOf blocks.old size)) }
    ensures chained { result ≡ OK → (key : List ℕ) → IsContextOf context.now key
        → CbcUnder (relation_of key) iv.old blocks.new blocks.old }
    ensures goes_on { result ≡ OK → iv.new ≡ next_vector iv.old blocks.old }
    ensures kept { result ≢ OK → (blocks.new ≡ blocks.old) × (iv.new ≡ iv.old) }
{
    block_modes::decrypt_cbc::<Width>(context, iv, blocks, size)
}

/// Writes the bytes of `input`, decrypted as by `cukvashe_internal_decrypt_cbc`, to `output`. The
/// status is `ERR_BLOCKS` if they are not whole blocks or the two differ in length; `output` and
/// the vector are then unchanged.
#[unsafe(no_mangle)]
pub extern "C" fn cukvashe_internal_decrypt_cbc_to(
    context: &[u64],
    iv: &mut [u8; 8],
    input: &[[u8; 8]],
    output: &mut [[u8; 8]],
    size: usize,
) -> i32
    requires { IsSoundIfMarked context.now }
    ensures unmarked { (result ≡ ERR_CONTEXT) ↔ ¬ (HasMark NO_MAC context.now) }
    ensures accepted { (result ≡ OK)
        ↔ (HasMark NO_MAC context.now × FitInto output.old input.now size) }
    ensures refused { (result ≡ ERR_BLOCKS)
        ↔ (HasMark NO_MAC context.now × ¬ (FitInto output.old input.now size)) }
    ensures chained { result ≡ OK → (key : List ℕ) → IsContextOf context.now key
        → CbcUnder (relation_of key) iv.old output.new input.now }
    ensures goes_on { result ≡ OK → iv.new ≡ next_vector iv.old input.now }
    ensures kept { result ≢ OK → (output.new ≡ output.old) × (iv.new ≡ iv.old) }
{
    match block_modes::copy_whole(context, input, output, size) {
        OK => block_modes::decrypt_cbc::<Width>(context, iv, output, size),
        status => status,
    }
}
