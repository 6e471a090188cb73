//! The exports of records in CBC, each from a vector of its own.

ghost use Rattle.std.specs.Prelude.{◌≡◌, ◌≢◌, ◌↔◌, ℕ, List, length};
ghost use Rattle.des_fast.specs.Records.{GoOn};
ghost use Rattle.des_context.specs.Bytes.{AreBytesOf};
ghost use Rattle.des_context.specs.CipherTypes.{relation_of};
ghost use Rattle.des_context.specs.Contexts.{HasMark, IsContextOf, IsSoundIfMarked};
ghost use Rattle.des_context.specs.Records.{AreSizesOf, CbcUnderEach};

use super::Width;
use des_context::ciphers::NO_MAC;
use des_context::records::{decrypt_cbc_records, encrypt_cbc_records};
use des_context::status::{ERR_BLOCKS, ERR_CONTEXT, ERR_COUNTS, OK};

/// Encrypts records in place by CBC: `counts[k]` blocks are record k, one record after another, and
/// `vectors[k]`, from which CBC begins, becomes its last ciphertext block. The status is
/// `ERR_COUNTS` if the numbers of vectors and counts differ, or the counts do not add up to the
/// number of blocks; vectors and blocks are then unchanged.
#[unsafe(no_mangle)]
pub extern "C" fn cukvashe_internal_encrypt_cbc_records(
    context: &[u64],
    vectors: &mut [[u8; 8]],
    counts: &[usize],
    blocks: &mut [[u8; 8]],
    size: usize,
) -> i32
    requires { IsSoundIfMarked context.now }
    ensures unmarked { (result ≡ ERR_CONTEXT) ↔ ¬ (HasMark NO_MAC context.now) }
    ensures cut { (result ≡ ERR_BLOCKS)
        ↔ (HasMark NO_MAC context.now × ¬ (AreBytesOf blocks.old size)) }
    ensures accepted { (result ≡ OK) ↔ (HasMark NO_MAC context.now
        × AreBytesOf blocks.old size × AreSizesOf counts.now vectors.old blocks.old) }
    ensures refused { (result ≡ ERR_COUNTS) ↔ (HasMark NO_MAC context.now
        × AreBytesOf blocks.old size × ¬ (AreSizesOf counts.now vectors.old blocks.old)) }
    ensures chained { result ≡ OK → (key : List ℕ) → IsContextOf context.now key
        → CbcUnderEach (relation_of key) counts.now vectors.old blocks.old blocks.new }
    ensures goes_on { result ≡ OK → GoOn counts.now vectors.old blocks.new vectors.new }
    ensures count { (length vectors.new ≡ length vectors.old)
        × (length blocks.new ≡ length blocks.old) }
    ensures kept { result ≢ OK → (vectors.new ≡ vectors.old) × (blocks.new ≡ blocks.old) }
{
    encrypt_cbc_records::<Width>(context, vectors, counts, blocks, size)
}

/// Decrypts records in place that CBC encrypted. The status is as for encryption.
#[unsafe(no_mangle)]
pub extern "C" fn cukvashe_internal_decrypt_cbc_records(
    context: &[u64],
    vectors: &mut [[u8; 8]],
    counts: &[usize],
    blocks: &mut [[u8; 8]],
    size: usize,
) -> i32
    requires { IsSoundIfMarked context.now }
    ensures unmarked { (result ≡ ERR_CONTEXT) ↔ ¬ (HasMark NO_MAC context.now) }
    ensures cut { (result ≡ ERR_BLOCKS)
        ↔ (HasMark NO_MAC context.now × ¬ (AreBytesOf blocks.old size)) }
    ensures accepted { (result ≡ OK) ↔ (HasMark NO_MAC context.now
        × AreBytesOf blocks.old size × AreSizesOf counts.now vectors.old blocks.old) }
    ensures refused { (result ≡ ERR_COUNTS) ↔ (HasMark NO_MAC context.now
        × AreBytesOf blocks.old size × ¬ (AreSizesOf counts.now vectors.old blocks.old)) }
    ensures chained { result ≡ OK → (key : List ℕ) → IsContextOf context.now key
        → CbcUnderEach (relation_of key) counts.now vectors.old blocks.new blocks.old }
    ensures goes_on { result ≡ OK → GoOn counts.now vectors.old blocks.old vectors.new }
    ensures count { (length vectors.new ≡ length vectors.old)
        × (length blocks.new ≡ length blocks.old) }
    ensures kept { result ≢ OK → (vectors.new ≡ vectors.old) × (blocks.new ≡ blocks.old) }
{
    decrypt_cbc_records::<Width>(context, vectors, counts, blocks, size)
}
