//! Records of any lengths under keys that are spread over slices once: what a caller of
//! `encrypt_cbc_records` can promise, of any cipher that spreads its keys and at any width, by the
//! laws of the traits.

ghost use Rattle.std.specs.Prelude.{◌≡◌, ◌↔◌, ◌<◌, ℕ, length, sum, slice_index_or, IsOk, OnOk, OnErr, []};
ghost use Rattle.des.specs.Cbc.{Cbc, next_vector};
ghost use Rattle.des_fast.specs.Records.{record_of};

use des::cipher::{BlockCipher, NotEqualError};
use des_fast::many::{Slice, SpreadOnce};

/// Encrypts records in place by CBC, each from the vector at its place: record k has `sizes[k]`
/// blocks. Each vector becomes the one with which its CBC goes on. Sizes that are not those of
/// the vectors and the blocks are `NotEqualError`, and nothing changes.
pub fn encrypt_records<S: Slice, C: BlockCipher + SpreadOnce>(
    cipher: &C,
    vectors: &mut [[u8; 8]],
    sizes: &[usize],
    blocks: &mut [[u8; 8]],
) -> Result<(), NotEqualError>
    ensures accepted { IsOk result ↔ ((length vectors.old ≡ length sizes.now)
        × (sum sizes.now ≡ length blocks.old)) }
    ensures chained { OnOk result ((k : ℕ) → k < length vectors.old
        → Cbc (C.encrypted cipher.now) (slice_index_or vectors.old k [])
        (record_of sizes.now blocks.old k) (record_of sizes.now blocks.new k)) }
    ensures goes_on { OnOk result ((k : ℕ) → k < length vectors.old
        → slice_index_or vectors.new k []
        ≡ next_vector (slice_index_or vectors.old k []) (record_of sizes.now blocks.new k)) }
    ensures kept { OnErr result ((vectors.new ≡ vectors.old) × (blocks.new ≡ blocks.old)) }
{
    let keys = cipher.spread_keys::<S>();
    keys.encrypt_cbc_records(vectors, sizes, blocks)?;
    Ok(())
}

/// Reads such records: what stands in place of each is what CBC encrypts to it. Each vector
/// becomes the one with which its CBC goes on.
pub fn read_records<S: Slice, C: BlockCipher + SpreadOnce>(
    cipher: &C,
    vectors: &mut [[u8; 8]],
    sizes: &[usize],
    blocks: &mut [[u8; 8]],
) -> Result<(), NotEqualError>
    ensures accepted { IsOk result ↔ ((length vectors.old ≡ length sizes.now)
        × (sum sizes.now ≡ length blocks.old)) }
    ensures read { OnOk result ((k : ℕ) → k < length vectors.old
        → Cbc (C.encrypted cipher.now) (slice_index_or vectors.old k [])
        (record_of sizes.now blocks.new k) (record_of sizes.now blocks.old k)) }
    ensures goes_on { OnOk result ((k : ℕ) → k < length vectors.old
        → slice_index_or vectors.new k []
        ≡ next_vector (slice_index_or vectors.old k []) (record_of sizes.now blocks.old k)) }
    ensures kept { OnErr result ((vectors.new ≡ vectors.old) × (blocks.new ≡ blocks.old)) }
{
    let keys = cipher.spread_keys::<S>();
    keys.decrypt_cbc_records(vectors, sizes, blocks)?;
    Ok(())
}
