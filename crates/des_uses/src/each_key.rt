//! Lists in which each block has a key of its own: what a caller can promise, block by block, of
//! any cipher that takes them and at any width.

ghost use Rattle.std.specs.Prelude.{◌≡◌, ◌↔◌, ◌<◌, ℕ, [], length, map, slice_index_or, IsOk, OnOk, OnErr};

use des::cipher::NotEqualError;
use des_fast::many::{KeyForEach, Slice};

/// Encrypts in place each block of a list under the key at its place. If the lists differ in
/// length, the result is `NotEqualError`, and the blocks are unchanged.
pub fn encrypt_under_keys<S: Slice, C: KeyForEach>(
    keys: &[C::Key],
    blocks: &mut [[u8; 8]],
) -> Result<(), NotEqualError>
    ensures accepted { IsOk result ↔ (length keys.now ≡ length blocks.old) }
    ensures encrypted { OnOk result ((k : ℕ) → k < length blocks.old
        → slice_index_or blocks.new k []
        ≡ C.encryption (slice_index_or (map C.Key.bytes_of keys.now) k [])
        (slice_index_or blocks.old k [])) }
    ensures kept { OnErr result (blocks.new ≡ blocks.old) }
{
    C::encrypt_each_by::<S>(keys, blocks)?;
    Ok(())
}

/// Decrypts them.
pub fn decrypt_under_keys<S: Slice, C: KeyForEach>(
    keys: &[C::Key],
    blocks: &mut [[u8; 8]],
) -> Result<(), NotEqualError>
    ensures accepted { IsOk result ↔ (length keys.now ≡ length blocks.old) }
    ensures decrypted { OnOk result ((k : ℕ) → k < length blocks.old
        → slice_index_or blocks.new k []
        ≡ C.decryption (slice_index_or (map C.Key.bytes_of keys.now) k [])
        (slice_index_or blocks.old k [])) }
    ensures kept { OnErr result (blocks.new ≡ blocks.old) }
{
    C::decrypt_each_by::<S>(keys, blocks)?;
    Ok(())
}
