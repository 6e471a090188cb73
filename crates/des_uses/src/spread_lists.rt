//! Lists under keys that are spread over slices once: what a caller of `spread_keys` can promise,
//! of any cipher with it and at any width, by the laws of the traits. The lists may have any
//! length.

ghost use Rattle.std.specs.Prelude.{◌≡◌, ◌↔◌, length, map, IsOk, OnOk, OnErr};
ghost use Rattle.des.specs.Cbc.{CbcUnder};
ghost use Rattle.des.specs.Relations.{TakesBlock};

use des::cipher::{InvalidLength, KeyedCipher};
use des_fast::many::{Slice, SpreadOnce};

/// Encrypts in place each block of a list by keys that are spread over slices: what the key makes
/// of it. A key that does not have `KEY_SIZE` bytes is `InvalidLength`, and the list is unchanged.
pub fn encrypt_spread<S: Slice, C: KeyedCipher + SpreadOnce + Drop>(
    key: &[u8],
    blocks: &mut [[u8; 8]],
) -> Result<(), InvalidLength>
    ensures accepted { IsOk result ↔ (length key.now ≡ C.KEY_SIZE) }
    ensures encrypted { OnOk result (blocks.new ≡ map (C.encryption key.now) blocks.old) }
    ensures kept { OnErr result (blocks.new ≡ blocks.old) }
{
    let cipher = C::new_from_slice(key)?;
    cipher.spread_keys::<S>().encrypt_many(blocks);
    Ok(())
}

/// Decrypts a list by spread keys.
pub fn decrypt_spread<S: Slice, C: KeyedCipher + SpreadOnce + Drop>(
    key: &[u8],
    blocks: &mut [[u8; 8]],
) -> Result<(), InvalidLength>
    ensures accepted { IsOk result ↔ (length key.now ≡ C.KEY_SIZE) }
    ensures decrypted { OnOk result (blocks.new ≡ map (C.decryption key.now) blocks.old) }
    ensures kept { OnErr result (blocks.new ≡ blocks.old) }
{
    let cipher = C::new_from_slice(key)?;
    cipher.spread_keys::<S>().decrypt_many(blocks);
    Ok(())
}

/// Decrypts in place a list that CBC under a cipher encrypted from the initialization vector: the
/// key's encryption takes each new block xor the block of the list before it, or for the first the
/// vector, to the block of the list. A key that does not have `KEY_SIZE` bytes is `InvalidLength`,
/// and the list is unchanged.
pub fn decrypt_cbc_spread<S: Slice, C: KeyedCipher + SpreadOnce + Drop>(
    key: &[u8],
    iv: &[u8; 8],
    blocks: &mut [[u8; 8]],
) -> Result<(), InvalidLength>
    ensures accepted { IsOk result ↔ (length key.now ≡ C.KEY_SIZE) }
    ensures read { OnOk result
        (CbcUnder (TakesBlock (C.encryption key.now)) iv.now blocks.new blocks.old) }
    ensures kept { OnErr result (blocks.new ≡ blocks.old) }
{
    let cipher = C::new_from_slice(key)?;
    cipher.spread_keys::<S>().decrypt_cbc(iv, blocks);
    Ok(())
}
