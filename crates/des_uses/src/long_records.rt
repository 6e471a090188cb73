//! A reader of long records that were kept under a block cipher and CBC: what a caller of
//! `des_fast::many` can promise, of any cipher with its calls by the laws of the traits.

ghost use Rattle.std.specs.Prelude.{◌≡◌, ◌↔◌, length, map, IsOk, OnOk, OnErr};
ghost use Rattle.des.specs.Cbc.{CbcUnder};
ghost use Rattle.des.specs.Relations.{TakesBlock};

use des::cipher::{InvalidLength, KeyedCipher};
use des_fast::many::ManyBlocks;

/// Decrypts in place the blocks of a record, many at a time, which CBC under a cipher encrypted
/// from the initialization vector: the key's encryption takes each new block xor the block of the
/// record before it, or for the first the vector, to the block of the record. A key that does not
/// have `KEY_SIZE` bytes is `InvalidLength`, and the record is unchanged.
pub fn read_long_record<C: KeyedCipher + ManyBlocks + Drop>(
    key: &[u8],
    iv: &[u8; 8],
    blocks: &mut [[u8; 8]],
) -> Result<(), InvalidLength>
    ensures accepted { IsOk result ↔ (length key.now ≡ C.KEY_SIZE) }
    ensures read { OnOk result
        (CbcUnder (TakesBlock (C.encryption key.now)) iv.now blocks.new blocks.old) }
    ensures kept { OnErr result (blocks.new ≡ blocks.old) }
{
    let cipher = C::new_from_slice(key)?;
    cipher.decrypt_cbc(iv, blocks);
    Ok(())
}

/// Encrypts in place each block of a list, of any length: what the key makes of it. A key that
/// does not have `KEY_SIZE` bytes is `InvalidLength`, and the list is unchanged.
pub fn encrypt_list<C: KeyedCipher + ManyBlocks + Drop>(
    key: &[u8],
    blocks: &mut [[u8; 8]],
) -> Result<(), InvalidLength>
    ensures accepted { IsOk result ↔ (length key.now ≡ C.KEY_SIZE) }
    ensures encrypted { OnOk result (blocks.new ≡ map (C.encryption key.now) blocks.old) }
    ensures kept { OnErr result (blocks.new ≡ blocks.old) }
{
    let cipher = C::new_from_slice(key)?;
    cipher.encrypt_many(blocks);
    Ok(())
}

/// Decrypts a list.
pub fn decrypt_list<C: KeyedCipher + ManyBlocks + Drop>(
    key: &[u8],
    blocks: &mut [[u8; 8]],
) -> Result<(), InvalidLength>
    ensures accepted { IsOk result ↔ (length key.now ≡ C.KEY_SIZE) }
    ensures decrypted { OnOk result (blocks.new ≡ map (C.decryption key.now) blocks.old) }
    ensures kept { OnErr result (blocks.new ≡ blocks.old) }
{
    let cipher = C::new_from_slice(key)?;
    cipher.decrypt_many(blocks);
    Ok(())
}
