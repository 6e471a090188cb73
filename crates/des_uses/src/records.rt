//! Readers of records that were kept under a block cipher and CBC: what a caller of `des::cbc` can
//! promise, of any cipher by the laws of the traits, and of triple DES by its relation.

ghost use Rattle.std.specs.Prelude.{◌≡◌, ◌↔◌, length, IsOk, OnOk, OnErr};
ghost use Rattle.des.specs.Cbc.{CbcUnder};
ghost use Rattle.des.specs.Relations.{TakesBlock};
ghost use Rattle.des.specs.Triple.{EnciphersEde3};

use des::cipher::{InvalidLength, KeyedCipher};
use des::{TdesEde3, cbc};

/// Decrypts in place the blocks of a record, which CBC under a cipher encrypted from the
/// initialization vector: the key's encryption takes each new block xor the block of the record
/// before it, or for the first the vector, to the block of the record. A key that does not have
/// `KEY_SIZE` bytes is `InvalidLength`, and the record is unchanged.
pub fn read_record_by<C: KeyedCipher + Drop>(
    key: &[u8],
    iv: &[u8; 8],
    blocks: &mut [[u8; 8]],
) -> Result<(), InvalidLength>
    ensures accepted { IsOk result ↔ (length key.now ≡ C.KEY_SIZE) }
    ensures read { OnOk result
        (CbcUnder (TakesBlock (C.encryption key.now)) iv.now blocks.new blocks.old) }
    ensures kept { OnErr result (blocks.new ≡ blocks.old) }
{
    let cipher = C::new_from_slice(key)?;
    cbc::decrypt(&cipher, iv, blocks);
    Ok(())
}

/// Reads a record that was kept under `TdesEde3`: what takes each new block xor the block of the
/// record before it to the block of the record is triple DES under the key, in its EDE form. A key
/// that does not have 24 bytes is `InvalidLength`, and the record is unchanged.
pub fn read_record(key: &[u8], iv: &[u8; 8], blocks: &mut [[u8; 8]]) -> Result<(), InvalidLength>
    ensures accepted { IsOk result ↔ (length key.now ≡ 24) }
    ensures read { OnOk result (CbcUnder (EnciphersEde3 key.now) iv.now blocks.new blocks.old) }
    ensures kept { OnErr result (blocks.new ≡ blocks.old) }
{
    read_record_by::<TdesEde3>(key, iv, blocks)
}
