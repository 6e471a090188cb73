//! Chaining by generic code: what the laws of `BlockCipher` give to a caller of `des::cbc`.

ghost use Rattle.des.specs.Cbc.{Cbc, CbcDecrypts};

use des::cbc;
use des::cipher::BlockCipher;

/// Encrypts a list of blocks by CBC, in place: each block as it was is the decryption of the new
/// one, xor the new block before it, or for the first the initialization vector.
pub fn encrypt_cbc<C: BlockCipher>(cipher: &C, iv: &[u8; 8], blocks: &mut [[u8; 8]])
    ensures { CbcDecrypts (C.decrypted cipher.now) iv.now blocks.new blocks.old }
{
    cbc::encrypt(cipher, iv, blocks);
}

/// Decrypts a list of blocks by CBC, in place: CBC encryption takes the new blocks to the blocks as
/// they were.
pub fn decrypt_cbc<C: BlockCipher>(cipher: &C, iv: &[u8; 8], blocks: &mut [[u8; 8]])
    ensures { Cbc (C.encrypted cipher.now) iv.now blocks.new blocks.old }
{
    cbc::decrypt(cipher, iv, blocks);
}
