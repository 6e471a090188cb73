//! Lists under `des_fast::Des`, which the calls name by its type: what a caller that writes
//! `cipher.encrypt_many(blocks)` gets, by the relation of the key.

ghost use Rattle.des.specs.Blocks.{AnswersEach};
ghost use Rattle.des.specs.Cbc.{CbcUnder};
ghost use Rattle.des.specs.Enciphering.{Enciphers};
ghost use Rattle.des.specs.Relations.{IsTheOne};

use des::cipher::{BlockCipherDecrypt, BlockCipherEncrypt, KeyInit};
use des_fast::many::ManyBlocks;
use des_fast::{Des, no_tables};

/// Encrypts in place each block of a list under a key: each is related to the one at its place, and
/// no other list is so related.
pub fn encrypt_list_by_fast_des(key: &[u8; 8], blocks: &mut [[u8; 8]])
    ensures { IsTheOne
        (λ ciphertext. AnswersEach (λ x y. Enciphers key.now x y) blocks.old ciphertext) blocks.new }
{
    let cipher = Des::new(key);
    cipher.encrypt_many(blocks);
}

/// Decrypts in place each block of a list under a key: the list is the one whose blocks the key
/// relates to those that stood there.
pub fn decrypt_list_by_fast_des(key: &[u8; 8], blocks: &mut [[u8; 8]])
    ensures { IsTheOne
        (λ plaintext. AnswersEach (λ x y. Enciphers key.now x y) plaintext blocks.old) blocks.new }
{
    let cipher = Des::new(key);
    cipher.decrypt_many(blocks);
}

/// Decrypts in place a list that CBC under a key encrypted from the initialization vector: DES
/// under the key takes each new block xor the block of the list before it, or for the first the
/// vector, to the block of the list.
pub fn decrypt_cbc_by_fast_des(key: &[u8; 8], iv: &[u8; 8], blocks: &mut [[u8; 8]])
    ensures { CbcUnder (λ x y. Enciphers key.now x y) iv.now blocks.new blocks.old }
{
    let cipher = Des::new(key);
    cipher.decrypt_cbc(iv, blocks);
}

/// Encrypts in place each block of a list under a key, four side by side and with no table read:
/// each is related to the one at its place, and no other list is so related.
pub fn encrypt_list_side_by_side(key: &[u8; 8], blocks: &mut [[u8; 8]])
    ensures { IsTheOne
        (λ ciphertext. AnswersEach (λ x y. Enciphers key.now x y) blocks.old ciphertext) blocks.new }
{
    let cipher = no_tables::Des::new(key);
    cipher.encrypt_blocks(blocks);
}

/// Decrypts in place each block of a list under a key, four side by side and with no table read:
/// the list is the one whose blocks the key relates to those that stood there.
pub fn decrypt_list_side_by_side(key: &[u8; 8], blocks: &mut [[u8; 8]])
    ensures { IsTheOne
        (λ plaintext. AnswersEach (λ x y. Enciphers key.now x y) plaintext blocks.old) blocks.new }
{
    let cipher = no_tables::Des::new(key);
    cipher.decrypt_blocks(blocks);
}
