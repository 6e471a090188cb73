//! Modes of operation, over any cipher: lists of blocks in pieces.

ghost use Rattle.std.specs.Prelude.{◌≡◌};
ghost use Rattle.std.specs.List.{All};
ghost use Rattle.des.specs.Blocks.{IsBlock};
ghost use Rattle.des_io.specs.CipherModes.{Enciphered, Deciphered, mode_after};

use des::cbc;
use des::cipher::are_blocks;
use des_fast::many::ManyBlocks;

/// How blocks follow each other (FIPS 81).
#[derive(Clone, Copy)]
pub enum BlockMode {
    /// Electronic codebook: each block by itself.
    Ecb,
    /// Cipher block chaining, with the block before the first: the initialization vector, or the
    /// last ciphertext block of what went before.
    Cbc([u8; 8]),
}

impl BlockMode {
    /// Skips ciphertext blocks: goes on to what follows them.
    pub fn skip(&mut self, blocks: &[[u8; 8]])
        ensures blocks { All IsBlock blocks.now }
        ensures after { self.new ≡ mode_after self.old blocks.now }
    {
        are_blocks(blocks);
        match self {
            BlockMode::Ecb => {}
            BlockMode::Cbc(iv) => *iv = cbc::next_vector(iv, blocks),
        }
    }

    /// Encrypts blocks of 8 bytes in place, and goes on to those after them.
    pub fn encrypt<C: ManyBlocks>(&mut self, cipher: &C, blocks: &mut [[u8; 8]])
        ensures blocks { All IsBlock blocks.old }
        ensures enciphered { Enciphered (C.encrypted cipher.now) self.old blocks.old blocks.new }
        ensures after { self.new ≡ mode_after self.old blocks.new }
    {
        match self {
            BlockMode::Ecb => cipher.encrypt_many(blocks),
            BlockMode::Cbc(iv) => {
                cbc::encrypt(cipher, iv, blocks);
                *iv = cbc::next_vector(iv, blocks);
            }
        }
    }

    /// Decrypts blocks of 8 bytes in place, and goes on to those after them.
    pub fn decrypt<C: ManyBlocks>(&mut self, cipher: &C, blocks: &mut [[u8; 8]])
        ensures blocks { All IsBlock blocks.old }
        ensures deciphered { Deciphered (C.decrypted cipher.now) self.old blocks.old blocks.new }
        ensures after { self.new ≡ mode_after self.old blocks.old }
    {
        match self {
            BlockMode::Ecb => cipher.decrypt_many(blocks),
            BlockMode::Cbc(iv) => {
                let next = cbc::next_vector(iv, blocks);
                cipher.decrypt_cbc(iv, blocks);
                *iv = next;
            }
        }
    }
}
