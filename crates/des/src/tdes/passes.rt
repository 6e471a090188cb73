//! Passes of a single cipher, one after another.

ghost use Rattle.std.specs.Prelude.{◌≡◌, map};
ghost use Rattle.std.specs.List.{All};
ghost use Rattle.des.specs.Blocks.{IsBlock};
ghost use Rattle.des.specs.TripleCiphers.{passed_by, thrice_passed};

use crate::cipher::{BlockCipherDecrypt, BlockCipherEncrypt, are_blocks};

/// A pass: the cipher deciphers a block, or enciphers it.
#[derive(Clone, Copy)]
pub struct Pass<'a, D> {
    pub cipher: &'a D,
    pub deciphers: bool,
}

impl<'a, D: BlockCipherEncrypt + BlockCipherDecrypt> Pass<'a, D> {
    /// Takes a block of 8 bytes through the pass.
    pub fn apply(&self, block: &mut [u8; 8])
        ensures { block.new ≡ passed_by D.encrypted D.decrypted self.now block.old }
    {
        if self.deciphers {
            self.cipher.decrypt_block(block);
        } else {
            self.cipher.encrypt_block(block);
        }
    }
}

/// Three passes.
#[derive(Clone, Copy)]
pub struct ThreePasses<'a, D> {
    pub first: Pass<'a, D>,
    pub second: Pass<'a, D>,
    pub third: Pass<'a, D>,
}

impl<'a, D: BlockCipherEncrypt + BlockCipherDecrypt> ThreePasses<'a, D> {
    /// Takes a block of 8 bytes through the passes.
    pub fn apply(&self, block: &mut [u8; 8])
        ensures { block.new ≡ thrice_passed D.encrypted D.decrypted self.now block.old }
    {
        self.first.apply(block);
        self.second.apply(block);
        self.third.apply(block);
    }

    /// Takes each block of a list through the passes, in order.
    pub fn apply_each(&self, blocks: &mut [[u8; 8]])
        ensures blocks { All IsBlock blocks.old }
        ensures processed { blocks.new
            ≡ map (thrice_passed D.encrypted D.decrypted self.now) blocks.old }
    {
        are_blocks(blocks);
        for block in blocks.iter_mut() {
            self.apply(block);
        }
    }
}
