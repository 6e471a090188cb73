//! The cipher `Reverse`.

ghost use Rattle.std.specs.Prelude.{reverse, refl};
ghost use Rattle.std.proofs.lemmas.List.{reverse-reverse};
ghost use Rattle.des_rows.specs.OddCiphers.{IsBlock-reverse};

use des::cipher::{BlockCipher, BlockCipherDecrypt, BlockCipherEncrypt, BlockSizeUser};

/// The cipher without a key that takes a block to its bytes in the opposite order, in each
/// direction.
#[derive(Clone, Copy)]
pub struct Reverse;

impl BlockSizeUser for Reverse {
    const BLOCK_SIZE: usize = 8;

    ghost BLOCK_SIZE = { 8 };

    ghost block_size_is_eight = { refl };
}

impl BlockCipherEncrypt for Reverse {
    ghost encrypted = { λ _. reverse };

    fn encrypt_block(&self, block: &mut [u8; 8]) {
        block.reverse();
    }
}

impl BlockCipherDecrypt for Reverse {
    ghost decrypted = { λ _. reverse };

    fn decrypt_block(&self, block: &mut [u8; 8]) {
        block.reverse();
    }
}

impl BlockCipher for Reverse {
    ghost encrypted_is_block = { λ _. IsBlock-reverse };

    ghost decrypted_is_block = { λ _. IsBlock-reverse };

    ghost decrypts_encrypted = { λ _ block _. reverse-reverse block };

    ghost encrypts_decrypted = { λ _ block _. reverse-reverse block };
}
