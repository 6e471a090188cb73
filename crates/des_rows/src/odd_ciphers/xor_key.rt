//! The cipher `XorKey`.

ghost use Rattle.std.specs.Prelude.{◌≡◌, refl};
ghost use Rattle.des_rows.specs.OddCiphers.{key_of, xored, IsBlock-xored, xored-xored};

use des::cipher::{
    BlockCipher, BlockCipherDecrypt, BlockCipherEncrypt, BlockSizeUser, KeyInit, KeySizeUser,
    KeyedCipher,
};

/// The cipher that takes a block to the block xor the key, in each direction.
#[derive(Drop)]
pub struct XorKey {
    key: [u8; 8],
}

impl XorKey {
    // The block xor the key.
    fn xor(&self, block: &mut [u8; 8])
        ensures { block.new ≡ xored self.now.key block.old }
    {
        let word = u64::from_be_bytes(*block) ^ u64::from_be_bytes(self.key);
        *block = word.to_be_bytes();
    }
}

impl KeySizeUser for XorKey {
    type Key = [u8; 8];

    const KEY_SIZE: usize = 8;

    ghost KEY_SIZE = { 8 };

    ghost key_size_is_len = { refl };
}

impl KeyInit for XorKey {
    ghost is_made_from = { λ cipher key. key_of cipher ≡ key };

    /// The cipher of a key of 8 bytes.
    fn new(key: &[u8; 8]) -> XorKey {
        XorKey { key: *key }
    }
}

impl BlockSizeUser for XorKey {
    const BLOCK_SIZE: usize = 8;

    ghost BLOCK_SIZE = { 8 };

    ghost block_size_is_eight = { refl };
}

impl BlockCipherEncrypt for XorKey {
    ghost encrypted = { λ cipher. xored (key_of cipher) };

    fn encrypt_block(&self, block: &mut [u8; 8]) {
        self.xor(block);
    }
}

impl BlockCipherDecrypt for XorKey {
    ghost decrypted = { λ cipher. xored (key_of cipher) };

    fn decrypt_block(&self, block: &mut [u8; 8]) {
        self.xor(block);
    }
}

impl BlockCipher for XorKey {
    ghost encrypted_is_block = { λ cipher block _. IsBlock-xored cipher.key block };

    ghost decrypted_is_block = { λ cipher block _. IsBlock-xored cipher.key block };

    ghost decrypts_encrypted = { λ cipher. xored-xored cipher.key };

    ghost encrypts_decrypted = { λ cipher. xored-xored cipher.key };
}

impl KeyedCipher for XorKey {
    ghost use Rattle.std.proofs.Common.{ap};

    ghost encryption = { xored };

    ghost decryption = { xored };

    ghost encrypts_by_key = { λ cipher key block _ made _. ap (λ bytes. xored bytes block) made };

    ghost decrypts_by_key = { λ cipher key block _ made _. ap (λ bytes. xored bytes block) made };
}
