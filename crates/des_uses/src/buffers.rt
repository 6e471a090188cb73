//! Blocks and lists from one buffer to another: what the clauses of the calls that leave their
//! input, and the laws of `BlockCipher`, give to a caller.

ghost use Rattle.std.specs.Prelude.{◌≡◌, ◌↔◌, length, map, IsTrue, IsFalse};

use des::cipher::{BlockCipher, BlockCipherDecrypt, BlockCipherEncrypt};

/// Encrypts a block into `encrypted_block`, and decrypts this into `back`, which so becomes the
/// block again.
pub fn block_there_and_back<C: BlockCipher>(
    cipher: &C,
    block: &[u8; 8],
    encrypted_block: &mut [u8; 8],
    back: &mut [u8; 8],
)
    ensures encrypted { encrypted_block.new ≡ C.encrypted cipher.now block.now }
    ensures decrypted { back.new ≡ C.decrypted cipher.now encrypted_block.new }
    ensures same { back.new ≡ block.now }
{
    cipher.encrypt_block_b2b(block, encrypted_block);
    cipher.decrypt_block_b2b(encrypted_block, back);
}

/// Encrypts the blocks into `output`, and tells whether it did: lists of two lengths leave `output`
/// as it was.
pub fn encrypt_into<C: BlockCipherEncrypt>(
    cipher: &C,
    blocks: &[[u8; 8]],
    output: &mut [[u8; 8]],
) -> bool
    ensures fits { IsTrue result ↔ (length blocks.now ≡ length output.old) }
    ensures encrypted { IsTrue result → output.new ≡ map (C.encrypted cipher.now) blocks.now }
    ensures kept { IsFalse result → output.new ≡ output.old }
{
    cipher.encrypt_blocks_b2b(blocks, output).is_ok()
}

/// Decrypts into another buffer.
pub fn decrypt_into<C: BlockCipherDecrypt>(
    cipher: &C,
    blocks: &[[u8; 8]],
    output: &mut [[u8; 8]],
) -> bool
    ensures fits { IsTrue result ↔ (length blocks.now ≡ length output.old) }
    ensures decrypted { IsTrue result → output.new ≡ map (C.decrypted cipher.now) blocks.now }
    ensures kept { IsFalse result → output.new ≡ output.old }
{
    cipher.decrypt_blocks_b2b(blocks, output).is_ok()
}
