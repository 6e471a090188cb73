//! Lists there and back: what the laws of `BlockCipher` give to a caller of the calls that leave
//! their input.

ghost use Rattle.std.specs.Prelude.{◌≡◌, length};
ghost use Rattle.des.specs.Blocks.{AnswersEach};

use des::cipher::BlockCipher;

/// Encrypts the blocks into `ciphertext`, and decrypts these into `back`, which so becomes the
/// blocks again. The three lists have one length, which may be zero.
pub fn there_and_back<C: BlockCipher>(
    cipher: &C,
    blocks: &[[u8; 8]],
    ciphertext: &mut [[u8; 8]],
    back: &mut [[u8; 8]],
)
    requires ciphertext_fits { length ciphertext.old ≡ length blocks.now }
    requires back_fits { length back.old ≡ length blocks.now }
    ensures encrypted { AnswersEach (λ block encrypted. encrypted ≡ C.encrypted cipher.now block)
        blocks.now ciphertext.new }
    ensures decrypted { AnswersEach (λ encrypted block. block ≡ C.decrypted cipher.now encrypted)
        ciphertext.new back.new }
    ensures same { back.new ≡ blocks.now }
{
    cipher.encrypt_blocks_b2b(blocks, ciphertext).unwrap();
    cipher.decrypt_blocks_b2b(ciphertext, back).unwrap();
}
