//! Texts in CTR, OFB and CFB, over any cipher, in pieces and back: what the clauses of `Stream`
//! give to a caller.

ghost use Rattle.std.specs.Prelude.{◌≡◌, ◌↔◌, ◌*◌, ◌≤◌, ◌++◌, ℕ, List, IsTrue, IsFalse, length};
ghost use Rattle.des.specs.Blocks.{AreBytes};
ghost use Rattle.des_modes.specs.Ctr.{Ctr};
ghost use Rattle.des_modes.specs.Modes.{InMode, IsMode, mode_by};

use des::cipher::are_bytes;
use des_modes::stream::Stream;
use des_modes::{Direction, Feedback};

/// Encrypts a text that comes in two pieces, in the mode of a number: together they become what the
/// text becomes as one. `false` if no mode has the number; nothing is changed then.
pub fn encrypt_in_two_pieces<C: Feedback>(
    cipher: &C,
    number: u32,
    iv: &[u8; 8],
    head: &mut [u8],
    tail: &mut [u8],
) -> bool
    ensures accepted { IsTrue result ↔ IsMode number }
    ensures whole { IsTrue result → InMode (mode_by number) (C.encrypted cipher.now) iv.now
        (head.old ++ tail.old) (head.new ++ tail.new) }
    ensures kept { IsFalse result → (head.new ≡ head.old) × (tail.new ≡ tail.old) }
{
    let Some(mut stream) = Stream::new(number, iv) else {
        return false;
    };
    let mode = stream.mode().unwrap();
    stream.apply(Direction::Encrypt, mode, cipher, head);
    stream.apply(Direction::Encrypt, mode, cipher, tail);
    true
}

/// Encrypts a text in two pieces, the first of `count` bytes, and decrypts what they became as one:
/// the text comes back. `false` if no mode has the number.
pub fn text_again<C: Feedback>(
    cipher: &C,
    number: u32,
    iv: &[u8; 8],
    text: &[u8],
    count: usize,
    encrypted: &mut [u8],
    again: &mut [u8],
) -> bool
    requires count { count ≤ length text.now }
    requires encrypted { length encrypted.old ≡ length text.now }
    requires again { length again.old ≡ length text.now }
    ensures accepted { IsTrue result ↔ IsMode number }
    ensures encrypted { IsTrue result → InMode (mode_by number) (C.encrypted cipher.now) iv.now text.now
        encrypted.new }
    ensures same { IsTrue result → again.new ≡ text.now }
{
    are_bytes(text);
    encrypted.copy_from_slice(text);
    let (head, tail) = encrypted.split_at_mut(count);
    if !encrypt_in_two_pieces(cipher, number, iv, head, tail) {
        return false;
    }
    again.copy_from_slice(encrypted);
    let mut stream = Stream::new(number, iv).unwrap();
    let mode = stream.mode().unwrap();
    stream.apply(Direction::Decrypt, mode, cipher, again);
    true
}

/// Decrypts a part of what the counter mode made of a text, with no other part of it: `block` is
/// the first counter block, and `blocks` blocks stand before the part.
pub fn decrypt_part_of_ctr<C: Feedback>(cipher: &C, block: &[u8; 8], blocks: u64, part: &mut [u8])
    ensures { (before text encrypted : List ℕ) → length before ≡ 8 * blocks → AreBytes encrypted
        → Ctr (C.encrypted cipher.now) block.now before encrypted
        → Ctr (C.encrypted cipher.now) block.now (before ++ text) (encrypted ++ part.old)
        → part.new ≡ text }
{
    let mut stream = Stream::ctr_at(block, blocks);
    let mode = stream.mode().unwrap();
    stream.apply(Direction::Decrypt, mode, cipher, part);
}
