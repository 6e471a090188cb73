//! The triple DES key wrap of CMS (RFC 3217, 3), over any block cipher: a key of whole blocks of 8
//! bytes is wrapped together with its checksum by SHA-1, and becomes two blocks longer.
//!
//! RFC 3217 wraps keys of triple DES, which have three blocks; libraries take other numbers of
//! blocks too. The key is wrapped as it is. RFC 3217 sets odd parity before a key is wrapped, as
//! `des::weak_key::with_odd_parity` does, and refuses an unwrapped key that lacks it: one that this
//! call would change.

ghost use Rattle.std.specs.Prelude.{◌≡◌, ◌≤◌, ◌+◌, ◌++◌, ℕ, List, [], ◌∷◌, length, drop, replicate, IsOk, OnOk, OnErr};
ghost use Rattle.std.specs.List.{All};
ghost use Rattle.des.specs.Blocks.{IsBlock};
ghost use Rattle.des.specs.Cbc.{CbcDecrypts};
ghost use Rattle.des.specs.Relations.{TakesBlock};
ghost use Rattle.des_key_wraps.specs.CmsKeyWrap.{Encloses, Wraps, checksum as checksum_of, reversed};

use crate::unwrap_error::UnwrapError;
use des::cbc;
use des::cipher::{BlockCipher, BlockCipherEncrypt, are_blocks, are_bytes};
use des_mac::mac::are_equal;
use sha1::Sha1;

// The initialization vector of the second encryption.
const SECOND_IV: [u8; 8] = [0x4a, 0xdd, 0xa2, 0x2c, 0x79, 0xe8, 0x21, 0x05];

// The checksum of a key.
fn checksum(key: &[[u8; 8]]) -> [u8; 8]
    ensures { result ≡ checksum_of key.now }
{
    let digest = Sha1::digest(key.as_flattened());
    let mut checksum = [0; 8];
    checksum.copy_from_slice(&digest[..8]);
    checksum
}

// Reverses the order of all bytes.
fn reverse_bytes(blocks: &mut [[u8; 8]])
    ensures { blocks.new ≡ reversed blocks.old }
{
    blocks.reverse();
    for block in blocks.iter_mut() {
        block.reverse();
    }
}

// Writes a key, and its checksum after it.
fn write_checked(checked: &mut [[u8; 8]], key: &[[u8; 8]])
    requires { length checked.old ≡ length key.now + 1 }
    ensures { checked.new ≡ key.now ++ checksum_of key.now ∷ [] }
{
    let (front, last) = checked.split_at_mut(key.len());
    front.copy_from_slice(key);
    last.copy_from_slice(&[checksum(key)]);
}

// Encrypts the blocks from the second on, writes the initialization vector in place of the first,
// and encrypts all bytes in reverse order.
fn enclose<C: BlockCipherEncrypt>(cipher: &C, iv: &[u8; 8], blocks: &mut [[u8; 8]])
    requires { 1 ≤ length blocks.old }
    ensures { Encloses (TakesBlock (C.encrypted cipher.now)) iv.now (drop 1 blocks.old) blocks.new }
{
    let (first, rest) = blocks.split_at_mut(1);
    cbc::encrypt(cipher, iv, rest);
    first.copy_from_slice(&[*iv]);
    reverse_bytes(blocks);
    cbc::encrypt(cipher, &SECOND_IV, blocks);
    are_blocks(blocks);
}

// Decrypts a list of blocks by CBC, and the block that follows it.
fn decrypt<C: BlockCipher>(cipher: &C, iv: &[u8; 8], blocks: &mut [[u8; 8]], last: &mut [u8; 8])
    ensures ciphertext { All IsBlock (blocks.old ++ last.old ∷ []) }
    ensures plaintext { All IsBlock (blocks.new ++ last.new ∷ []) }
    ensures cbc_decrypted { CbcDecrypts (C.decrypted cipher.now) iv.now
        (blocks.old ++ last.old ∷ []) (blocks.new ++ last.new ∷ []) }
{
    let before = cbc::next_vector(iv, blocks);
    cbc::decrypt(cipher, iv, blocks);
    are_bytes(last);
    cipher.decrypt_block(last);
    cbc::xor(last, &before);
    are_blocks(blocks);
    are_bytes(last);
}

// Undoes `enclose`: writes the key, and returns the initialization vector and the block after the
// key, which is to be its checksum.
fn open<C: BlockCipher>(cipher: &C, enclosed: &[[u8; 8]], key: &mut [[u8; 8]]) -> ([u8; 8], [u8; 8])
    requires { length enclosed.now ≡ length key.old + 2 }
    ensures vector { IsBlock result.0 }
    ensures opened { Encloses (TakesBlock (C.encrypted cipher.now)) result.0
        (key.new ++ result.1 ∷ []) enclosed.now }
{
    are_blocks(enclosed);
    let end = key.len() + 1;
    let mut first = enclosed[0];
    decrypt(cipher, &SECOND_IV, &mut [], &mut first);
    let mut last = enclosed[end];
    key.copy_from_slice(&enclosed[1..end]);
    decrypt(cipher, &enclosed[0], key, &mut last);
    first.reverse();
    reverse_bytes(key);
    last.reverse();
    are_bytes(&last);
    decrypt(cipher, &last, key, &mut first);
    (last, first)
}

/// Wraps a key into a list that is two blocks longer. The initialization vector must be random:
/// eight bytes that nobody can predict.
pub fn wrap<C: BlockCipherEncrypt>(
    cipher: &C,
    iv: &[u8; 8],
    key: &[[u8; 8]],
    wrapped: &mut [[u8; 8]],
)
    requires { length wrapped.old ≡ length key.now + 2 }
    ensures { Wraps (TakesBlock (C.encrypted cipher.now)) iv.now key.now wrapped.new }
{
    let (_, checked) = wrapped.split_at_mut(1);
    write_checked(checked, key);
    enclose(cipher, iv, wrapped);
}

/// Unwraps a key, which is two blocks shorter than `wrapped`. If `wrapped` wraps no key under this
/// cipher, the answer is `UnwrapError`, and `key` is zeros. The checksum is compared whole,
/// wherever the first difference is.
pub fn unwrap<C: BlockCipher>(
    cipher: &C,
    wrapped: &[[u8; 8]],
    key: &mut [[u8; 8]],
) -> Result<(), UnwrapError>
    requires { length wrapped.now ≡ length key.old + 2 }
    ensures unwrapped { OnOk result ((iv : List ℕ) × IsBlock iv
        × Wraps (TakesBlock (C.encrypted cipher.now)) iv key.new wrapped.now) }
    ensures accepted { (iv : List ℕ) (other : List (List ℕ)) → IsBlock iv
        → Wraps (TakesBlock (C.encrypted cipher.now)) iv other wrapped.now
        → IsOk result × (key.new ≡ other) }
    ensures none { OnErr result (key.new ≡ replicate (length key.old) (replicate 8 0)) }
{
    let (_, last) = open(cipher, wrapped, key);
    if are_equal(&checksum(key), &last) {
        return Ok(());
    }
    key.fill([0; 8]);
    Err(UnwrapError)
}
