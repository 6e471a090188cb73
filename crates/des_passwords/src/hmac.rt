//! HMAC (RFC 2104), of a message that comes in pieces.

ghost use Rattle.std.specs.Prelude.{◌≡◌, ℕ, List, [], ◌++◌, length};
ghost use Rattle.des_passwords.specs.Hmac.{block_key, hmac, IsHmacOf};

use crate::hash_function::{HashFunction, write_digest_of};
use crate::xored::xored;

// The key as a block: with zeros after it, its digest if it is longer than a block.
fn block_key<H: HashFunction>(key: &[u8]) -> [u8; 64]
    ensures { result ≡ block_key H.digest key.now }
{
    let mut block = [0; 64];
    if key.len() <= 64 {
        block[..key.len()].copy_from_slice(key);
    } else {
        write_digest_of::<H>(key, &mut block[..H::SIZE]);
    }
    block
}

/// A message under a key of any length: `new`, `update` for each piece, and `write_tag`.
#[derive(Drop)]
pub struct Hmac<H> {
    pub(crate) inner: H,
    pub(crate) outer: H,
}

impl<H: HashFunction> Hmac<H> {
    /// The message of no bytes under the key.
    pub fn new(key: &[u8]) -> Hmac<H>
        ensures { IsHmacOf H.holds H.digest result key.now [] }
    {
        let block = block_key::<H>(key);
        let mut inner = H::new();
        inner.add(&xored(&block, 0x36));
        let mut outer = H::new();
        outer.add(&xored(&block, 0x5C));
        Hmac { inner, outer }
    }

    /// A copy, for another message that begins so.
    pub fn copy(&self) -> Hmac<H>
        ensures { result ≡ self.now }
    {
        Hmac {
            inner: self.inner.copy(),
            outer: self.outer.copy(),
        }
    }

    /// Adds bytes to the message.
    pub fn update(&mut self, bytes: &[u8])
        ensures { (key m : List ℕ) → IsHmacOf H.holds H.digest self.old key m
            → IsHmacOf H.holds H.digest self.new key (m ++ bytes.now) }
    {
        self.inner.add(bytes);
    }

    /// Writes the tag, which has as many bytes as a digest of the hash function.
    pub fn write_tag(self, tag: &mut [u8])
        requires { length tag.old ≡ H.SIZE }
        ensures { (key m : List ℕ) → IsHmacOf H.holds H.digest self key m
            → tag.new ≡ hmac H.digest key m }
    {
        let Hmac { inner, mut outer } = self;
        inner.write_digest(tag);
        outer.add(tag);
        outer.write_digest(tag);
    }
}
