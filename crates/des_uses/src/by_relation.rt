//! One block under a key of each cipher, by the relation that defines the cipher: what the clauses
//! of `new`, `encrypt_block` and `decrypt_block` give to a caller. The triple ciphers are those of
//! either library.

ghost use Rattle.std.specs.Prelude.{◌≡◌, ◌↔◌, ℕ, List, IsTrue};
ghost use Rattle.des.specs.Blocks.{IsKey};
ghost use Rattle.des.specs.Relations.{IsTheOne, IsBijection, IsGraphOf};

use des::cipher::{BlockCipherDecrypt, BlockCipherEncrypt, KeyInit, Relating};
use des::tdes::{Ede2, Ede3, Eee2, Eee3, SingleDes};

/// A cipher whose own calls for one block say what the relation of the key gives. Generic code
/// reads the clauses of a trait alone: these are the clauses of each cipher's `new`,
/// `encrypt_block` and `decrypt_block`, by its relation.
pub trait RelatesBlocks: Relating {
    /// The cipher of a key, by `new`.
    fn of_key(key: &Self::Key) -> Self
        ensures key { IsKey Self.KEY_SIZE (Self.Key.bytes_of key.now) }
        ensures made { Self.is_made_from result (Self.Key.bytes_of key.now) }
        ensures bijective { IsBijection
            (Self.relation (Self.Key.bytes_of key.now)) }
        ensures encryption { IsGraphOf (Self.encryption (Self.Key.bytes_of key.now))
            (Self.relation (Self.Key.bytes_of key.now)) }
        ensures decryption { IsGraphOf (Self.decryption (Self.Key.bytes_of key.now))
            (λ y x. Self.relation (Self.Key.bytes_of key.now) x y) };

    /// Encrypts a block in place, by `encrypt_block`.
    fn encrypt(&self, block: &mut [u8; 8])
        ensures encrypted { block.new ≡ Self.encrypted self.now block.old }
        ensures enciphers { (key : List ℕ) → Self.is_made_from self.now key
            → IsTheOne (λ encrypted. Self.relation key block.old encrypted) block.new };

    /// Decrypts a block in place, by `decrypt_block`.
    fn decrypt(&self, block: &mut [u8; 8])
        ensures decrypted { block.new ≡ Self.decrypted self.now block.old }
        ensures deciphers { (key : List ℕ) → Self.is_made_from self.now key
            → IsTheOne (λ decrypted. Self.relation key decrypted block.old) block.new };
}

impl RelatesBlocks for des::Des {
    fn of_key(key: &[u8; 8]) -> des::Des {
        des::Des::new(key)
    }

    fn encrypt(&self, block: &mut [u8; 8]) {
        self.encrypt_block(block);
    }

    fn decrypt(&self, block: &mut [u8; 8]) {
        self.decrypt_block(block);
    }
}

impl RelatesBlocks for des_fast::Des {
    fn of_key(key: &[u8; 8]) -> des_fast::Des {
        des_fast::Des::new(key)
    }

    fn encrypt(&self, block: &mut [u8; 8]) {
        self.encrypt_block(block);
    }

    fn decrypt(&self, block: &mut [u8; 8]) {
        self.decrypt_block(block);
    }
}

impl<D: SingleDes> RelatesBlocks for Ede3<D> {
    fn of_key(key: &[u8; 24]) -> Ede3<D> {
        Ede3::<D>::new(key)
    }

    fn encrypt(&self, block: &mut [u8; 8]) {
        self.encrypt_block(block);
    }

    fn decrypt(&self, block: &mut [u8; 8]) {
        self.decrypt_block(block);
    }
}

impl<D: SingleDes> RelatesBlocks for Eee3<D> {
    fn of_key(key: &[u8; 24]) -> Eee3<D> {
        Eee3::<D>::new(key)
    }

    fn encrypt(&self, block: &mut [u8; 8]) {
        self.encrypt_block(block);
    }

    fn decrypt(&self, block: &mut [u8; 8]) {
        self.decrypt_block(block);
    }
}

impl<D: SingleDes> RelatesBlocks for Ede2<D> {
    fn of_key(key: &[u8; 16]) -> Ede2<D> {
        Ede2::<D>::new(key)
    }

    fn encrypt(&self, block: &mut [u8; 8]) {
        self.encrypt_block(block);
    }

    fn decrypt(&self, block: &mut [u8; 8]) {
        self.decrypt_block(block);
    }
}

impl<D: SingleDes> RelatesBlocks for Eee2<D> {
    fn of_key(key: &[u8; 16]) -> Eee2<D> {
        Eee2::<D>::new(key)
    }

    fn encrypt(&self, block: &mut [u8; 8]) {
        self.encrypt_block(block);
    }

    fn decrypt(&self, block: &mut [u8; 8]) {
        self.decrypt_block(block);
    }
}

/// What a block becomes by encryption under the key, and what it becomes by decryption.
pub fn encrypt_and_decrypt<C: RelatesBlocks + Drop>(
    key: &C::Key,
    block: &[u8; 8],
) -> ([u8; 8], [u8; 8])
    ensures enciphers { IsTheOne
        (λ encrypted. C.relation (C.Key.bytes_of key.now) block.now encrypted) result.0 }
    ensures deciphers { IsTheOne
        (λ decrypted. C.relation (C.Key.bytes_of key.now) decrypted block.now) result.1 }
{
    let cipher = C::of_key(key);
    let (mut encrypted, mut decrypted) = (*block, *block);
    cipher.encrypt(&mut encrypted);
    cipher.decrypt(&mut decrypted);
    (encrypted, decrypted)
}

/// Whether the key takes a block to another: by encryption of the one, and by decryption of the
/// other.
pub fn relates<C: RelatesBlocks + Drop>(
    key: &C::Key,
    block: &[u8; 8],
    other: &[u8; 8],
) -> (bool, bool)
    ensures there { IsTrue result.0
        ↔ C.relation (C.Key.bytes_of key.now) block.now other.now }
    ensures back { IsTrue result.1
        ↔ C.relation (C.Key.bytes_of key.now) block.now other.now }
{
    let cipher = C::of_key(key);
    let (mut encrypted, mut decrypted) = (*block, *other);
    cipher.encrypt_block(&mut encrypted);
    cipher.decrypt_block(&mut decrypted);
    (is_same(&encrypted, other), is_same(&decrypted, block))
}

/// Whether the key encrypts two blocks to one: only if they are one block.
pub fn encrypts_alike<C: RelatesBlocks + Drop>(
    key: &C::Key,
    block: &[u8; 8],
    other: &[u8; 8],
) -> bool
    ensures { IsTrue result ↔ (block.now ≡ other.now) }
{
    let cipher = C::of_key(key);
    let (mut encrypted, mut other_encrypted) = (*block, *other);
    cipher.encrypt(&mut encrypted);
    cipher.encrypt(&mut other_encrypted);
    is_same(&encrypted, &other_encrypted)
}

// Whether two blocks are the same.
fn is_same(block: &[u8; 8], other: &[u8; 8]) -> bool
    ensures { IsTrue result ↔ (block.now ≡ other.now) }
{
    block == other
}
