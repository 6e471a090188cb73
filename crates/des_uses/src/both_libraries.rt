//! One key, in a cipher of `des` and in one over another single cipher, such as that of `des_fast`:
//! what the clauses that the two make the same blocks give to a caller.

ghost use Rattle.std.specs.Prelude.{◌≡◌};
ghost use Rattle.des.specs.Relations.{IsTheOne, AgreeOnBlocks};

use crate::by_relation::RelatesBlocks;
use des::cipher::{KeyInit, KeySizeUser};
use des::tdes::{Ede2, Ede3, Eee2, Eee3, SingleDes};

/// A cipher whose `new` says that it makes the same blocks as a cipher of `des` with the same key.
pub trait AgreesWithPort: RelatesBlocks {
    /// The cipher of `des`.
    type Port: RelatesBlocks + KeySizeUser<Key = Self::Key> + Drop;

    /// The cipher of a key, by `new`.
    fn of_key_alike(key: &Self::Key) -> Self
        ensures encrypts_alike { (other : Self.Port)
            → Self.Port.is_made_from other (Self.Key.bytes_of key.now)
            → AgreeOnBlocks (Self.encrypted result) (Self.Port.encrypted other) }
        ensures decrypts_alike { (other : Self.Port)
            → Self.Port.is_made_from other (Self.Key.bytes_of key.now)
            → AgreeOnBlocks (Self.decrypted result) (Self.Port.decrypted other) };
}

impl AgreesWithPort for des_fast::Des {
    type Port = des::Des;

    fn of_key_alike(key: &[u8; 8]) -> des_fast::Des {
        des_fast::Des::new(key)
    }
}

impl<D: SingleDes> AgreesWithPort for Ede3<D> {
    type Port = des::TdesEde3;

    fn of_key_alike(key: &[u8; 24]) -> Ede3<D> {
        Ede3::<D>::new(key)
    }
}

impl<D: SingleDes> AgreesWithPort for Eee3<D> {
    type Port = des::TdesEee3;

    fn of_key_alike(key: &[u8; 24]) -> Eee3<D> {
        Eee3::<D>::new(key)
    }
}

impl<D: SingleDes> AgreesWithPort for Ede2<D> {
    type Port = des::TdesEde2;

    fn of_key_alike(key: &[u8; 16]) -> Ede2<D> {
        Ede2::<D>::new(key)
    }
}

impl<D: SingleDes> AgreesWithPort for Eee2<D> {
    type Port = des::TdesEee2;

    fn of_key_alike(key: &[u8; 16]) -> Eee2<D> {
        Eee2::<D>::new(key)
    }
}

/// What the cipher of `des` makes of a block by encryption, and what the other makes of it, under a
/// key. The two are one.
pub fn encrypted_by_both<C: AgreesWithPort + Drop>(
    key: &C::Key,
    block: &[u8; 8],
) -> ([u8; 8], [u8; 8])
    ensures enciphers { IsTheOne
        (λ encrypted. C.Port.relation (C.Key.bytes_of key.now) block.now encrypted) result.0 }
    ensures alike { result.1 ≡ result.0 }
{
    let cipher = C::Port::of_key(key);
    let other = C::of_key_alike(key);
    let (mut by_port, mut by_other) = (*block, *block);
    cipher.encrypt(&mut by_port);
    other.encrypt(&mut by_other);
    (by_port, by_other)
}

/// The decryptions of a block by both.
pub fn decrypted_by_both<C: AgreesWithPort + Drop>(
    key: &C::Key,
    block: &[u8; 8],
) -> ([u8; 8], [u8; 8])
    ensures deciphers { IsTheOne
        (λ decrypted. C.Port.relation (C.Key.bytes_of key.now) decrypted block.now) result.0 }
    ensures alike { result.1 ≡ result.0 }
{
    let cipher = C::Port::of_key(key);
    let other = C::of_key_alike(key);
    let (mut by_port, mut by_other) = (*block, *block);
    cipher.decrypt(&mut by_port);
    other.decrypt(&mut by_other);
    (by_port, by_other)
}
