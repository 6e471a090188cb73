//! The retail MAC, which is MAC algorithm 3 of ISO/IEC 9797-1:2011.

ghost use Rattle.std.specs.Prelude.{◌*◌, ◌++◌, ℕ, List, [], take, drop};
ghost use Rattle.des.specs.Blocks.{IsKey};
ghost use Rattle.des_mac.specs.Padding.{padded};
ghost use Rattle.des_mac.specs.RetailMac.{retail_mac_of};
ghost use Rattle.des_mac.specs.HoldsRetail.{HoldsRetail};
ghost use Rattle.des_mac.specs.IsProgress.{HoldsOneBlock, IsProgressOf};

use crate::by_key::{are_key_bytes, decrypt, encrypt};
use crate::chaining::Chaining;
use crate::mac::Mac;
use crate::padding::Padding;
use crate::progress::Progress;
use des::cipher::{InvalidLength, KeyedCipher};
use std::marker::PhantomData;

/// The retail MAC over the cipher `C`, with the padding `P`: CBC-MAC under the first of two keys,
/// decrypted under the second and encrypted under the first again. Over `Des` it is what payment
/// systems have under this name, with a key of 16 bytes: DES with two keys.
#[derive(Drop)]
pub struct RetailMac<C, P> {
    chaining: Chaining<C>,
    second: C,
    padding: PhantomData<P>,
}

impl<C: KeyedCipher + Drop, P: Padding> RetailMac<C, P> {
    /// The state of the message of no bytes under the two keys.
    pub fn new(first: &C::Key, second: &C::Key) -> RetailMac<C, P>
        ensures { ⟦<RetailMac<C, P> as Mac>⟧.holds result
            (C.Key.bytes_of first.now ++ C.Key.bytes_of second.now) [] }
    {
        are_key_bytes(first);
        are_key_bytes(second);
        RetailMac {
            chaining: Chaining::new(first),
            second: C::new(second),
            padding: PhantomData,
        }
    }

    /// The state that has come so far, over the ciphers of the two keys, one after the other.
    pub fn resume(first: C, second: C, progress: &Progress) -> RetailMac<C, P>
        requires { HoldsOneBlock progress.now }
        ensures { (key m : List ℕ)
            → IsKey C.KEY_SIZE (take C.KEY_SIZE key) → C.is_made_from first (take C.KEY_SIZE key)
            → IsKey C.KEY_SIZE (drop C.KEY_SIZE key) → C.is_made_from second (drop C.KEY_SIZE key)
            → IsProgressOf (C.encryption (take C.KEY_SIZE key)) progress.now m
            → ⟦<RetailMac<C, P> as Mac>⟧.holds result key m }
    {
        RetailMac {
            chaining: Chaining::resume(first, progress),
            second,
            padding: PhantomData,
        }
    }

    /// How far the state has come: its chain is that of the first key.
    pub fn progress(&self) -> Progress
        ensures { (key m : List ℕ) → ⟦<RetailMac<C, P> as Mac>⟧.holds self.now key m
            → IsProgressOf (C.encryption (take C.KEY_SIZE key)) result m }
    {
        self.chaining.progress()
    }
}

impl<C: KeyedCipher + Drop, P: Padding> Mac for RetailMac<C, P> {
    ghost key_size = { 2 * C.KEY_SIZE };

    ghost tag_of = { λ key m.
        retail_mac_of C.KEY_SIZE C.encryption C.decryption key (padded P.padding_after m) };

    ghost holds = { λ state key m.
        HoldsRetail C.KEY_SIZE C.is_made_from C.encryption state key m };

    /// The state of the message of no bytes under a key that is two keys of `C`, one after the
    /// other.
    fn new_from_slice(key: &[u8]) -> Result<RetailMac<C, P>, InvalidLength> {
        if key.len() % 2 != 0 {
            return Err(InvalidLength);
        }
        let (first, second) = key.split_at(key.len() / 2);
        Ok(RetailMac {
            chaining: Chaining::new_from_slice(first)?,
            second: C::new_from_slice(second)?,
            padding: PhantomData,
        })
    }

    fn update(&mut self, bytes: &[u8]) {
        self.chaining.update(bytes);
    }

    fn finalize(mut self) -> [u8; 8] {
        let padding = P::padding(self.chaining.count);
        let mut mac = self.chaining.close(padding);
        decrypt(&self.second, &mut mac);
        encrypt(&self.chaining.cipher, &mut mac);
        mac
    }
}
