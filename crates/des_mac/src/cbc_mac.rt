//! CBC-MAC, which is MAC algorithm 1 of ISO/IEC 9797-1:2011.

ghost use Rattle.std.specs.Prelude.{ℕ, List, []};
ghost use Rattle.des.specs.Blocks.{IsKey};
ghost use Rattle.des_mac.specs.Padding.{padded};
ghost use Rattle.des_mac.specs.CbcMac.{cbc_mac};
ghost use Rattle.des_mac.specs.Holds.{Holds};
ghost use Rattle.des_mac.specs.IsProgress.{HoldsOneBlock, IsProgressOf};

use crate::chaining::Chaining;
use crate::mac::Mac;
use crate::padding::Padding;
use crate::progress::Progress;
use des::cipher::{InvalidLength, KeyedCipher};
use std::marker::PhantomData;

/// CBC-MAC over the cipher `C`, with the padding `P`. The tag is the last block of the CBC
/// encryption of the padded message from a vector of zeros.
///
/// It is safe only if every message under a key has the same length, one that both sides know:
/// from tags of short messages anybody can make that of a longer one.
#[derive(Drop)]
pub struct CbcMac<C, P> {
    chaining: Chaining<C>,
    padding: PhantomData<P>,
}

impl<C: KeyedCipher + Drop, P: Padding> CbcMac<C, P> {
    /// The state of the message of no bytes under the key.
    pub fn new(key: &C::Key) -> CbcMac<C, P>
        ensures { ⟦<CbcMac<C, P> as Mac>⟧.holds result (C.Key.bytes_of key.now) [] }
    {
        CbcMac {
            chaining: Chaining::new(key),
            padding: PhantomData,
        }
    }

    /// The state that has come so far, over the cipher of its key.
    pub fn resume(cipher: C, progress: &Progress) -> CbcMac<C, P>
        requires { HoldsOneBlock progress.now }
        ensures { (key m : List ℕ) → IsKey C.KEY_SIZE key → C.is_made_from cipher key
            → IsProgressOf (C.encryption key) progress.now m
            → ⟦<CbcMac<C, P> as Mac>⟧.holds result key m }
    {
        CbcMac {
            chaining: Chaining::resume(cipher, progress),
            padding: PhantomData,
        }
    }

    /// How far the state has come.
    pub fn progress(&self) -> Progress
        ensures { (key m : List ℕ) → ⟦<CbcMac<C, P> as Mac>⟧.holds self.now key m
            → IsProgressOf (C.encryption key) result m }
    {
        self.chaining.progress()
    }
}

impl<C: KeyedCipher + Drop, P: Padding> Mac for CbcMac<C, P> {
    ghost key_size = { C.KEY_SIZE };

    ghost tag_of = { λ key m. cbc_mac (C.encryption key) (padded P.padding_after m) };

    ghost holds = { λ state key m.
        Holds C.KEY_SIZE C.is_made_from C.encryption state.chaining key m };

    fn new_from_slice(key: &[u8]) -> Result<CbcMac<C, P>, InvalidLength> {
        Ok(CbcMac {
            chaining: Chaining::new_from_slice(key)?,
            padding: PhantomData,
        })
    }

    fn update(&mut self, bytes: &[u8]) {
        self.chaining.update(bytes);
    }

    fn finalize(mut self) -> [u8; 8] {
        let padding = P::padding(self.chaining.count);
        self.chaining.close(padding)
    }
}
