//! CMAC (NIST SP 800-38B).

ghost use Rattle.std.specs.Prelude.{◌≡◌, ℕ, List, []};
ghost use Rattle.des.specs.Blocks.{IsKey};
ghost use Rattle.des_mac.specs.CbcMac.{zero_block};
ghost use Rattle.des_mac.specs.Cmac.{doubled as doubled_block, subkey_1, cmac};
ghost use Rattle.des_mac.specs.Holds.{Holds};
ghost use Rattle.des_mac.specs.IsProgress.{HoldsOneBlock, IsProgressOf};

use crate::by_key::encrypt;
use crate::chaining::Chaining;
use crate::mac::Mac;
use crate::padding::{Method2, Padding};
use crate::progress::Progress;
use des::cipher::{InvalidLength, KeyedCipher};

/// CMAC over the cipher `C`: CBC-MAC with the last block xored with one of two subkeys, the first
/// if the block is whole, and the second if it is padded. Messages of different lengths are
/// safe under one key.
#[derive(Drop)]
pub struct Cmac<C> {
    chaining: Chaining<C>,
}

// A block doubled (6.1): its bits moved by one to the left, and if a one bit leaves, the last
// byte xored with 00011011.
pub(crate) fn doubled(block: &[u8; 8]) -> [u8; 8]
    ensures { result ≡ doubled_block block.now }
{
    let word = u64::from_be_bytes(*block);
    let moved = word.wrapping_mul(2);
    let answer = if word < 1 << 63 {
        moved
    } else {
        moved ^ 0b00011011
    };
    answer.to_be_bytes()
}

// The first subkey (6.1): the block of zeros encrypted, and doubled.
fn first_subkey<C: KeyedCipher>(cipher: &C) -> [u8; 8]
    ensures { (key : List ℕ) → IsKey C.KEY_SIZE key → C.is_made_from cipher.now key
        → result ≡ subkey_1 (C.encryption key zero_block) }
{
    let mut block = [0; 8];
    encrypt(cipher, &mut block);
    doubled(&block)
}

impl<C: KeyedCipher + Drop> Cmac<C> {
    /// The state of the message of no bytes under the key.
    pub fn new(key: &C::Key) -> Cmac<C>
        ensures { ⟦<Cmac<C> as Mac>⟧.holds result (C.Key.bytes_of key.now) [] }
    {
        Cmac {
            chaining: Chaining::new(key),
        }
    }

    /// The state that has come so far, over the cipher of its key.
    pub fn resume(cipher: C, progress: &Progress) -> Cmac<C>
        requires { HoldsOneBlock progress.now }
        ensures { (key m : List ℕ) → IsKey C.KEY_SIZE key → C.is_made_from cipher key
            → IsProgressOf (C.encryption key) progress.now m
            → ⟦<Cmac<C> as Mac>⟧.holds result key m }
    {
        Cmac {
            chaining: Chaining::resume(cipher, progress),
        }
    }

    /// How far the state has come.
    pub fn progress(&self) -> Progress
        ensures { (key m : List ℕ) → ⟦<Cmac<C> as Mac>⟧.holds self.now key m
            → IsProgressOf (C.encryption key) result m }
    {
        self.chaining.progress()
    }
}

impl<C: KeyedCipher + Drop> Mac for Cmac<C> {
    ghost key_size = { C.KEY_SIZE };

    ghost tag_of = { λ key m. cmac (C.encryption key) m };

    ghost holds = { λ state key m.
        Holds C.KEY_SIZE C.is_made_from C.encryption state.chaining key m };

    fn new_from_slice(key: &[u8]) -> Result<Cmac<C>, InvalidLength> {
        Ok(Cmac {
            chaining: Chaining::new_from_slice(key)?,
        })
    }

    fn update(&mut self, bytes: &[u8]) {
        self.chaining.update(bytes);
    }

    fn finalize(mut self) -> [u8; 8] {
        let mut subkey = first_subkey(&self.chaining.cipher);
        let count = self.chaining.count;
        if count < 8 {
            subkey = doubled(&subkey);
            self.chaining.update(Method2::padding(count));
        }
        self.chaining.close_masked(&subkey)
    }
}
