//! Keys that are spread over slices once, for many lists.

ghost use Rattle.std.specs.Prelude.{◌≡◌, ◌↔◌, ℕ, List, IsTrue, IsOk, OnOk, OnErr, length, map, sum};
ghost use Rattle.std.specs.List.{All};
ghost use Rattle.des.specs.Blocks.{IsBlock};
ghost use Rattle.des.specs.Cbc.{CbcDecrypts};
ghost use Rattle.des_fast.specs.Records.{CbcEach, CbcDecryptsEach, GoOn};
ghost use Rattle.des_fast.specs.SpreadKeys.{AreSpreadKeys};

use super::lanes::LaneKeys;
use super::passes::{spread_one, spread_three};
use super::{ManyBlocks, Slice, cbc_lists, process, records};
use crate::Des;
use des::cipher::{NotEqualError, are_blocks};
use des::tdes::{Form, Parts, Triple};

/// The keys of a cipher, spread over slices of a width, for those who have many short lists under
/// one key: a list then takes the time of its batches alone. They answer as the cipher does, and
/// take some 11,000 bytes over vectors of two words, and 22,000 over four.
#[derive(Drop)]
pub struct SpreadKeys<S> {
    encryption: LaneKeys<S>,
    decryption: LaneKeys<S>,
}

impl<S: Slice> SpreadKeys<S> {
    // Zeros, for the caller to write over.
    #[inline(always)]
    fn zeros() -> SpreadKeys<S> {
        SpreadKeys {
            encryption: LaneKeys::zeros(),
            decryption: LaneKeys::zeros(),
        }
    }

    /// Encrypts each block of 8 bytes in place, in order, as `encrypt_many` of a cipher whose keys
    /// these are. An empty list stays empty.
    pub fn encrypt_many(&self, blocks: &mut [[u8; 8]])
        ensures blocks { All IsBlock blocks.old }
        ensures encrypted { (encrypted decrypted : List ℕ → List ℕ)
            → AreSpreadKeys S.BATCH S.bit self.now encrypted decrypted
            → blocks.new ≡ map encrypted blocks.old }
    {
        process::<S>(blocks, self.encryption.passes());
    }

    /// Decrypts each block of 8 bytes in place, in order, as `decrypt_many` of a cipher whose keys
    /// these are. An empty list stays empty.
    pub fn decrypt_many(&self, blocks: &mut [[u8; 8]])
        ensures blocks { All IsBlock blocks.old }
        ensures decrypted { (encrypted decrypted : List ℕ → List ℕ)
            → AreSpreadKeys S.BATCH S.bit self.now encrypted decrypted
            → blocks.new ≡ map decrypted blocks.old }
    {
        process::<S>(blocks, self.decryption.passes());
    }

    /// Decrypts in place a list of blocks of 8 bytes that CBC chained from the initialization
    /// vector, as `decrypt_cbc` of a cipher whose keys these are. An empty list stays empty.
    pub fn decrypt_cbc(&self, iv: &[u8; 8], blocks: &mut [[u8; 8]])
        ensures blocks { All IsBlock blocks.old }
        ensures cbc_decrypted { (encrypted decrypted : List ℕ → List ℕ)
            → AreSpreadKeys S.BATCH S.bit self.now encrypted decrypted
            → CbcDecrypts decrypted iv.now blocks.old blocks.new }
    {
        cbc_lists::cbc_decrypt::<S>(blocks, iv, self.decryption.passes());
    }

    /// Encrypts records in place by CBC, in step: one record after another stands in `blocks`, of
    /// as many blocks of 8 bytes as `sizes` says, and `vectors[k]` is the initialization vector of
    /// record k, as `des::cbc::encrypt` does record by record. Each vector becomes the one with
    /// which its chain goes on, the last ciphertext block of its record. A record may be empty. A
    /// group of as many records as a batch has blocks takes as many batches as its longest record
    /// has blocks. If vectors and sizes differ in number, or the sizes do not sum up to the number
    /// of blocks, the answer is `NotEqualError`, and vectors and blocks are unchanged.
    pub fn encrypt_cbc_records(
        &self,
        vectors: &mut [[u8; 8]],
        sizes: &[usize],
        blocks: &mut [[u8; 8]],
    ) -> Result<(), NotEqualError>
        ensures vectors { All IsBlock vectors.old }
        ensures blocks { All IsBlock blocks.old }
        ensures accepted { IsOk result ↔ ((length vectors.old ≡ length sizes.now)
            × (sum sizes.now ≡ length blocks.old)) }
        ensures chained { OnOk result ((encrypted decrypted : List ℕ → List ℕ)
            → AreSpreadKeys S.BATCH S.bit self.now encrypted decrypted
            → CbcEach encrypted sizes.now vectors.old blocks.old blocks.new) }
        ensures goes_on { OnOk result ((encrypted decrypted : List ℕ → List ℕ)
            → AreSpreadKeys S.BATCH S.bit self.now encrypted decrypted
            → GoOn sizes.now vectors.old blocks.new vectors.new) }
        ensures count { (length vectors.new ≡ length vectors.old)
            × (length blocks.new ≡ length blocks.old) }
        ensures err { OnErr result ((vectors.new ≡ vectors.old) × (blocks.new ≡ blocks.old)) }
    {
        if !are_records(vectors, sizes, blocks) {
            return Err(NotEqualError);
        }
        records::cbc_encrypt(vectors, sizes, blocks, self.encryption.passes());
        Ok(())
    }

    /// Decrypts in place records that CBC chained, as `encrypt_cbc_records` does: ciphertext goes
    /// in, the plaintext comes out, and each vector becomes the last ciphertext block of its
    /// record. Records of any lengths take as many batches as one list of all their blocks.
    pub fn decrypt_cbc_records(
        &self,
        vectors: &mut [[u8; 8]],
        sizes: &[usize],
        blocks: &mut [[u8; 8]],
    ) -> Result<(), NotEqualError>
        ensures vectors { All IsBlock vectors.old }
        ensures blocks { All IsBlock blocks.old }
        ensures accepted { IsOk result ↔ ((length vectors.old ≡ length sizes.now)
            × (sum sizes.now ≡ length blocks.old)) }
        ensures cbc_decrypted { OnOk result ((encrypted decrypted : List ℕ → List ℕ)
            → AreSpreadKeys S.BATCH S.bit self.now encrypted decrypted
            → CbcDecryptsEach decrypted sizes.now vectors.old blocks.old blocks.new) }
        ensures goes_on { OnOk result ((encrypted decrypted : List ℕ → List ℕ)
            → AreSpreadKeys S.BATCH S.bit self.now encrypted decrypted
            → GoOn sizes.now vectors.old blocks.old vectors.new) }
        ensures count { (length vectors.new ≡ length vectors.old)
            × (length blocks.new ≡ length blocks.old) }
        ensures err { OnErr result ((vectors.new ≡ vectors.old) × (blocks.new ≡ blocks.old)) }
    {
        if !are_records(vectors, sizes, blocks) {
            return Err(NotEqualError);
        }
        records::cbc_decrypt(vectors, sizes, blocks, self.decryption.passes());
        Ok(())
    }
}

// Whether vectors and sizes are as many, and the sizes sum up to the number of blocks.
fn are_records(vectors: &[[u8; 8]], sizes: &[usize], blocks: &[[u8; 8]]) -> bool
    ensures vectors { All IsBlock vectors.now }
    ensures blocks { All IsBlock blocks.now }
    ensures equal { IsTrue result ↔ ((length vectors.now ≡ length sizes.now)
        × (sum sizes.now ≡ length blocks.now)) }
{
    are_blocks(vectors);
    are_blocks(blocks);
    vectors.len() == sizes.len() && records::add_up_to(sizes, blocks.len())
}

/// A block cipher whose keys are spread once for many lists.
pub trait SpreadOnce: ManyBlocks {
    /// The keys of this cipher, spread over slices of `S::BATCH` blocks.
    fn spread_keys<S: Slice>(&self) -> SpreadKeys<S>
        ensures { AreSpreadKeys S.BATCH S.bit result (Self.encrypted self.now)
            (Self.decrypted self.now) };
}

impl SpreadOnce for Des {
    fn spread_keys<S: Slice>(&self) -> SpreadKeys<S> {
        let mut keys = SpreadKeys::zeros();
        spread_one(&mut keys.encryption.passes, &self.pass(false));
        keys.encryption.is_triple = false;
        spread_one(&mut keys.decryption.passes, &self.pass(true));
        keys.decryption.is_triple = false;
        keys
    }
}

impl<P: Parts<Single = Des>, F: Form> SpreadOnce for Triple<P, F> {
    fn spread_keys<S: Slice>(&self) -> SpreadKeys<S> {
        let mut keys = SpreadKeys::zeros();
        spread_three(&mut keys.encryption.passes, &self.encryption_passes());
        keys.encryption.is_triple = true;
        spread_three(&mut keys.decryption.passes, &self.decryption_passes());
        keys.decryption.is_triple = true;
        keys
    }
}
