//! Lists of blocks, a batch at a time: quicker than one by one if a list is long.
//!
//! A list goes in batches of `S::BATCH` blocks: 128 over vectors of two words, and 256 over vectors
//! of four, which are quicker in a program that is built for a processor with vectors of 256 bits,
//! and slower elsewhere. What it has after its last whole batch goes a few blocks side by side if
//! it is few blocks, and else in a batch that is filled up with zeros, which takes about as long as
//! a whole one. Few are at most 31 blocks if tables may be read, and at most 8 if
//! none may be. Only encryption by CBC goes block after block, since each waits for the one before
//! it.
//!
//! The calls with `list` in their names take `no_tables`: if it is true, no table is read at an
//! index that depends on the key or on a block, which is tested and not proved. No other call here
//! reads one. Those named `_by` take the width of the caller,
//! `cipher.encrypt_many_by::<u64x4>(blocks)`, and others 128 blocks at a time. `spread_keys`
//! spreads a key over slices once, for many short lists, each of which goes in batches.
//!
//! Many short messages go together, each in a lane of a batch: `KeyForEach` takes a key for each
//! block of a list, and chains messages in step (those of MACs); `SpreadKeys`, the keys of
//! `spread_keys`, take records that CBC chained.

ghost use Rattle.std.specs.Prelude.{◌≡◌, ℕ, List, map};
ghost use Rattle.std.specs.List.{All};
ghost use Rattle.des.specs.Blocks.{AnswersEach, IsBlock};
ghost use Rattle.des.specs.Cbc.{Cbc, CbcUnder, CbcDecrypts, xor_blocks};
ghost use Rattle.des.specs.Relations.{IsTheOne};
ghost use Rattle.des_fast.specs.ChainingValues.{AreOutputs};
ghost use Rattle.des_fast.specs.SpreadKeys.{AreSlicesFor};

mod batches;
mod cbc_lists;
mod chain_keys;
mod chaining_values;
mod ciphers;
mod each_key;
mod lanes;
mod passes;
mod records;
mod spread;

pub use crate::slices::Slice;
use crate::slices::{MAX_BATCH, PassSlices};
pub use batches::MAX_NARROW;
pub use chaining_values::BlockLists;
use des::cbc;
use des::cipher::{Relating, are_blocks};
pub use each_key::KeyForEach;
pub use lanes::LaneKeys;
use lanes::process_lanes_part;
pub use records::add_up_to;
pub use spread::{SpreadKeys, SpreadOnce};
use std::simd::prelude::*;

// The xor of two blocks.
#[inline(always)]
fn xored(block: &[u8; 8], other: &[u8; 8]) -> [u8; 8]
    ensures { result ≡ xor_blocks block.now other.now }
{
    let mut answer = *block;
    cbc::xor(&mut answer, other);
    answer
}

// Takes blocks through passes, batch after batch, and then what is left over.
fn process<S: Slice>(blocks: &mut [[u8; 8]], passes: &[PassSlices<S>])
    ensures blocks { All IsBlock blocks.old }
    ensures processed { (answer : List ℕ → List ℕ) → AreSlicesFor S.BATCH S.bit passes.now answer
        → blocks.new ≡ map answer blocks.old }
{
    are_blocks(blocks);
    let mut from = 0;
    'parts: while from < blocks.len() {
        let count = S::BATCH.min(blocks.len() - from);
        process_lanes_part(&mut blocks[from..from + count], passes);
        from += count;
    }
}

/// A block cipher that treats many blocks of a list together. No call changes the cipher.
///
/// A type writes the calls with `list` in their names, and `encrypt_one`. Those that encrypt or
/// decrypt a list say what the relation of the key makes of it, too. The others rest on them, read
/// no table, and say less. The calls of the five ciphers of this crate take no memory, but for
/// batches keep the halves C and D of their keys on the stack, spread over slices: 1,800 bytes for
/// each pass of DES over vectors of two words, 3,600 over vectors of four. An empty list stays
/// empty, and takes no time.
pub trait ManyBlocks: Relating {
    /// Encrypts each block of 8 bytes in place, in order, as `encrypt_blocks` does, in batches of
    /// `S::BATCH` blocks and the few that are left over side by side.
    fn encrypt_list_by<S: Slice>(&self, no_tables: bool, blocks: &mut [[u8; 8]])
        ensures blocks { All IsBlock blocks.old }
        ensures encrypted { blocks.new ≡ map (Self.encrypted self.now) blocks.old }
        ensures processed { (key : List ℕ) → Self.is_made_from self.now key
            → IsTheOne (λ answers. AnswersEach (Self.relation key) blocks.old answers) blocks.new };

    /// Decrypts each block of 8 bytes in place, in order, as `decrypt_blocks` does, in batches of
    /// `S::BATCH` blocks and the few that are left over side by side.
    fn decrypt_list_by<S: Slice>(&self, no_tables: bool, blocks: &mut [[u8; 8]])
        ensures blocks { All IsBlock blocks.old }
        ensures decrypted { blocks.new ≡ map (Self.decrypted self.now) blocks.old }
        ensures processed { (key : List ℕ) → Self.is_made_from self.now key
            → IsTheOne (λ answers. AnswersEach (Self.relation key) answers blocks.old) blocks.new };

    /// Encrypts one block of 8 bytes in place, as `encrypt_block` does.
    fn encrypt_one(&self, no_tables: bool, block: &mut [u8; 8])
        ensures { block.new ≡ Self.encrypted self.now block.old };

    /// Encrypts in place a list of blocks of 8 bytes by CBC (FIPS 81, cipher block chaining mode),
    /// chained from the initialization vector, as `des::cbc::encrypt` does, block after block:
    /// plaintext goes in, and the ciphertext comes out, as many blocks. Padding and authentication
    /// are left to the caller.
    fn encrypt_cbc_list(&self, no_tables: bool, iv: &[u8; 8], blocks: &mut [[u8; 8]])
        ensures blocks { All IsBlock blocks.old }
        ensures chained { Cbc (Self.encrypted self.now) iv.now blocks.old blocks.new }
        ensures related { (key : List ℕ) → Self.is_made_from self.now key
            → CbcUnder (Self.relation key) iv.now blocks.old blocks.new };

    /// Writes the output blocks of a feedback (FIPS 81, output and cipher feedback mode), block
    /// after block: the first is the encryption of the initialization vector, and each other that
    /// of the one before it xored with the plaintext block there, or, if the plaintext has ended,
    /// of the one before it alone. Those of CFB of 64 bits are written along its plaintext, and
    /// those of OFB along none.
    fn write_output_list(
        &self,
        no_tables: bool,
        iv: &[u8; 8],
        plaintext: &[[u8; 8]],
        outputs: &mut [[u8; 8]],
    )
        ensures { AreOutputs (Self.encrypted self.now) iv.now plaintext.now outputs.new };

    /// Decrypts in place a list of blocks of 8 bytes that CBC chained from the initialization
    /// vector, as `decrypt_cbc` does, in batches of `S::BATCH` blocks and the few that are left
    /// over side by side.
    fn decrypt_cbc_list_by<S: Slice>(&self, no_tables: bool, iv: &[u8; 8], blocks: &mut [[u8; 8]])
        ensures blocks { All IsBlock blocks.old }
        ensures cbc_decrypted { CbcDecrypts (Self.decrypted self.now) iv.now blocks.old blocks.new }
        ensures related { (key : List ℕ) → Self.is_made_from self.now key
            → CbcUnder (Self.relation key) iv.now blocks.new blocks.old };

    /// Encrypts each block of 8 bytes in place, in order, as `encrypt_blocks` does, `S::BATCH`
    /// blocks at a time.
    final fn encrypt_many_by<S: Slice>(&self, blocks: &mut [[u8; 8]])
        ensures blocks { All IsBlock blocks.old }
        ensures encrypted { blocks.new ≡ map (Self.encrypted self.now) blocks.old }
    {
        self.encrypt_list_by::<S>(true, blocks);
    }

    /// Decrypts each block of 8 bytes in place, in order, as `decrypt_blocks` does, `S::BATCH`
    /// blocks at a time.
    final fn decrypt_many_by<S: Slice>(&self, blocks: &mut [[u8; 8]])
        ensures blocks { All IsBlock blocks.old }
        ensures decrypted { blocks.new ≡ map (Self.decrypted self.now) blocks.old }
    {
        self.decrypt_list_by::<S>(true, blocks);
    }

    /// Decrypts in place a list of blocks of 8 bytes that CBC chained from the initialization
    /// vector, as `decrypt_cbc` does, `S::BATCH` blocks at a time.
    final fn decrypt_cbc_by<S: Slice>(&self, iv: &[u8; 8], blocks: &mut [[u8; 8]])
        ensures blocks { All IsBlock blocks.old }
        ensures cbc_decrypted { CbcDecrypts (Self.decrypted self.now) iv.now blocks.old blocks.new }
    {
        self.decrypt_cbc_list_by::<S>(true, iv, blocks);
    }

    /// Encrypts each block of 8 bytes in place, in order, as `encrypt_blocks` does, 128 blocks at a
    /// time.
    final fn encrypt_many(&self, blocks: &mut [[u8; 8]])
        ensures blocks { All IsBlock blocks.old }
        ensures encrypted { blocks.new ≡ map (Self.encrypted self.now) blocks.old }
    {
        self.encrypt_many_by::<u64x2>(blocks);
    }

    /// Decrypts each block of 8 bytes in place, in order, as `decrypt_blocks` does, 128 blocks at a
    /// time.
    final fn decrypt_many(&self, blocks: &mut [[u8; 8]])
        ensures blocks { All IsBlock blocks.old }
        ensures decrypted { blocks.new ≡ map (Self.decrypted self.now) blocks.old }
    {
        self.decrypt_many_by::<u64x2>(blocks);
    }

    /// Decrypts in place a list of blocks of 8 bytes that CBC (FIPS 81, cipher block chaining mode)
    /// chained from the initialization vector, as `des::cbc::decrypt` does, 128 blocks at a time:
    /// ciphertext goes in, and the plaintext comes out, as many blocks. With q the ciphertext and p
    /// the plaintext, numbered from 1, q(0) the initialization vector and D the decryption by the
    /// cipher, p(n) = D(q(n)) ^ q(n-1). Padding and authentication are left to the caller.
    final fn decrypt_cbc(&self, iv: &[u8; 8], blocks: &mut [[u8; 8]])
        ensures blocks { All IsBlock blocks.old }
        ensures cbc_decrypted { CbcDecrypts (Self.decrypted self.now) iv.now blocks.old blocks.new }
    {
        self.decrypt_cbc_by::<u64x2>(iv, blocks);
    }
}
