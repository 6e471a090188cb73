//! Lists that CBC chained (FIPS 81, cipher block chaining mode). A batch goes at a time, or some
//! blocks side by side: each block is deciphered by itself, and xored with the ciphertext block
//! before it.

ghost use Rattle.std.specs.Prelude.{◌≡◌, ℕ, List};
ghost use Rattle.std.specs.List.{All};
ghost use Rattle.des.specs.Blocks.{IsBlock};
ghost use Rattle.des.specs.Cbc.{CbcDecrypts};
ghost use Rattle.des_fast.specs.SpreadKeys.{AreSlicesFor};

use super::batches::process_few;
use super::{MAX_BATCH, Slice, process};
use crate::side_by_side::BlockTransform;
use crate::slices::PassSlices;
use des::cbc::{self, ListDecryption};

// Passes that take a few blocks, some side by side.
#[derive(Drop)]
struct FewBlocks<'a, P> {
    no_tables: bool,
    passes: &'a P,
}

impl<'a, P: BlockTransform> ListDecryption for FewBlocks<'a, P> {
    ghost decrypts = { λ few decryption. decryption ≡ P.output few.passes.now };

    fn decrypt_list(&self, blocks: &mut [[u8; 8]]) {
        process_few(self.no_tables, blocks, self.passes);
    }
}

// The blocks that go through a buffer at a time: four threes, or three fours.
const IN_BUFFER: usize = 12;

/// Decrypts a few blocks that CBC chained from `iv`, some side by side, through passes.
pub(super) fn cbc_decrypt_few<P: BlockTransform>(
    no_tables: bool,
    blocks: &mut [[u8; 8]],
    iv: &[u8; 8],
    passes: &P,
)
    ensures blocks { All IsBlock blocks.old }
    ensures cbc_decrypted { CbcDecrypts (P.output passes.now) iv.now blocks.old blocks.new }
{
    let mut buffer = [[0; 8]; IN_BUFFER];
    cbc::decrypt_by(&FewBlocks { no_tables, passes }, iv, blocks, &mut buffer);
}

// Passes that take blocks in batches.
#[derive(Drop)]
struct InBatches<'a, S> {
    passes: &'a [PassSlices<S>],
}

impl<'a, S: Slice> ListDecryption for InBatches<'a, S> {
    ghost decrypts = { λ batches decryption. AreSlicesFor S.BATCH S.bit batches.passes.now decryption };

    fn decrypt_list(&self, blocks: &mut [[u8; 8]]) {
        process::<S>(blocks, self.passes);
    }
}

/// Decrypts blocks that CBC chained from `iv` through passes, batch after batch, and then what is
/// left over.
pub(super) fn cbc_decrypt<S: Slice>(blocks: &mut [[u8; 8]], iv: &[u8; 8], passes: &[PassSlices<S>])
    ensures blocks { All IsBlock blocks.old }
    ensures cbc_decrypted { (decryption : List ℕ → List ℕ)
        → AreSlicesFor S.BATCH S.bit passes.now decryption
        → CbcDecrypts decryption iv.now blocks.old blocks.new }
{
    let mut buffer = [[0; 8]; MAX_BATCH];
    cbc::decrypt_by(&InBatches { passes }, iv, blocks, &mut buffer[..S::BATCH]);
}
