//! The keys of the values of a column.

ghost use Rattle.std.specs.Prelude.{◌≡◌, ◌≤◌, ℕ, Bool, true, List, length, map};
ghost use Rattle.std.specs.List.{flat_map};
ghost use Rattle.des_columns.specs.Forms.{blocks_of};
ghost use Rattle.des_columns.specs.Columns.{decrypted, pieces};

use crate::form::ValueForm;
use des_fast::many::{ManyBlocks, Slice};

/// What decrypts the blocks of values. No call reads a table at an index that depends on a key or
/// a block.
pub(crate) trait ValueKeys {
    /// How many blocks of several values go together at most.
    const MAX_BLOCKS: usize;

    ghost MAX_BLOCKS: { ℕ };

    // There are some, and the buffer of a column takes them.
    ghost fit_buffer: { (1 ≤ MAX_BLOCKS) × (MAX_BLOCKS ≤ 1024) };

    // Whether there is a key for a value.
    ghost has_key: { Self → List ℕ → Bool };

    // What a block of a value decrypts to.
    ghost decryption: { Self → List ℕ → List ℕ → List ℕ };

    /// Whether there is a key for a value: without one it has no text.
    fn has_key_for(&self, value: &[u8]) -> bool
        ensures { result ≡ has_key self.now value.now };

    /// Decrypts the blocks of values in place, one value after another.
    fn decrypt_values<S: Slice>(
        &self,
        form: ValueForm,
        values: &[u8],
        lengths: &[usize],
        blocks: &mut [[u8; 8]],
    )
        requires few { length blocks.old ≤ MAX_BLOCKS }
        requires blocks { blocks.old ≡ flat_map (blocks_of form) (pieces lengths.now values.now) }
        ensures { blocks.new
            ≡ flat_map (decrypted form (decryption self.now)) (pieces lengths.now values.now) };

    /// Decrypts some blocks of a value in place.
    fn decrypt_part<S: Slice>(&self, value: &[u8], blocks: &mut [[u8; 8]])
        ensures { blocks.new ≡ map (decryption self.now value.now) blocks.old };
}

/// One key for all values: the cipher made from it.
#[derive(Drop)]
pub(crate) struct OneKey<C> {
    pub cipher: C,
}

impl<C: ManyBlocks + Drop> ValueKeys for OneKey<C> {
    ghost use Rattle.std.proofs.Common.{lit≤};

    const MAX_BLOCKS: usize = 1024;

    ghost MAX_BLOCKS = { 1024 };

    ghost fit_buffer = { (lit≤ tt, lit≤ tt) };

    ghost has_key = { λ keys value. true };

    ghost decryption = { λ keys value. C.decrypted keys.cipher };

    fn has_key_for(&self, value: &[u8]) -> bool {
        true
    }

    fn decrypt_values<S: Slice>(
        &self,
        form: ValueForm,
        values: &[u8],
        lengths: &[usize],
        blocks: &mut [[u8; 8]],
    ) {
        self.cipher.decrypt_list_by::<S>(true, blocks);
    }

    fn decrypt_part<S: Slice>(&self, value: &[u8], blocks: &mut [[u8; 8]]) {
        self.cipher.decrypt_list_by::<S>(true, blocks);
    }
}
