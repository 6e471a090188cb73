//! A cipher that encrypts by its calls for lists, in the form that the modes take: the width of the
//! batches, and whether tables may be read, are chosen once.

ghost use Rattle.std.specs.Prelude.{◌≡◌};

use crate::feedback::Feedback;
use des::cipher::{BlockCipherEncrypt, OneBlockAtATime};
use des_fast::many::{ManyBlocks, Slice};
use std::marker::PhantomData;

/// A cipher that encrypts by its calls for lists, in batches of `S::BATCH` blocks.
#[derive(Drop)]
pub struct ByLists<'a, C, S> {
    cipher: &'a C,
    no_tables: bool,
    width: PhantomData<S>,
}

impl<'a, C: ManyBlocks, S: Slice> ByLists<'a, C, S> {
    /// The cipher, by its calls for lists. If `no_tables` is true, no table is read at an index
    /// that depends on the key or on a block.
    pub fn new(cipher: &'a C, no_tables: bool) -> ByLists<'a, C, S>
        ensures cipher { result.cipher.now ≡ cipher.now }
        ensures no_tables { result.no_tables ≡ no_tables }
    {
        ByLists {
            cipher,
            no_tables,
            width: PhantomData,
        }
    }
}

impl<'a, C, S> OneBlockAtATime for ByLists<'a, C, S> {
    ghost use Rattle.std.specs.Prelude.{refl};

    ghost par_blocks_is_one = { refl };
}

impl<'a, C: ManyBlocks, S: Slice> BlockCipherEncrypt for ByLists<'a, C, S> {
    ghost encrypted = { λ by. C.encrypted by.cipher.now };

    fn encrypt_block(&self, block: &mut [u8; 8]) {
        self.cipher.encrypt_one(self.no_tables, block);
    }

    fn encrypt_blocks(&self, blocks: &mut [[u8; 8]]) {
        self.cipher.encrypt_list_by::<S>(self.no_tables, blocks);
    }
}

impl<'a, C: ManyBlocks, S: Slice> Feedback for ByLists<'a, C, S> {
    fn write_outputs(&self, iv: &[u8; 8], plaintext: &[[u8; 8]], outputs: &mut [[u8; 8]]) {
        self.cipher
            .write_output_list(self.no_tables, iv, plaintext, outputs);
    }
}
