//! Ciphers that make the output blocks of a feedback: those of OFB and of CFB of 64 bits, each of
//! which waits for the one before it.

ghost use Rattle.std.specs.Prelude.{◌≡◌, slice_index_or, replicate};
ghost use Rattle.des_fast.specs.ChainingValues.{AreOutputs};

use des::cbc;
use des::cipher::BlockCipherEncrypt;
use des::tdes::{Form, Parts, Triple};
use des_fast::box_lookup::BoxLookup;

/// The block at a place, or zeros after the last.
pub(crate) fn block_at(blocks: &[[u8; 8]], place: usize) -> [u8; 8]
    ensures { result ≡ slice_index_or blocks.now place (replicate 8 0) }
{
    match blocks.get(place) {
        Some(block) => *block,
        None => [0; 8],
    }
}

/// A cipher that makes the output blocks of a feedback, block after block or in a way of its own.
pub trait Feedback: BlockCipherEncrypt {
    /// Writes output blocks of 8 bytes (FIPS 81, output and cipher feedback mode): the first is the
    /// encryption of `iv`, and each other that of the one before it xored with the plaintext block
    /// there, or, if the plaintext has ended, of the one before it alone.
    fn write_outputs(&self, iv: &[u8; 8], plaintext: &[[u8; 8]], outputs: &mut [[u8; 8]])
        ensures { AreOutputs (Self.encrypted self.now) iv.now plaintext.now outputs.new }
    {
        let mut register = *iv;
        for j in 0..outputs.len() {
            let mut output = register;
            self.encrypt_block(&mut output);
            outputs[j] = output;
            register = block_at(plaintext, j);
            cbc::xor(&mut register, &output);
        }
    }
}

impl Feedback for des::Des {}

impl<W: BoxLookup> Feedback for des_fast::single::Des<W> {}

impl<P: Parts, F: Form> Feedback for Triple<P, F> {}
