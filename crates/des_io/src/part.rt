//! A part of a stream of ciphertext blocks, decrypted by itself.

ghost use Rattle.std.specs.Prelude.{◌<◌, ℕ, List, length, IfOk, IfErr};
ghost use Rattle.std.specs.Io.KnownBytes.{Consumes, IsAtEnd};
ghost use Rattle.des_io.specs.Streams.{passage_of, Skips, DecryptsPart, DecryptsPartPrefix, IsEndOrMore};
ghost use Rattle.des_io.specs.StreamFaults.{FailsToSkip, FailsInPart, IsOfReading};

use crate::decryption::{decrypt_blocks, finish, next_count};
use crate::error::{StreamError, without_end};
use crate::mode::BlockMode;
use crate::padding::Padding;
use crate::pieces::{fill, fill_prefix};
use crate::transformation::Transformation;
use des_fast::many::ManyBlocks;
use std::io::{Read, Write};

/// Reads the `count` blocks before a part, and returns how the blocks of the part go on from them.
/// The buffer has at least one block; its contents afterwards are unspecified.
///
/// The error is `Start` if there are fewer blocks, and `Read` if the reader failed, which may
/// then be anywhere in them.
pub fn skip_blocks<R: Read>(
    mode: BlockMode,
    count: u64,
    reader: &mut R,
    buffer: &mut [[u8; 8]],
) -> Result<BlockMode, StreamError>
    requires capacity { 0 < length buffer.old }
    ensures skips { IfOk result (λ next. Skips mode next count
        (R.remaining reader.old) (R.remaining reader.new)) }
    ensures fault { IfErr result (λ fault. FailsToSkip fault count
        (R.remaining reader.old) (R.remaining reader.new)) }
{
    let mut mode = mode;
    let mut left = count;
    let capacity = buffer.len();
    let bytes = buffer.as_flattened_mut();
    for _ in 0..u64::MAX {
        if left == 0 {
            return Ok(mode);
        }
        let count = next_count(capacity, Some(left));
        let n = fill_prefix(reader, bytes, 8 * count)?;
        if n < 8 * count {
            return Err(StreamError::Start);
        }
        let (blocks, _) = bytes[..n].as_chunks::<8>();
        mode.skip(blocks);
        left -= count as u64;
    }
    Err(StreamError::Read(without_end()))
}

// Whether the reader has nothing left; if it has, a byte is read.
fn is_at_end<R: Read>(reader: &mut R) -> Result<bool, StreamError>
    ensures read { IfOk result (λ end. (bytes : List ℕ)
        × Consumes (R.remaining reader.old) (R.remaining reader.new) bytes
        × IsEndOrMore end bytes (R.remaining reader.new)) }
    ensures consumed { (bytes : List ℕ)
        × Consumes (R.remaining reader.old) (R.remaining reader.new) bytes }
    ensures fault { IfErr result IsOfReading }
{
    let n = fill(reader, &mut [0])?;
    Ok(n == 0)
}

/// Decrypts a part of `limit` blocks, or up to the end of the reader, and writes it. One byte more
/// is read, if there is one. If the reader is then at its end, the padding is taken off, none if it
/// is `Zeros`, and there must be a block. The buffer has at least one block; its contents
/// afterwards are unspecified, and can be plaintext. The writer is not flushed.
///
/// The error is `Start` if there is no block, whatever the padding; `Padding` if the padding is
/// wrong; `Length` if what was read is not whole blocks; and `Read` or `Write` if the reader or the
/// writer failed. The writer then has a prefix of the part, without its last block or its padding,
/// or with that block if more follows the part. The reader may have gone further.
pub fn decrypt_part<R: Read, W: Write, C: ManyBlocks>(
    transformation: &Transformation<'_, C>,
    limit: Option<u64>,
    reader: &mut R,
    writer: &mut W,
    buffer: &mut [[u8; 8]],
) -> Result<(), StreamError>
    requires capacity { 0 < length buffer.old }
    ensures done { IfOk result (λ _. DecryptsPart (C.decrypted transformation.now.cipher.now)
        transformation.now.mode transformation.now.padding limit
        (passage_of (R.remaining reader.old) (R.remaining reader.new)
        (W.contents writer.old) (W.contents writer.new))) }
    ensures prefix { DecryptsPartPrefix (C.decrypted transformation.now.cipher.now)
        transformation.now.mode transformation.now.padding limit
        (passage_of (R.remaining reader.old) (R.remaining reader.new)
        (W.contents writer.old) (W.contents writer.new)) }
    ensures fault { IfErr result (λ fault.
        FailsInPart fault (C.decrypted transformation.now.cipher.now)
        transformation.now.mode transformation.now.padding limit
        (passage_of (R.remaining reader.old) (R.remaining reader.new)
        (W.contents writer.old) (W.contents writer.new))) }
{
    let Transformation {
        cipher,
        mode,
        padding,
    } = *transformation;
    let last = decrypt_blocks(cipher, mode, limit, reader, writer, buffer)?;
    if !is_at_end(reader)? {
        return finish(Padding::Unpadded, &last, writer);
    }
    match last {
        None => Err(StreamError::Start),
        Some(_) => finish(padding, &last, writer),
    }
}
