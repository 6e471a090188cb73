//! Bytes that are decrypted from a reader to a writer.

ghost use Rattle.std.specs.Prelude.{◌≡◌, ◌⊎◌, ◌≤◌, ◌<◌, ◌%◌, ℕ, Some, length, take, IfSome};
ghost use Rattle.std.specs.Prelude.{IfOk, IfErr, IsOk};
ghost use Rattle.std.specs.Io.KnownBytes.{Appends, IsAtEnd};
ghost use Rattle.des_io.specs.Streams.{passage_of, stage_of, bytes_of, WritesPiece, DeciphersPiece, IsLeft};
ghost use Rattle.des_io.specs.Streams.{HoldsPart, HoldsPrefix, Decrypts, DecryptsPrefix};
ghost use Rattle.des_io.specs.StreamFaults.{FailsBefore, EndsStream, FailsToDecrypt, IsOfWriting};

use crate::error::{StreamError, without_end};
use crate::mode::BlockMode;
use crate::padding::{Padding, count_before};
use crate::pieces::{fill_prefix, write_whole};
use crate::transformation::Transformation;
use des_fast::many::ManyBlocks;
use std::io::{Read, Write};

// Writes a block that may be there.
fn write_pending<W: Write>(writer: &mut W, pending: &Option<[u8; 8]>) -> Result<(), StreamError>
    ensures written { (k : ℕ) × (k ≤ length (bytes_of pending.now))
        × Appends (W.contents writer.old) (W.contents writer.new) (take k (bytes_of pending.now))
        × (IsOk result → k ≡ length (bytes_of pending.now)) }
    ensures fault { IfErr result IsOfWriting }
{
    match pending {
        Some(block) => write_whole(writer, block),
        None => Ok(()),
    }
}

// Writes the block that was held back, and the blocks but for the last one, which is then held
// back.
fn write_piece<W: Write>(
    writer: &mut W,
    pending: &mut Option<[u8; 8]>,
    blocks: &[[u8; 8]],
) -> Result<(), StreamError>
    ensures written { WritesPiece pending.old pending.new blocks.now
        (W.contents writer.old) (W.contents writer.new) (IsOk result) }
    ensures fault { IfErr result IsOfWriting }
{
    if let Some((last, rest)) = blocks.split_last() {
        write_pending(writer, pending)?;
        write_whole(writer, rest.as_flattened())?;
        *pending = Some(*last);
    }
    Ok(())
}

// Decrypts bytes that are whole blocks. Writes the block that was held back and then the plaintext,
// except for its last block, which is held back in its place.
fn decrypt_piece<W: Write, C: ManyBlocks>(
    cipher: &C,
    mode: &mut BlockMode,
    pending: &mut Option<[u8; 8]>,
    writer: &mut W,
    bytes: &mut [u8],
) -> Result<(), StreamError>
    requires { length bytes.old % 8 ≡ 0 }
    ensures deciphered { DeciphersPiece (C.decrypted cipher.now) bytes.old
        (stage_of mode.old pending.old (W.contents writer.old))
        (stage_of mode.new pending.new (W.contents writer.new)) (IsOk result) }
    ensures fault { IfErr result IsOfWriting }
{
    let (blocks, _) = bytes.as_chunks_mut::<8>();
    mode.decrypt(cipher, blocks);
    write_piece(writer, pending, blocks)
}

/// How many blocks go into the next piece: as many as the buffer takes, or fewer if fewer are
/// left.
pub(crate) fn next_count(capacity: usize, left: Option<u64>) -> usize
    ensures within { result ≤ capacity }
    ensures full { result ≡ capacity ⊎ left ≡ Some result }
    ensures left { IfSome left (λ left. result ≤ left) }
{
    match left {
        Some(left) if left < capacity as u64 => left as usize,
        _ => capacity,
    }
}

// What is left after `count` blocks.
fn left_after(left: Option<u64>, count: usize) -> Option<u64>
    requires { IfSome left (λ left. count ≤ left) }
    ensures { IsLeft left count result }
{
    match left {
        Some(left) => Some(left - count as u64),
        None => None,
    }
}

/// Decrypts what the reader gives, up to its end or to a limit in blocks, and writes it except for
/// the last block, which it returns. The buffer has at least one block; its contents afterwards are
/// unspecified, and can be plaintext. The writer is not flushed.
///
/// The error is `Read` or `Write` if the reader or the writer failed, and `Length` if what was
/// read is not whole blocks. The writer then has a prefix of what was read, decrypted, without its
/// last block, and the reader may have gone further.
pub fn decrypt_blocks<R: Read, W: Write, C: ManyBlocks>(
    cipher: &C,
    mode: BlockMode,
    limit: Option<u64>,
    reader: &mut R,
    writer: &mut W,
    buffer: &mut [[u8; 8]],
) -> Result<Option<[u8; 8]>, StreamError>
    requires capacity { 0 < length buffer.old }
    ensures done { IfOk result (λ last. HoldsPart (C.decrypted cipher.now) mode limit
        (passage_of (R.remaining reader.old) (R.remaining reader.new)
        (W.contents writer.old) (W.contents writer.new)) last) }
    ensures prefix { HoldsPrefix (C.decrypted cipher.now) mode limit
        (passage_of (R.remaining reader.old) (R.remaining reader.new)
        (W.contents writer.old) (W.contents writer.new)) }
    ensures fault { IfErr result (λ fault.
        FailsBefore fault limit (R.remaining reader.old) (R.remaining reader.new)) }
{
    let mut mode = mode;
    let mut left = limit;
    let mut pending = None;
    let capacity = buffer.len();
    let bytes = buffer.as_flattened_mut();
    for _ in 0..u64::MAX {
        let count = next_count(capacity, left);
        let n = fill_prefix(reader, bytes, 8 * count)?;
        if n % 8 != 0 {
            return Err(StreamError::Length(n % 8));
        }
        decrypt_piece(cipher, &mut mode, &mut pending, writer, &mut bytes[..n])?;
        left = left_after(left, n / 8);
        if n < bytes.len() {
            return Ok(pending);
        }
    }
    Err(StreamError::Read(without_end()))
}

/// Writes the last block of a list of blocks without its padding, or, if that is `Zeros`, as it
/// is. The writer is not flushed.
///
/// The error is `Padding` if it is the last block of no padded bytes, and nothing is then
/// written; and `Write` if the writer failed, which then has a prefix of the bytes before the
/// padding.
pub fn finish<W: Write>(
    padding: Padding,
    last: &Option<[u8; 8]>,
    writer: &mut W,
) -> Result<(), StreamError>
    ensures ended { EndsStream padding (bytes_of last.now) (W.contents writer.old)
        (W.contents writer.new) result }
{
    match last {
        Some(block) => match count_before(padding, block) {
            Some(count) => write_whole(writer, &block[..count]),
            None => Err(StreamError::Padding),
        },
        None if padding.taken_off() == Padding::Unpadded => Ok(()),
        None => Err(StreamError::Padding),
    }
}

/// Decrypts what the reader gives, up to its end, and writes it without its padding, a buffer at a
/// time; if that is `Zeros`, nothing is removed. The buffer has at least one block; its contents
/// afterwards are unspecified, and can be plaintext. The writer is not flushed.
///
/// The error is `Read` or `Write` if the reader or the writer failed, `Length` if what was read
/// is not whole blocks, and `Padding` if its padding is wrong. The writer then has a prefix of the
/// plaintext: without the last block that was read, or, if the input is at its end, without the
/// padding. The reader may have gone further.
pub fn decrypt_stream<R: Read, W: Write, C: ManyBlocks>(
    transformation: &Transformation<'_, C>,
    reader: &mut R,
    writer: &mut W,
    buffer: &mut [[u8; 8]],
) -> Result<(), StreamError>
    requires capacity { 0 < length buffer.old }
    ensures done { IfOk result (λ _. Decrypts (C.decrypted transformation.now.cipher.now)
        transformation.now.mode transformation.now.padding
        (passage_of (R.remaining reader.old) (R.remaining reader.new)
        (W.contents writer.old) (W.contents writer.new))) }
    ensures end { IfOk result (λ _. IsAtEnd (R.remaining reader.new)) }
    ensures prefix { DecryptsPrefix (C.decrypted transformation.now.cipher.now)
        transformation.now.mode transformation.now.padding
        (passage_of (R.remaining reader.old) (R.remaining reader.new)
        (W.contents writer.old) (W.contents writer.new)) }
    ensures fault { IfErr result (λ fault.
        FailsToDecrypt fault (C.decrypted transformation.now.cipher.now)
        transformation.now.mode transformation.now.padding
        (passage_of (R.remaining reader.old) (R.remaining reader.new)
        (W.contents writer.old) (W.contents writer.new))) }
{
    let Transformation {
        cipher,
        mode,
        padding,
    } = *transformation;
    let last = decrypt_blocks(cipher, mode, None, reader, writer, buffer)?;
    finish(padding, &last, writer)?;
    Ok(())
}
