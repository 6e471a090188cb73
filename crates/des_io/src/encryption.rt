//! Bytes that are encrypted from a reader to a writer.

ghost use Rattle.std.specs.Prelude.{◌≡◌, ◌<◌, ◌%◌, length, IfOk, IfErr, IsOk};
ghost use Rattle.std.specs.Io.KnownBytes.{IsAtEnd};
ghost use Rattle.des_io.specs.Streams.{passage_of, EnciphersPiece, Encrypts, EncryptsPrefix};
ghost use Rattle.des_io.specs.StreamFaults.{FailsToEncrypt, IsOfWriting};

use crate::error::{StreamError, without_end};
use crate::mode::BlockMode;
use crate::padding::pad;
use crate::pieces::{fill, write_whole};
use crate::transformation::Transformation;
use des_fast::many::ManyBlocks;
use std::io::{Read, Write};

// Encrypts bytes that are whole blocks, and writes them.
fn encrypt_piece<W: Write, C: ManyBlocks>(
    cipher: &C,
    mode: &mut BlockMode,
    writer: &mut W,
    bytes: &mut [u8],
) -> Result<(), StreamError>
    requires { length bytes.old % 8 ≡ 0 }
    ensures enciphered { EnciphersPiece (C.encrypted cipher.now) mode.old mode.new bytes.old
        (W.contents writer.old) (W.contents writer.new) (IsOk result) }
    ensures fault { IfErr result IsOfWriting }
{
    let (blocks, _) = bytes.as_chunks_mut::<8>();
    mode.encrypt(cipher, blocks);
    write_whole(writer, blocks.as_flattened())
}

/// Encrypts what the reader gives, up to its end, with its padding, and writes it, a buffer at a
/// time. The buffer has at least one block; its contents afterwards are unspecified, and can be
/// plaintext. The writer is not flushed.
///
/// The error is `Read` or `Write` if the reader or the writer failed, and `Length` if the
/// padding is `Unpadded` and what was read is not whole blocks. The writer then has a prefix of the
/// ciphertext of what was read, with padding only if the input is at its end, and the reader may
/// have gone further.
pub fn encrypt_stream<R: Read, W: Write, C: ManyBlocks>(
    transformation: &Transformation<'_, C>,
    reader: &mut R,
    writer: &mut W,
    buffer: &mut [[u8; 8]],
) -> Result<(), StreamError>
    requires capacity { 0 < length buffer.old }
    ensures done { IfOk result (λ _. Encrypts (C.encrypted transformation.now.cipher.now)
        transformation.now.mode transformation.now.padding
        (passage_of (R.remaining reader.old) (R.remaining reader.new)
        (W.contents writer.old) (W.contents writer.new))) }
    ensures end { IfOk result (λ _. IsAtEnd (R.remaining reader.new)) }
    ensures prefix { EncryptsPrefix (C.encrypted transformation.now.cipher.now)
        transformation.now.mode transformation.now.padding
        (passage_of (R.remaining reader.old) (R.remaining reader.new)
        (W.contents writer.old) (W.contents writer.new)) }
    ensures fault { IfErr result (λ fault.
        FailsToEncrypt fault transformation.now.padding
        (R.remaining reader.old) (R.remaining reader.new)) }
{
    let cipher = transformation.cipher;
    let mut mode = transformation.mode;
    let bytes = buffer.as_flattened_mut();
    for _ in 0..u64::MAX {
        let n = fill(reader, bytes)?;
        if n < bytes.len() {
            let n = pad(transformation.padding, bytes, n);
            if n % 8 != 0 {
                return Err(StreamError::Length(n % 8));
            }
            encrypt_piece(cipher, &mut mode, writer, &mut bytes[..n])?;
            return Ok(());
        }
        encrypt_piece(cipher, &mut mode, writer, bytes)?;
    }
    Err(StreamError::Read(without_end()))
}
