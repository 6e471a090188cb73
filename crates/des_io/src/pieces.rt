//! Bytes from a reader and to a writer, a buffer at a time.

ghost use Rattle.std.specs.Prelude.{◌≡◌, ◌≤◌, ◌<◌, ℕ, List, length, take, IfOk, IfErr, IsOk};
ghost use Rattle.std.specs.Io.KnownBytes.{Consumes, Appends, IsAtEnd};
ghost use Rattle.des_io.specs.StreamFaults.{IsOfReading, IsOfWriting};

use crate::error::{StreamError, without_end};
use std::io::{Error, ErrorKind, Read, Write};

/// Reads until the buffer is full or the reader is at its end, and returns the number of bytes. A
/// read that was interrupted is tried again. The error is `Read`, if the reader failed; bytes may
/// then have been read, and are lost.
pub fn fill<R: Read>(reader: &mut R, buffer: &mut [u8]) -> Result<usize, StreamError>
    ensures consumed { (bytes : List ℕ)
        × Consumes (R.remaining reader.old) (R.remaining reader.new) bytes }
    ensures within { IfOk result (λ n. n ≤ length buffer.new) }
    ensures read { IfOk result (λ n.
        Consumes (R.remaining reader.old) (R.remaining reader.new) (take n buffer.new)) }
    ensures end { IfOk result (λ n. n < length buffer.new → IsAtEnd (R.remaining reader.new)) }
    ensures fault { IfErr result IsOfReading }
{
    let mut at = 0;
    for _ in 0..u64::MAX {
        if at >= buffer.len() {
            return Ok(at);
        }
        match reader.read(&mut buffer[at..]) {
            Ok(0) => return Ok(at),
            Ok(n) => at += n,
            Err(error) => {
                if error.kind() != ErrorKind::Interrupted {
                    return Err(StreamError::Read(error));
                }
            }
        }
    }
    Err(StreamError::Read(without_end()))
}

/// Reads as `fill` does, into the first bytes of a buffer.
pub fn fill_prefix<R: Read>(
    reader: &mut R,
    buffer: &mut [u8],
    count: usize,
) -> Result<usize, StreamError>
    requires { count ≤ length buffer.old }
    ensures consumed { (bytes : List ℕ)
        × Consumes (R.remaining reader.old) (R.remaining reader.new) bytes }
    ensures within { IfOk result (λ n. n ≤ count) }
    ensures capacity { length buffer.new ≡ length buffer.old }
    ensures read { IfOk result (λ n.
        Consumes (R.remaining reader.old) (R.remaining reader.new) (take n buffer.new)) }
    ensures end { IfOk result (λ n. n < count → IsAtEnd (R.remaining reader.new)) }
    ensures fault { IfErr result IsOfReading }
{
    fill(reader, &mut buffer[..count])
}

/// Writes the bytes; if that fails, some of the first of them are written. A write that was
/// interrupted is tried again. The error is `Write`, if the writer failed or took nothing.
pub fn write_whole<W: Write>(writer: &mut W, bytes: &[u8]) -> Result<(), StreamError>
    ensures written { (k : ℕ) × (k ≤ length bytes.now)
        × Appends (W.contents writer.old) (W.contents writer.new) (take k bytes.now)
        × (IsOk result → k ≡ length bytes.now) }
    ensures fault { IfErr result IsOfWriting }
{
    let mut at = 0;
    for _ in 0..u64::MAX {
        if at >= bytes.len() {
            return Ok(());
        }
        match writer.write(&bytes[at..]) {
            Ok(0) => return Err(StreamError::Write(Error::from(ErrorKind::WriteZero))),
            Ok(n) => at += n,
            Err(e) => {
                if e.kind() != ErrorKind::Interrupted {
                    return Err(StreamError::Write(e));
                }
            }
        }
    }
    Err(StreamError::Write(without_end()))
}
