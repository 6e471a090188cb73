//! Modes that make a stream cipher of a block cipher: bytes from a reader to a writer, with no
//! padding, and with nothing held back.

ghost use Rattle.std.specs.Prelude.{◌≡◌, ◌⊎◌, ◌<◌, length, IfOk, IfErr};
ghost use Rattle.des_io.specs.Streams.{passage_of};
ghost use Rattle.des_io.specs.StreamCiphers.{Becomes, Applies, AppliesPrefix};
ghost use Rattle.des_io.specs.StreamFaults.{IsOfReading, IsOfWriting};
ghost use Rattle.des_modes.specs.States.{HasBegun};

use crate::error::{StreamError, without_end};
use crate::pieces::{fill_prefix, write_whole};
use des_fast::many::ManyBlocks;
use des_modes::Direction;
use des_modes::lists::ByLists;
use des_modes::modes::Mode;
use des_modes::stream::Stream;
use std::io::{Read, Write};
use std::simd::u64x2;

// Whether a block waits for the encryption of another.
fn waits(mode: Mode, direction: Direction) -> bool {
    match (mode, direction) {
        (Mode::Counter, _) => false,
        (Mode::CipherFeedback(_), Direction::Decrypt) => false,
        _ => true,
    }
}

/// Encrypts or decrypts the bytes that come next in place: any number of them. If no block waits
/// for another, no table is read at an index that depends on the key or on a block.
pub fn apply_piece<C: ManyBlocks>(
    cipher: &C,
    direction: Direction,
    stream: &mut Stream,
    bytes: &mut [u8],
)
    requires { HasBegun stream.old }
    ensures begun { HasBegun stream.new }
    ensures became { Becomes (C.encrypted cipher.now) direction
        stream.old bytes.old bytes.new stream.new }
{
    let mode = stream.mode().unwrap();
    let cipher = ByLists::<C, u64x2>::new(cipher, !waits(mode, direction));
    stream.apply(direction, mode, &cipher, bytes);
}

/// Encrypts or decrypts by a stream what the reader gives, up to its end or to a limit in bytes,
/// and writes it, a buffer at a time. Returns the number of bytes. The buffer has at least one
/// byte; its contents afterwards are unspecified, and can be plaintext. The writer is not flushed.
///
/// The error is `Read` or `Write`, if the reader or the writer failed. The writer then has a prefix
/// of what was read, encrypted or decrypted, and the reader may have gone further.
pub fn apply_stream<R: Read, W: Write, C: ManyBlocks>(
    cipher: &C,
    direction: Direction,
    stream: Stream,
    limit: u64,
    reader: &mut R,
    writer: &mut W,
    buffer: &mut [u8],
) -> Result<u64, StreamError>
    requires begun { HasBegun stream }
    requires capacity { 0 < length buffer.old }
    ensures done { IfOk result (λ count. Applies (C.encrypted cipher.now) direction stream limit count
        (passage_of (R.remaining reader.old) (R.remaining reader.new)
        (W.contents writer.old) (W.contents writer.new))) }
    ensures prefix { AppliesPrefix (C.encrypted cipher.now) direction stream limit
        (passage_of (R.remaining reader.old) (R.remaining reader.new)
        (W.contents writer.old) (W.contents writer.new)) }
    ensures fault { IfErr result (λ fault. IsOfReading fault ⊎ IsOfWriting fault) }
{
    let mut stream = stream;
    let mut count = 0;
    let capacity = buffer.len();
    for _ in 0..u64::MAX {
        let most = (limit - count).min(capacity as u64);
        let n = fill_prefix(reader, buffer, most as usize)?;
        let bytes = &mut buffer[..n];
        apply_piece(cipher, direction, &mut stream, bytes);
        write_whole(writer, bytes)?;
        count += n as u64;
        if n < capacity {
            return Ok(count);
        }
    }
    Err(StreamError::Read(without_end()))
}
