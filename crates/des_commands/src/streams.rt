//! A stream of bytes, encrypted or decrypted by a key, from a reader to a writer.

pub mod passwords;
pub mod progress_reader;

ghost use Rattle.std.specs.Prelude.{◌≡◌, ◌<◌, length, IfOk, IfErr};
ghost use Rattle.des.specs.Relations.{AgreeOnBlocks};
ghost use Rattle.des_modes.specs.States.{HasBegun};
ghost use Rattle.des_io.specs.Streams.{passage_of};
ghost use Rattle.des_requests.specs.StreamRequests.{from_of};
ghost use Rattle.des_commands.specs.Jobs.{GoesOnFromBlock, IsNamed, DoesPadded, Does, IsDone};
ghost use Rattle.des_commands.specs.Jobs.{vector_of, bytes_at_most, Begins, DoesStream};
ghost use Rattle.des_commands.specs.JobFaults.{StopsPadded, StopsStream, Stops, HasStopped};

use des::cipher::{KeyBytes, KeyedCipher, are_bytes};
use des_fast::many::ManyBlocks;
use des_fast::{Des, TdesEde2, TdesEde3};
use des_io::pieces::write_whole;
use des_io::{
    BlockMode, StreamError, Transformation, apply_stream, decrypt_part, decrypt_stream,
    encrypt_stream, skip_blocks,
};
use des_lines::fault::FaultKind;
use des_modes::Direction;
use des_modes::modes::OFB;
use des_modes::stream::Stream;
use des_requests::streams::{BlockRange, Cipher, CipherMode, Job, StreamMode, Work};
use std::alloc::Global;
use std::io::{Read, Write};

// The blocks that go through the cipher at a time: 64 KiB.
const BLOCKS_AT_A_TIME: usize = 8192;

// Does a job in ECB or CBC by a cipher.
fn run_padded<C: ManyBlocks, R: Read, W: Write>(
    cipher: &C,
    job: &Job,
    reader: &mut R,
    writer: &mut W,
    buffer: &mut [[u8; 8]],
) -> Result<(), StreamError>
    requires capacity { 0 < length buffer.old }
    ensures done { IfOk result (λ _. DoesPadded (C.encrypted cipher.now) (C.decrypted cipher.now)
        job.now.begin job.now.padding job.now.work
        (passage_of (R.remaining reader.old) (R.remaining reader.new)
        (W.contents writer.old) (W.contents writer.new))) }
    ensures fault { IfErr result (λ fault. StopsPadded fault (C.encrypted cipher.now)
        (C.decrypted cipher.now) job.now.begin job.now.padding job.now.work
        (passage_of (R.remaining reader.old) (R.remaining reader.new)
        (W.contents writer.old) (W.contents writer.new))) }
{
    let mut transformation = Transformation {
        cipher,
        mode: job.begin,
        padding: job.padding,
    };
    match job.work {
        Work::Encrypt { heading } => {
            write_whole(writer, heading)?;
            encrypt_stream(&transformation, reader, writer, buffer)
        }
        Work::Decrypt { skipped, part } => {
            transformation.mode = skip_blocks(job.begin, skipped, reader, buffer)?;
            match part {
                None => decrypt_stream(&transformation, reader, writer, buffer),
                Some(part) => decrypt_part(&transformation, part.count, reader, writer, buffer),
            }
        }
    }
}

// The vector that a mode goes on from.
fn vector_in(mode: BlockMode) -> [u8; 8]
    ensures { result ≡ vector_of mode }
{
    match mode {
        BlockMode::Ecb => [0; 8],
        BlockMode::Cbc(vector) => vector,
    }
}

// A stream at its beginning, or in it from a block on: by the vector of the stream, and the block
// before the part.
fn stream_from(mode: StreamMode, vector: &[u8; 8], before: &[u8; 8], from: u64) -> Stream
    ensures begun { HasBegun result }
    ensures begins { Begins mode vector.now before.now from result }
{
    match mode {
        StreamMode::Ctr => Stream::ctr_at(vector, from),
        StreamMode::Ofb => Stream::new(OFB, vector).unwrap(),
        StreamMode::Cfb => Stream::cfb_at(before, 8),
        StreamMode::Cfb8 => Stream::cfb_at(before, 1),
    }
}

// The first block of a part, and its bytes at most.
fn extent_of(part: Option<BlockRange>) -> (u64, u64)
    ensures { result ≡ (from_of part, bytes_at_most part) }
{
    match part {
        None => (0, u64::MAX),
        Some(BlockRange { from, count: None }) => (from, u64::MAX),
        Some(
            BlockRange {
                from,
                count: Some(count),
            },
        ) => (from, count.saturating_mul(8)),
    }
}

// Does a job in a mode that makes a stream cipher.
fn run_stream<C: ManyBlocks, R: Read, W: Write>(
    cipher: &C,
    mode: StreamMode,
    job: &Job,
    reader: &mut R,
    writer: &mut W,
    buffer: &mut [[u8; 8]],
) -> Result<(), StreamError>
    requires capacity { 0 < length buffer.old }
    ensures done { IfOk result (λ _. DoesStream (C.encrypted cipher.now) mode job.now job.now.work
        (passage_of (R.remaining reader.old) (R.remaining reader.new)
        (W.contents writer.old) (W.contents writer.new))) }
    ensures fault { IfErr result (λ fault. StopsStream fault (C.encrypted cipher.now) mode job.now job.now.work
        (passage_of (R.remaining reader.old) (R.remaining reader.new)
        (W.contents writer.old) (W.contents writer.new))) }
{
    match job.work {
        Work::Encrypt { heading: front } => {
            write_whole(writer, front)?;
            let vector = vector_in(job.begin);
            let stream = stream_from(mode, &vector, &vector, 0);
            apply_stream(
                cipher,
                Direction::Encrypt,
                stream,
                u64::MAX,
                reader,
                writer,
                buffer.as_flattened_mut(),
            )?;
        }
        Work::Decrypt { skipped, part } => {
            let vectors = skipped.min(job.vectors);
            let first = skip_blocks(job.begin, vectors, reader, buffer)?;
            let last = skip_blocks(first, skipped - vectors, reader, buffer)?;
            let (from, limit) = extent_of(part);
            let stream = stream_from(mode, &vector_in(first), &vector_in(last), from);
            let count = apply_stream(
                cipher,
                Direction::Decrypt,
                stream,
                limit,
                reader,
                writer,
                buffer.as_flattened_mut(),
            )?;
            if count == 0 && part.is_some() {
                return Err(StreamError::Start);
            }
        }
    }
    Ok(())
}

// Does a job by a cipher.
fn run_in<C: ManyBlocks, R: Read, W: Write>(
    cipher: &C,
    job: &Job,
    reader: &mut R,
    writer: &mut W,
    buffer: &mut [[u8; 8]],
) -> Result<(), StreamError>
    requires capacity { 0 < length buffer.old }
    ensures done { IfOk result (λ _. Does (C.encrypted cipher.now) (C.decrypted cipher.now) job.now.mode job.now
        (passage_of (R.remaining reader.old) (R.remaining reader.new)
        (W.contents writer.old) (W.contents writer.new))) }
    ensures fault { IfErr result (λ fault. Stops fault (C.encrypted cipher.now)
        (C.decrypted cipher.now) job.now.mode job.now (passage_of (R.remaining reader.old)
        (R.remaining reader.new) (W.contents writer.old) (W.contents writer.new))) }
{
    match job.mode {
        CipherMode::Ecb => run_padded(cipher, job, reader, writer, buffer),
        CipherMode::Cbc => run_padded(cipher, job, reader, writer, buffer),
        CipherMode::Stream(mode) => run_stream(cipher, mode, job, reader, writer, buffer),
    }
}

/// The cipher of a key, which makes of each block what the key does.
pub fn cipher_of<C: KeyedCipher>(key: &C::Key) -> C
    ensures encrypts { AgreeOnBlocks (C.encrypted result) (C.encryption (C.Key.bytes_of key.now)) }
    ensures decrypts { AgreeOnBlocks (C.decrypted result) (C.decryption (C.Key.bytes_of key.now)) }
{
    key.as_bytes();
    C::new(key)
}

// A function for the proof alone: the vector that CBC goes on from is a block.
fn goes_on_from_block(mode: BlockMode)
    ensures { GoesOnFromBlock mode }
{
    if let BlockMode::Cbc(vector) = mode {
        are_bytes(&vector);
    }
}

// Does a job by the cipher that it names, in a buffer of `count` blocks.
fn run_cipher<C: KeyedCipher + ManyBlocks + Drop, R: Read, W: Write>(
    alloc: Global,
    job: &Job,
    reader: &mut R,
    writer: &mut W,
    count: usize,
) -> Result<(), FaultKind>
    requires capacity { 0 < count }
    requires named { IsNamed job.now.cipher C.KEY_SIZE C.encryption C.decryption }
    ensures done { IfOk result (λ _. IsDone job.now (passage_of (R.remaining reader.old)
        (R.remaining reader.new) (W.contents writer.old) (W.contents writer.new))) }
    ensures fault { IfErr result (λ kind. HasStopped kind job.now (passage_of (R.remaining reader.old)
        (R.remaining reader.new) (W.contents writer.old) (W.contents writer.new))) }
{
    let Some(key) = C::Key::from_bytes(job.key) else {
        return Err(FaultKind::KeyLength(Some(job.cipher.key_size())));
    };
    goes_on_from_block(job.begin);
    let cipher = cipher_of::<C>(&key);
    let mut buffer = vec![in alloc; [0u8; 8]; count]?;
    run_in(&cipher, job, reader, writer, &mut buffer)?;
    Ok(())
}

/// Encrypts or decrypts what the reader gives, and writes it: up to the reader's end, or a part. A
/// heading is written first. The writer is not flushed.
///
/// The fault is `KeyLength` if the cipher takes no key of these bytes, or `Memory`: nothing is then
/// read or written. Otherwise it is `Read`, `Write`, `Length`, `Start` or `Padding`, and a prefix
/// is written.
pub fn run<R: Read, W: Write>(
    alloc: Global,
    job: &Job,
    reader: &mut R,
    writer: &mut W,
) -> Result<(), FaultKind>
    ensures done { IfOk result (λ _. IsDone job.now (passage_of (R.remaining reader.old)
        (R.remaining reader.new) (W.contents writer.old) (W.contents writer.new))) }
    ensures fault { IfErr result (λ kind. HasStopped kind job.now (passage_of (R.remaining reader.old)
        (R.remaining reader.new) (W.contents writer.old) (W.contents writer.new))) }
{
    let count = BLOCKS_AT_A_TIME;
    match job.cipher {
        Cipher::Des => run_cipher::<Des, R, W>(alloc, job, reader, writer, count),
        Cipher::TdesEde2 => run_cipher::<TdesEde2, R, W>(alloc, job, reader, writer, count),
        Cipher::TdesEde3 => run_cipher::<TdesEde3, R, W>(alloc, job, reader, writer, count),
    }
}
