//! Streams of many rounds, and of readers and writers that are interrupted before each byte: the
//! limits of the loops, which no process lives to see, are far away.

use des::cipher::KeyInit;
use des_fast::Des;
use des_io::{BlockMode, Padding, Transformation, decrypt_stream, encrypt_stream, skip_blocks};
use std::io::{self, Error, ErrorKind, Read, Write};

// A reader or a writer of another's bytes, one at a time, that is interrupted before each.
#[derive(Drop)]
struct Halting<T> {
    inner: T,
    is_ready: bool,
}

impl<T> Halting<T> {
    // Every second call is interrupted.
    fn turn(&mut self) -> io::Result<()> {
        self.is_ready = !self.is_ready;
        if self.is_ready {
            Err(Error::from(ErrorKind::Interrupted))
        } else {
            Ok(())
        }
    }
}

impl<R: Read> Read for Halting<R> {
    fn read(&mut self, buf: &mut [u8]) -> io::Result<usize> {
        self.turn()?;
        let count = buf.len().min(1);
        self.inner.read(&mut buf[..count])
    }
}

impl<W: Write> Write for Halting<W> {
    fn write(&mut self, buf: &[u8]) -> io::Result<usize> {
        self.turn()?;
        let count = buf.len().min(1);
        self.inner.write(&buf[..count])
    }

    fn flush(&mut self) -> io::Result<()> {
        self.inner.flush()
    }
}

// A reader of zeros.
#[derive(Drop)]
struct Zeros {
    left: usize,
}

impl Read for Zeros {
    fn read(&mut self, buf: &mut [u8]) -> io::Result<usize> {
        let count = buf.len().min(self.left);
        buf[..count].fill(0);
        self.left -= count;
        Ok(count)
    }
}

// A writer that counts the bytes, and those of them that are not zero.
#[derive(Drop)]
struct Counter {
    bytes: usize,
    not_zero: usize,
}

impl Counter {
    // Whether this many bytes came, and none of them was zero.
    fn has(&self, bytes: usize) -> bool {
        self.bytes == bytes && self.not_zero == bytes
    }
}

impl Write for Counter {
    fn write(&mut self, buf: &[u8]) -> io::Result<usize> {
        for byte in buf {
            self.bytes = self.bytes.saturating_add(1);
            self.not_zero = self.not_zero.saturating_add(usize::from(*byte != 0));
        }
        Ok(buf.len())
    }

    fn flush(&mut self) -> io::Result<()> {
        Ok(())
    }
}

fn nothing() -> Counter {
    Counter {
        bytes: 0,
        not_zero: 0,
    }
}

// More blocks than 16 bits count.
const BLOCKS: usize = 65537;

const BYTES: usize = 8 * BLOCKS;

// The key of NIST Special Publication 800-67, appendix B. By it single DES makes
// d5 d4 4f f7 20 68 3d 0d of a block of zeros, and 14 aa d7 f4 db b4 e0 94 backwards: OpenSSL's
// answers, of which no byte is zero.
const KEY: [u8; 8] = *b"\x01\x23\x45\x67\x89\xab\xcd\xef";

fn by_blocks(cipher: &Des) -> Transformation<'_, Des> {
    Transformation {
        cipher,
        mode: BlockMode::Ecb,
        padding: Padding::Unpadded,
    }
}

fn encrypts_block_by_block() -> bool {
    let cipher = Des::new(&KEY);
    let (mut reader, mut writer) = (Zeros { left: BYTES }, nothing());
    encrypt_stream(&by_blocks(&cipher), &mut reader, &mut writer, &mut [[0; 8]]).is_ok()
        && writer.has(BYTES)
}

fn decrypts_block_by_block() -> bool {
    let cipher = Des::new(&KEY);
    let (mut reader, mut writer) = (Zeros { left: BYTES }, nothing());
    decrypt_stream(&by_blocks(&cipher), &mut reader, &mut writer, &mut [[0; 8]]).is_ok()
        && writer.has(BYTES)
}

fn skips_block_by_block() -> bool {
    let mut reader = Zeros { left: BYTES + 8 };
    skip_blocks(BlockMode::Ecb, BLOCKS as u64, &mut reader, &mut [[0; 8]]).is_ok()
        && reader.left == 8
}

// A buffer of 64 KiB, filled by as many reads of a byte and written by as many writes.
fn goes_byte_by_byte() -> bool {
    let cipher = Des::new(&KEY);
    let mut reader = Halting {
        inner: Zeros { left: 65536 },
        is_ready: false,
    };
    let mut writer = Halting {
        inner: nothing(),
        is_ready: false,
    };
    let mut buffer = [[0; 8]; 8192];
    encrypt_stream(&by_blocks(&cipher), &mut reader, &mut writer, &mut buffer).is_ok()
        && writer.inner.has(65536)
}

#[test]
fn streams_go_on_for_many_rounds(rt: HostRuntime) {
    assert!(rt; encrypts_block_by_block() && decrypts_block_by_block());
    assert!(rt; skips_block_by_block() && goes_byte_by_byte());
}
