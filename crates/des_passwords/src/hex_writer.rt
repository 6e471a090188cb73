//! Bytes that are written as hexadecimal digits.

ghost use Rattle.std.specs.Prelude.{◌≡◌};

use std::io::{self, ErrorKind, Write};

// The bytes whose digits are written at a time.
const BYTES_AT_A_TIME: usize = 1024;

/// A writer that gives another the digits of what it takes, two for each byte, in lower case. What
/// the other took before an error may be the digits of a part.
#[derive(Drop)]
pub struct HexWriter<W> {
    inner: W,
}

impl<W: Write> HexWriter<W> {
    /// A writer of digits to a writer.
    pub fn new(writer: W) -> HexWriter<W>
        ensures { result.inner ≡ writer }
    {
        HexWriter { inner: writer }
    }
}

impl<W: Write> Write for HexWriter<W> {
    fn write(&mut self, buf: &[u8]) -> io::Result<usize> {
        let count = buf.len().min(BYTES_AT_A_TIME);
        let mut buffer = [0; 2 * BYTES_AT_A_TIME];
        let digits = &mut buffer[..2 * count];
        if hex::encode_to_slice(&buf[..count], digits).is_err() {
            return Err(io::Error::from(ErrorKind::Other));
        }
        self.inner.write_all(digits)?;
        Ok(count)
    }

    fn flush(&mut self) -> io::Result<()> {
        self.inner.flush()
    }
}
