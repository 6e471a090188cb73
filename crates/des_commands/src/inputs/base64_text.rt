//! A reader that finds out whether what is decrypted as bytes may be a text in Base64.

use std::io::{self, Read};

// The fewest characters that tell: eight bytes are twelve, with their padding.
const FEWEST: u64 = 12;

/// A reader that gives the bytes of another, and looks at them.
#[derive(Drop)]
pub struct Base64TextReader<R> {
    inner: R,
    characters: u64,
    has_others: bool,
}

// Whether a byte is a character of Base64 (RFC 4648, section 4) or its padding.
fn is_character(byte: u8) -> bool {
    byte.is_ascii_alphanumeric() || matches!(byte, b'+' | b'/' | b'=')
}

fn is_line_end(byte: u8) -> bool {
    byte == b'\n' || byte == b'\r'
}

impl<R> Base64TextReader<R> {
    /// A reader of which nothing was read.
    pub fn new(reader: R) -> Base64TextReader<R> {
        Base64TextReader {
            inner: reader,
            characters: 0,
            has_others: false,
        }
    }

    /// Whether what was read is whole groups of four characters of Base64, and line ends.
    pub fn is_base64(&self) -> bool {
        !self.has_others && self.characters >= FEWEST && self.characters % 4 == 0
    }
}

impl<R: Read> Read for Base64TextReader<R> {
    ghost remaining = { λ reader. R.remaining reader.inner };

    fn read(&mut self, buf: &mut [u8]) -> io::Result<usize> {
        let n = self.inner.read(buf)?;
        // After something else nothing more is looked at.
        if !self.has_others {
            let text = &buf[..n];
            let count = text.iter().filter(|byte| is_character(**byte)).count();
            self.characters = self.characters.wrapping_add(count as u64);
            self.has_others = text
                .iter()
                .any(|byte| !is_character(*byte) && !is_line_end(*byte));
        }
        Ok(n)
    }
}
