//! A reader that finds out whether a text is only hexadecimal digits: then its author probably
//! meant the bytes that they encode.

ghost use Rattle.std.specs.Prelude.{◌≡◌};
ghost use Rattle.des_passwords.specs.HexTexts.{is_digit_or_end as is_digit_or_end_of, is_other, digits_in, seen_after, is_hexadecimal as is_hexadecimal_of, unseen};

use std::io::{self, Read};

/// What was seen of a text.
#[derive(Clone, Copy)]
pub struct Seen {
    /// There is a digit.
    pub has_digits: bool,
    /// The number of digits is odd.
    pub is_odd: bool,
    /// There is something other than digits and line ends.
    pub has_others: bool,
}

fn is_digit_or_end(byte: u8) -> bool
    ensures { result ≡ is_digit_or_end_of byte }
{
    byte.is_ascii_hexdigit() || byte == b'\n' || byte == b'\r'
}

fn count_digits(text: &[u8]) -> usize
    ensures { result ≡ digits_in text.now }
{
    text.iter().filter(|byte| byte.is_ascii_hexdigit()).count()
}

fn has_other(text: &[u8]) -> bool
    ensures { result ≡ is_other text.now }
{
    text.iter().any(|byte| !is_digit_or_end(*byte))
}

impl Seen {
    /// What was seen after one more piece of a text. After something else, nothing more is looked
    /// at.
    pub fn after(self, text: &[u8]) -> Seen
        ensures { result ≡ seen_after self text.now }
    {
        if self.has_others {
            return self;
        }
        let digits = count_digits(text);
        Seen {
            has_digits: self.has_digits || digits > 0,
            is_odd: if digits % 2 == 1 {
                !self.is_odd
            } else {
                self.is_odd
            },
            has_others: has_other(text),
        }
    }

    /// Whether the text is an even number of hexadecimal digits, two at least, and line ends.
    pub fn is_hexadecimal(self) -> bool
        ensures { result ≡ is_hexadecimal_of self }
    {
        self.has_digits && !self.is_odd && !self.has_others
    }
}

/// A reader that gives the bytes of another, and looks at them.
#[derive(Drop)]
pub struct HexTextReader<R> {
    inner: R,
    seen: Seen,
}

impl<R: Read> HexTextReader<R> {
    /// A reader of a text of which nothing was read.
    pub fn new(reader: R) -> HexTextReader<R>
        ensures bytes { result.inner ≡ reader }
        ensures seen { result.seen ≡ unseen }
    {
        HexTextReader {
            inner: reader,
            seen: Seen {
                has_digits: false,
                is_odd: false,
                has_others: false,
            },
        }
    }
}

impl<R: Read + Drop> HexTextReader<R> {
    /// Ends the reader. Returns whether what was read is nothing but hexadecimal digits.
    pub fn is_hexadecimal(self) -> bool
        ensures { result ≡ is_hexadecimal_of self.seen }
    {
        self.seen.is_hexadecimal()
    }
}

impl<R: Read> Read for HexTextReader<R> {
    ghost remaining = { λ reader. R.remaining reader.inner };

    fn read(&mut self, buf: &mut [u8]) -> io::Result<usize> {
        let n = self.inner.read(buf)?;
        self.seen = self.seen.after(&buf[..n]);
        Ok(n)
    }
}
