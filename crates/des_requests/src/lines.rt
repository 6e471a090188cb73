//! What a command line asks of values in lines.

ghost use Rattle.std.specs.Prelude.{◌≡◌};
ghost use Rattle.des_requests.specs.LineFormats.{source_of};

use super::streams::Output;
use des_columns::pbe::Algorithm;
use des_columns::pgcrypto::Scheme;
use des_lines::source::Source;

/// What wrote the values.
#[derive(Clone, Copy)]
pub enum ValueFormat<'a> {
    /// `DES_ENCRYPT` of MySQL and MariaDB.
    Mysql,
    /// `encrypt` or `encrypt_iv` of pgcrypto, by a scheme; of the vector, these are the digits.
    Pgcrypto(Scheme, &'a str),
    /// Jasypt, by an algorithm and a number of iterations.
    Jasypt(Algorithm, u32),
}

/// How a value stands in its line.
#[derive(Clone, Copy)]
pub enum LineCoding {
    /// As hexadecimal digits of either case, also behind `\x`, `\\x` or `0x`.
    Hexadecimal,
    Base64,
    /// As it is.
    Bytes,
}

/// What gives the key, and where it is.
#[derive(Clone, Copy)]
pub enum LineSecret<'a> {
    /// A password, a key string, or the characters of a key.
    Password(Source<'a>),
    /// The digits of a key, or the server's file of keys.
    Key(Source<'a>),
}

impl<'a> LineSecret<'a> {
    /// Where it is.
    pub fn source(self) -> Source<'a>
        ensures { result ≡ source_of self.entry }
    {
        match self {
            LineSecret::Password(source) | LineSecret::Key(source) => source,
        }
    }
}

/// What a command line asks of values in lines.
#[derive(Clone, Copy)]
pub struct LinesRequest<'a> {
    pub format: ValueFormat<'a>,
    pub coding: LineCoding,
    pub secret: LineSecret<'a>,
    /// Texts are written as hexadecimal digits.
    pub writes_digits: bool,
    /// A line at fault does not end the run.
    pub keeps_going: bool,
    pub input: Source<'a>,
    pub output: Output<'a>,
    pub shows_progress: bool,
}
