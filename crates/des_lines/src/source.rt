//! Where a secret or another short input is, and what faults call that.

ghost use Rattle.std.specs.Prelude.{◌≡◌};
ghost use Rattle.des_lines.specs.SourceNames.{shown_path, name_of_source, may_be_secret as may_be_secret_of, is_between as is_between_of, is_digit as is_digit_of, digits_in, others_in, are_mostly as are_mostly_of};

use des_passwords::hex_reader::is_space;

/// Where a text is.
#[derive(Clone, Copy)]
pub enum Source<'a> {
    /// On standard input.
    StandardInput,
    /// In a file.
    File(&'a str),
    /// On a descriptor of the process, from where that stands.
    Descriptor(u64),
    /// In a variable of the environment.
    Variable(&'a str),
}

// Whether somebody writes such a character between digits or around them.
fn is_between(byte: u8) -> bool
    ensures { result ≡ is_between_of byte }
{
    is_space(byte) || b":-_.,;/\\='\"xX".contains(&byte)
}

// Whether a character is a digit: a hexadecimal one, or a decimal one.
fn is_digit(is_hexadecimal: bool, byte: u8) -> bool
    ensures { result ≡ is_digit_of is_hexadecimal byte }
{
    if is_hexadecimal {
        byte.is_ascii_hexdigit()
    } else {
        byte.is_ascii_digit()
    }
}

fn count_digits(is_hexadecimal: bool, path: &[u8]) -> usize
    ensures { result ≡ digits_in is_hexadecimal path.now }
{
    path.iter()
        .filter(|byte| is_digit(is_hexadecimal, **byte))
        .count()
}

// How many characters there are that are neither digits nor between digits.
fn count_others(is_hexadecimal: bool, path: &[u8]) -> usize
    ensures { result ≡ others_in is_hexadecimal path.now }
{
    path.iter()
        .filter(|byte| !is_digit(is_hexadecimal, **byte) && !is_between(**byte))
        .count()
}

// Whether a path has these digits at least, and for four of them one other character at most.
fn are_mostly(is_hexadecimal: bool, least: usize, path: &[u8]) -> bool
    ensures { result ≡ are_mostly_of is_hexadecimal least path.now }
{
    let digits = count_digits(is_hexadecimal, path);
    digits >= least && count_others(is_hexadecimal, path) <= digits / 4
}

// Whether a path may be a secret that was typed in the place of a file's name: a PIN or an account
// number, or a key. A few other characters do not make it another thing.
fn may_be_secret(path: &str) -> bool
    ensures { result ≡ may_be_secret_of path.now }
{
    are_mostly(false, 4, path.as_bytes()) || are_mostly(true, 15, path.as_bytes())
}

/// A path as a fault shows it.
pub fn shown<'a>(path: &'a str) -> &'a str
    ensures { result.now ≡ shown_path path.now }
{
    if path.is_empty() {
        "an empty name"
    } else if may_be_secret(path) {
        "a file named by digits"
    } else {
        path
    }
}

impl<'a> Source<'a> {
    /// What a fault of this source names: the file's path, unless it may be a secret, or the
    /// option.
    pub fn name(self) -> &'a str
        ensures { result.now ≡ name_of_source self.entry }
    {
        match self {
            Source::StandardInput => "standard input",
            Source::File(path) => shown(path),
            Source::Descriptor(_) => "--key-fd",
            Source::Variable(_) => "--key-env",
        }
    }
}
