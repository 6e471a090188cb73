//! Why a key block is not made, or holds no key.

ghost use Rattle.std.specs.Prelude.{◌≡◌};
ghost use Rattle.des_key_blocks.specs.KeyBlockFaults.{name_of};

use std::error::Error;
use std::fmt;

/// Why a key block is not made, or a block holds no key. Of a block that is read the first of them
/// is reported, in this order; `wrap` says the order of those of what is to be made.
#[derive(Clone, Copy, Debug, PartialEq, Eq)]
pub enum KeyBlockError {
    /// The protection key does not have 16 or 24 bytes.
    ProtectionKeyLength,
    /// The block is not as long as its header says, or too short for a header; or there is no space
    /// for the block that is to be made.
    Length,
    /// The version is none of those of triple DES: `A`, `B` and `C`; or a block of version A is to
    /// be made.
    Version,
    /// A field of the header is not what the standard has.
    Header,
    /// An optional block is not what the standard has, or they do not end at a multiple of eight
    /// characters.
    OptionalBlock,
    /// What stands after the header and the optional blocks is not as long as encrypted key data
    /// and a MAC are.
    DataLength,
    /// A character after the header and the optional blocks is not a hexadecimal digit in upper case.
    Digit,
    /// The MAC is not that of the block.
    Mac,
    /// The key does not have 8, 16 or 24 bytes.
    KeyLength,
    /// The padding does not fill the last eight bytes, or has more than 30 bytes with the key.
    PaddingLength,
}

/// The error's name.
pub fn name(error: KeyBlockError) -> &'static str
    ensures { result.now ≡ name_of error }
{
    match error {
        KeyBlockError::ProtectionKeyLength => "ProtectionKeyLength",
        KeyBlockError::Length => "Length",
        KeyBlockError::Version => "Version",
        KeyBlockError::Header => "Header",
        KeyBlockError::OptionalBlock => "OptionalBlock",
        KeyBlockError::DataLength => "DataLength",
        KeyBlockError::Digit => "Digit",
        KeyBlockError::Mac => "Mac",
        KeyBlockError::KeyLength => "KeyLength",
        KeyBlockError::PaddingLength => "PaddingLength",
    }
}

/// Writes the error's name, whatever options are set.
impl fmt::Display for KeyBlockError {
    ghost use Rattle.std.specs.Prelude.{Some};
    ghost use Rattle.des_key_blocks.specs.KeyBlockFaults.{name_of};

    ghost output = { λ error. Some (name_of error) };

    ghost styled_output = { λ error _. Some (name_of error) };

    fn fmt<W: fmt::Write>(&self, f: &mut fmt::Formatter<W>) -> fmt::Result {
        f.write_str(name(*self))
    }
}

impl Error for KeyBlockError {}
