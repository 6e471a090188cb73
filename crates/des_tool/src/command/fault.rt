//! Why arguments have no answer.

ghost use Rattle.std.specs.Prelude.{◌≡◌};
ghost use Rattle.des_tool.specs.Fault.{name_of};

use std::alloc::{AllocError, AllocFailed};
use std::error::Error;
use std::fmt;

/// Why the arguments have no answer. The first fault of the arguments is reported: of the key
/// before the vector before the blocks, and of each the length before the digits.
#[derive(Clone, Copy, Debug, PartialEq, Eq)]
pub enum Fault {
    /// The arguments do not have a shape that is known.
    Usage,
    /// The key argument does not have two bytes for each byte of the cipher's key, or, if a key is
    /// tested, 16, 32 or 48 bytes.
    KeyLength,
    /// The key argument holds something that is not a hexadecimal digit.
    KeyText,
    /// The vector argument does not have 16 bytes, or the length of the blocks argument is not a
    /// multiple of 16 bytes.
    BlockLength,
    /// The vector argument or the blocks argument holds something that is not a hexadecimal digit.
    BlockText,
    /// A request for memory was refused.
    Memory,
}

impl Fault {
    // The fault's name.
    pub(super) fn name(self) -> &'static str
        ensures { result.now ≡ name_of self }
    {
        match self {
            Fault::Usage => "Usage",
            Fault::KeyLength => "KeyLength",
            Fault::KeyText => "KeyText",
            Fault::BlockLength => "BlockLength",
            Fault::BlockText => "BlockText",
            Fault::Memory => "Memory",
        }
    }
}

/// Writes the fault's name, whatever options are set.
impl fmt::Display for Fault {
    ghost use Rattle.std.specs.Prelude.{Some};
    ghost use Rattle.des_tool.specs.Fault.{name_of};

    ghost output = { λ fault. Some (name_of fault) };

    ghost styled_output = { λ fault _. Some (name_of fault) };

    fn fmt<W: fmt::Write>(&self, f: &mut fmt::Formatter<W>) -> fmt::Result {
        f.write_str(self.name())
    }
}

impl Error for Fault {}

impl From<AllocError> for Fault {
    ghost use Rattle.std.specs.Prelude.{◌≡◌};
    ghost use Rattle.des_tool.specs.declared.command.fault.Fault.TheVariants.{Memory};

    ghost from_gives = { λ _ fault. fault ≡ Memory };

    fn from(_refused: AllocError) -> Fault {
        Fault::Memory
    }
}

impl<T: Drop> From<AllocFailed<T>> for Fault {
    ghost use Rattle.std.specs.Prelude.{◌≡◌};
    ghost use Rattle.des_tool.specs.declared.command.fault.Fault.TheVariants.{Memory};

    ghost from_gives = { λ _ fault. fault ≡ Memory };

    fn from(_refused: AllocFailed<T>) -> Fault {
        Fault::Memory
    }
}
