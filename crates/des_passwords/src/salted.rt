//! What `openssl enc` wrote: `Salted__`, eight bytes of salt, and what is encrypted.

ghost use Rattle.std.specs.Prelude.{◌≡◌, ◌≢◌, ◌≤◌, ◌<◌, ◌↔◌, length, take, codes, IsOk, IfOk, IsErrOf};
ghost use Rattle.des_passwords.specs.Salted.{IsSalted};

use std::error::Error;
use std::fmt;

/// What stands before the salt.
pub const PREFIX: [u8; 8] = *b"Salted__";

/// Why bytes are not what `openssl enc` writes if it salts.
#[derive(Clone, Copy, Debug, PartialEq, Eq)]
pub enum SaltedError {
    /// They do not begin with `Salted__`.
    NotSalted,
    /// They end within the salt.
    SaltCut,
}

impl fmt::Display for SaltedError {
    ghost use Rattle.std.specs.Prelude.{Some};
    ghost use Rattle.des_passwords.specs.Salted.{text_of};

    ghost output = { λ error. Some (text_of error) };

    ghost styled_output = { λ error _. Some (text_of error) };

    fn fmt<W: fmt::Write>(&self, f: &mut fmt::Formatter<W>) -> fmt::Result {
        f.write_str(match self {
            SaltedError::NotSalted => "the bytes do not begin with Salted__",
            SaltedError::SaltCut => "the bytes end within the salt",
        })
    }
}

impl Error for SaltedError {}

/// The salt of a password, and what is encrypted under its key.
#[derive(Clone, Copy, Debug)]
pub struct Salted<'a> {
    /// The eight bytes of salt.
    pub salt: &'a [u8; 8],
    /// All that follows the salt.
    pub encrypted: &'a [u8],
}

/// Reads what `openssl enc` wrote, with no `-nosalt` and no `-S`: `Salted__`, the salt, and the
/// rest. `NotSalted` if the bytes begin otherwise or are fewer, `SaltCut` if no eight follow.
pub fn read_salted(bytes: &[u8]) -> Result<Salted<'_>, SaltedError>
    ensures ok { IfOk result (λ read. IsSalted bytes.now read.salt.now read.encrypted.now) }
    ensures accepted { IsOk result ↔ (take 8 bytes.now ≡ codes "Salted__")
        × (16 ≤ length bytes.now) }
    ensures not_salted { IsErrOf result SaltedError.NotSalted
        ↔ (take 8 bytes.now ≢ codes "Salted__") }
    ensures cut { IsErrOf result SaltedError.SaltCut ↔ (take 8 bytes.now ≡ codes "Salted__")
        × (length bytes.now < 16) }
{
    let Some((prefix, rest)) = bytes.split_first_chunk::<8>() else {
        return Err(SaltedError::NotSalted);
    };
    if *prefix != PREFIX {
        return Err(SaltedError::NotSalted);
    }
    let Some((salt, encrypted)) = rest.split_first_chunk::<8>() else {
        return Err(SaltedError::SaltCut);
    };
    Ok(Salted { salt, encrypted })
}
