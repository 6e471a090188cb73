//! Why an encrypted private key is not read.

use std::error::Error;
use std::fmt;

/// Why bytes are not read as an encrypted private key. What stands in place of an algorithm that is
/// read is given as its object identifier, the contents of that element in DER (ITU-T X.690, 8.19).
#[derive(Clone, Copy, Debug, PartialEq, Eq)]
pub enum KeyFileError<'a> {
    /// The bytes are not the DER of an encrypted private key: an element is missing, cut off or
    /// another one, a length or a number is not in the fewest bytes, or bytes follow the last one
    /// that are no blanks.
    Structure,
    /// The algorithm is neither PBES2 nor one of DES or triple DES by PKCS #5 or PKCS #12.
    Algorithm(&'a [u8]),
    /// The key is not derived by PBKDF2.
    KeyDerivation(&'a [u8]),
    /// There is no iteration, or there are more than are allowed.
    Iterations,
    /// The key does not have 24 bytes.
    KeyLength,
    /// PBKDF2 uses neither HMAC-SHA-1 nor HMAC-SHA-256.
    Prf(&'a [u8]),
    /// The cipher is not DES-EDE3-CBC.
    Cipher(&'a [u8]),
}

impl fmt::Display for KeyFileError<'_> {
    ghost use Rattle.std.specs.Prelude.{Some};
    ghost use Rattle.des_passwords.specs.KeyFileFaults.{text_of};

    ghost output = { λ error. Some (text_of error) };

    ghost styled_output = { λ error _. Some (text_of error) };

    fn fmt<W: fmt::Write>(&self, f: &mut fmt::Formatter<W>) -> fmt::Result {
        f.write_str(match self {
            KeyFileError::Structure => "the bytes are not the DER of an encrypted private key",
            KeyFileError::Algorithm(_) => {
                "the algorithm is neither PBES2 nor one of DES or triple DES by PKCS #5 or PKCS #12"
            }
            KeyFileError::KeyDerivation(_) => "the key is not derived by PBKDF2",
            KeyFileError::Iterations => "there are no iterations, or more than are allowed",
            KeyFileError::KeyLength => "the key does not have 24 bytes",
            KeyFileError::Prf(_) => "PBKDF2 uses neither HMAC-SHA-1 nor HMAC-SHA-256",
            KeyFileError::Cipher(_) => "the cipher is not DES-EDE3-CBC",
        })
    }
}

impl Error for KeyFileError<'_> {}
