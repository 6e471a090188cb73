//! Keys and vectors of password-based encryption, by the names that frameworks give it.

ghost use Rattle.std.specs.Prelude.{◌≡◌, ◌≢◌, ◌≤◌, ◌+◌, ◌↔◌, ◌++◌, length, IsOk, IsErrOf, IfOk, OnOk, OnErr};
ghost use Rattle.std.specs.Str.{str_eq_ignore_ascii_case};
ghost use Rattle.des_columns.specs.Pbe.{algorithm_of, derived_by, IsSaltOf, key_size};

use crate::java;
use des_passwords::pbkdf2::DeriveError;
use des_passwords::{KeyAndVector, pbkdf1, pkcs12};
use md5::Md5;
use sha1::Sha1;

/// A rule by which a password and a salt give a key and a vector.
#[derive(Clone, Copy, Debug, PartialEq, Eq)]
pub enum Algorithm {
    /// `PBEWithMD5AndDES` of Java, `pbeWithMD5AndDES-CBC` of PKCS #5 (RFC 8018, section 6.1).
    Md5Des,
    /// `PBEWithSHA1AndDES`, `pbeWithSHA1AndDES-CBC` of PKCS #5.
    Sha1Des,
    /// `PBEWithMD5AndTripleDES`, a rule of Java alone.
    Md5TripleDes,
    /// `PBEWithSHA1AndDESede` of Java, `pbeWithSHAAnd3-KeyTripleDES-CBC` of PKCS #12 (RFC 7292,
    /// appendix C).
    Sha1TripleDes,
    /// `pbeWithSHAAnd2-KeyTripleDES-CBC` of PKCS #12.
    Sha1TwoKeys,
}

/// Why a password gives no key.
#[derive(Clone, Copy, Debug, PartialEq, Eq)]
pub enum PbeError {
    /// The derivation fails: the number of iterations is 0.
    Derive(DeriveError),
    /// The salt for `Md5TripleDes` does not have 8 bytes.
    SaltLength,
}

impl From<DeriveError> for PbeError {
    ghost use Rattle.std.specs.Prelude.{◌≡◌};
    ghost use Rattle.des_columns.specs.declared.pbe.PbeError.TheVariants.{Derive};

    ghost from_gives = { λ error answer. answer ≡ Derive error };

    fn from(error: DeriveError) -> PbeError {
        PbeError::Derive(error)
    }
}

impl Algorithm {
    /// The algorithm of a name, in any case of letters. `None` if it is none of these.
    pub fn of_name(name: &[u8]) -> Option<Algorithm>
        ensures { result ≡ algorithm_of name.now }
    {
        if is_name(name, b"PBEWithMD5AndDES") || is_name(name, b"pbeWithMD5AndDES-CBC") {
            Some(Algorithm::Md5Des)
        } else if is_name(name, b"PBEWithSHA1AndDES") || is_name(name, b"pbeWithSHA1AndDES-CBC") {
            Some(Algorithm::Sha1Des)
        } else if is_name(name, b"PBEWithMD5AndTripleDES") {
            Some(Algorithm::Md5TripleDes)
        } else if is_name(name, b"PBEWithSHA1AndDESede")
            || is_name(name, b"pbeWithSHAAnd3-KeyTripleDES-CBC")
        {
            Some(Algorithm::Sha1TripleDes)
        } else if is_name(name, b"pbeWithSHAAnd2-KeyTripleDES-CBC") {
            Some(Algorithm::Sha1TwoKeys)
        } else {
            None
        }
    }

    /// How many bytes the key has.
    pub fn key_size(self) -> usize
        ensures { result ≡ key_size self }
    {
        match self {
            Algorithm::Md5Des | Algorithm::Sha1Des => 8,
            Algorithm::Sha1TwoKeys => 16,
            Algorithm::Md5TripleDes | Algorithm::Sha1TripleDes => 24,
        }
    }

    /// Writes the key of a password and a salt, and the vector behind it. `SaltLength`
    /// if the algorithm is `Md5TripleDes` and the salt does not have 8 bytes, and else `Derive` if
    /// `iterations` is 0.
    pub fn write_key(
        self,
        password: &[u8],
        salt: &[u8],
        iterations: u32,
        bytes: &mut [u8],
    ) -> Result<(), PbeError>
        requires { length bytes.old ≡ key_size self + 8 }
        ensures accepted { IsOk result ↔ ((iterations ≢ 0) × IsSaltOf self (length salt.now)) }
        ensures salt { IsErrOf result PbeError.SaltLength ↔ ¬ (IsSaltOf self (length salt.now)) }
        ensures ok { OnOk result (bytes.new ≡ derived_by self password.now salt.now iterations) }
        ensures err { OnErr result (bytes.new ≡ bytes.old) }
    {
        match self {
            Algorithm::Md5Des => {
                let both = pbkdf1::key_and_vector::<Md5>(password, salt, iterations)?;
                write(&both, bytes);
            }
            Algorithm::Sha1Des => {
                let both = pbkdf1::key_and_vector::<Sha1>(password, salt, iterations)?;
                write(&both, bytes);
            }
            Algorithm::Md5TripleDes => {
                let Ok(salt) = <&[u8; 8]>::try_from(salt) else {
                    return Err(PbeError::SaltLength);
                };
                let both = java::key_and_vector(password, salt, iterations)?;
                write(&both, bytes);
            }
            Algorithm::Sha1TripleDes => {
                let both = pkcs12::key_and_vector::<24>(password, salt, iterations)?;
                write(&both, bytes);
            }
            Algorithm::Sha1TwoKeys => {
                let both = pkcs12::key_and_vector::<16>(password, salt, iterations)?;
                write(&both, bytes);
            }
        }
        Ok(())
    }
}

/// Whether two names are one in any case of letters.
pub(crate) fn is_name(name: &[u8], other: &[u8]) -> bool
    ensures { result ≡ str_eq_ignore_ascii_case name.now other.now }
{
    name.eq_ignore_ascii_case(other)
}

// Writes a key and the vector behind it.
fn write<const N: usize>(both: &KeyAndVector<N>, bytes: &mut [u8])
    requires { length bytes.old ≡ N + 8 }
    ensures { bytes.new ≡ both.now.key ++ both.now.vector }
{
    bytes[..N].copy_from_slice(&both.key);
    bytes[N..].copy_from_slice(&both.vector);
}
