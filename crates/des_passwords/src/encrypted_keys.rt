//! Private keys that others encrypted with a password under DES or triple DES: PKCS #8 (RFC 5958)
//! with PBES1 or PBES2 (RFC 8018), or a scheme of PKCS #12 (RFC 7292, appendix C), as DER.

ghost use Rattle.std.specs.Prelude.{◌≡◌, ◌≢◌, ◌↔◌, List, ℕ, length, Ok, IsOk, IsErrOf, IfOk};
ghost use Rattle.des_passwords.specs.DerReading.{Gives};
ghost use Rattle.des_passwords.specs.EncryptedKeys.{Encryption, after_key_length, derivation_of, eight_at, encrypted_key_of, encryption_named, encryption_of, key_of, pbe_by, pbe_named, pbe_of, pbes2_of, pbkdf2_of, prf_named, prf_of, salt_of, seen, thrice, two_as_three, vector_at, vector_of, view, with_null};
ghost use Rattle.des_passwords.specs.KeySpellings.{IsFile};

use crate::bytes_to_key::bytes_to_key;
use crate::der::{
    INTEGER, OCTETS, OID, SEQUENCE, digits_of, element_at, iterations_at, last_element_at,
    whole_element_at,
};
use crate::derivation::KeyAndVector;
use crate::key_file_error::KeyFileError;
use crate::pbkdf2::{DeriveError, pbkdf2};
use crate::{pbkdf1, pkcs12};
use md5::Md5;
use sha1::Sha1;
use sha2::Sha256;

/// The most iterations that `read_encrypted_key` takes.
pub const MAX_ITERATIONS: u32 = 10_000_000;

// 1.2.840.113549.1.5.3 and .10, and 1.2.840.113549.1.12.1.3 and .4.
const PBE_MD5_DES: [u8; 9] = [0x2a, 0x86, 0x48, 0x86, 0xf7, 0x0d, 0x01, 0x05, 0x03];

const PBE_SHA1_DES: [u8; 9] = [0x2a, 0x86, 0x48, 0x86, 0xf7, 0x0d, 0x01, 0x05, 0x0a];

const PBE_SHA1_THREE_KEYS: [u8; 10] = [0x2a, 0x86, 0x48, 0x86, 0xf7, 0x0d, 0x01, 0x0c, 0x01, 0x03];

const PBE_SHA1_TWO_KEYS: [u8; 10] = [0x2a, 0x86, 0x48, 0x86, 0xf7, 0x0d, 0x01, 0x0c, 0x01, 0x04];

// 1.2.840.113549.1.5.13 and .12, 1.2.840.113549.2.7 and .9, and 1.2.840.113549.3.7.
const PBES2: [u8; 9] = [0x2a, 0x86, 0x48, 0x86, 0xf7, 0x0d, 0x01, 0x05, 0x0d];

const PBKDF2: [u8; 9] = [0x2a, 0x86, 0x48, 0x86, 0xf7, 0x0d, 0x01, 0x05, 0x0c];

const HMAC_SHA1: [u8; 8] = [0x2a, 0x86, 0x48, 0x86, 0xf7, 0x0d, 0x02, 0x07];

const HMAC_SHA256: [u8; 8] = [0x2a, 0x86, 0x48, 0x86, 0xf7, 0x0d, 0x02, 0x09];

const DES_EDE3_CBC: [u8; 8] = [0x2a, 0x86, 0x48, 0x86, 0xf7, 0x0d, 0x03, 0x07];

const NULL: [u8; 2] = [0x05, 0x00];

/// How a private key is encrypted: the cipher, in CBC mode, and how its key is derived.
#[derive(Clone, Copy, Debug, PartialEq, Eq)]
pub enum Scheme {
    /// DES, the key and the vector by PBKDF1 with MD5.
    Pbes1Md5,
    /// DES, the key and the vector by PBKDF1 with SHA-1.
    Pbes1Sha1,
    /// Triple DES with three keys, they and the vector by PKCS #12 with SHA-1.
    Pkcs12ThreeKeys,
    /// Triple DES with two keys, they and the vector by PKCS #12 with SHA-1.
    Pkcs12TwoKeys,
    /// Triple DES with three keys, the key by PBKDF2 with HMAC-SHA-1.
    Pbes2Sha1,
    /// Triple DES with three keys, the key by PBKDF2 with HMAC-SHA-256.
    Pbes2Sha256,
    /// DES, `DES-CBC` in a PEM header, the key by `EVP_BytesToKey` with MD5.
    DekInfoDes,
    /// Triple DES with three keys, `DES-EDE3-CBC` in a PEM header, the key by `EVP_BytesToKey`
    /// with MD5.
    DekInfoTripleDes,
}

/// What a file says of its encryption.
#[derive(Clone, Copy, Debug)]
pub struct Parameters<'a> {
    pub scheme: Scheme,
    pub salt: &'a [u8],
    pub iterations: u32,
    // The vector; zeros if it is derived with the key.
    pub(crate) vector: [u8; 8],
}

impl Parameters<'_> {
    /// The key and the vector with which `TdesEde3` decrypts the file in CBC mode: what comes out
    /// is padded as PKCS #5 says. If the file is under DES, the key is that of DES three times,
    /// and triple DES is then DES; if it is under two keys, the first is the third too.
    /// `NoIteration` if the iterations are 0, as they never are in what is read.
    pub fn key_and_vector(&self, password: &[u8]) -> Result<KeyAndVector<24>, DeriveError>
        ensures accepted { IsOk result ↔ (self.now.iterations ≢ 0) }
        ensures no_iteration { IsErrOf result DeriveError.NoIteration
            ↔ (self.now.iterations ≡ 0) }
        ensures key { IfOk result (λ both. both.key
            ≡ key_of self.now.scheme password.now self.now.salt.now self.now.iterations) }
        ensures vector { IfOk result (λ both. both.vector
            ≡ vector_of self.now.scheme password.now self.now.salt.now self.now.iterations
            self.now.vector) }
    {
        let salt = self.salt;
        let count = self.iterations;
        let vector = self.vector;
        let mut key = [0; 24];
        match self.scheme {
            Scheme::Pbes1Md5 => {
                let single = pbkdf1::key_and_vector::<Md5>(password, salt, count)?;
                return Ok(as_triple(&single));
            }
            Scheme::Pbes1Sha1 => {
                let single = pbkdf1::key_and_vector::<Sha1>(password, salt, count)?;
                return Ok(as_triple(&single));
            }
            Scheme::Pkcs12ThreeKeys => return pkcs12::key_and_vector::<24>(password, salt, count),
            Scheme::Pkcs12TwoKeys => {
                let two = pkcs12::key_and_vector::<16>(password, salt, count)?;
                return Ok(as_three(&two));
            }
            Scheme::Pbes2Sha1 => pbkdf2::<Sha1>(password, salt, count, &mut key)?,
            Scheme::Pbes2Sha256 => pbkdf2::<Sha256>(password, salt, count, &mut key)?,
            Scheme::DekInfoDes => {
                let mut single = [0; 8];
                bytes_to_key::<Md5>(password, salt, count, &mut single)?;
                key = thrice(&single);
            }
            Scheme::DekInfoTripleDes => bytes_to_key::<Md5>(password, salt, count, &mut key)?,
        }
        Ok(KeyAndVector { key, vector })
    }
}

// A key of DES as one of triple DES, with its vector.
fn as_triple(single: &KeyAndVector<8>) -> KeyAndVector<24>
    ensures key { result.key ≡ thrice single.now.key }
    ensures vector { result.vector ≡ single.now.vector }
{
    KeyAndVector {
        key: thrice(&single.key),
        vector: single.vector,
    }
}

// Two keys as three, with their vector.
fn as_three(two: &KeyAndVector<16>) -> KeyAndVector<24>
    ensures key { result.key ≡ two_as_three two.now.key }
    ensures vector { result.vector ≡ two.now.vector }
{
    let mut key = [0; 24];
    let (front, back) = key.split_at_mut(16);
    front.copy_from_slice(&two.key);
    back.copy_from_slice(&two.key[..8]);
    KeyAndVector {
        key,
        vector: two.vector,
    }
}

// A key of DES as one of triple DES.
fn thrice(key: &[u8]) -> [u8; 24]
    requires { length key.now ≡ 8 }
    ensures { result ≡ thrice key.now }
{
    let mut part = [0; 8];
    part.copy_from_slice(key);
    let mut answer = [0; 24];
    answer.copy_from_slice([part; 3].as_flattened());
    answer
}

/// An encrypted private key.
#[derive(Clone, Copy, Debug)]
pub struct EncryptedKey<'a> {
    /// How it is encrypted.
    pub parameters: Parameters<'a>,
    /// What is encrypted: the DER of a private key, padded.
    pub encrypted: &'a [u8],
}

// The salt: of PBES1 eight octets, of PKCS #12 any number.
fn salt_of(scheme: Scheme, octets: &[u8]) -> Result<&[u8], KeyFileError<'_>>
    ensures { Gives (λ x. x.now) result (salt_of scheme octets.now) }
{
    match scheme {
        Scheme::Pkcs12ThreeKeys | Scheme::Pkcs12TwoKeys => Ok(octets),
        _ if octets.len() == 8 => Ok(octets),
        _ => Err(KeyFileError::Structure),
    }
}

// PBEParameter or pkcs-12PbeParams: the salt, and the iterations.
#[tactic(auto, unfolding(crate::specs::EncryptedKeys::pbe_of))]
fn pbe_of(most: u32, scheme: Scheme, bytes: &[u8]) -> Result<Parameters<'_>, KeyFileError<'_>>
    ensures { Gives view result (pbe_of most scheme bytes.now) }
{
    let parameters = last_element_at(SEQUENCE, bytes)?;
    let (salt, rest) = element_at(OCTETS, parameters)?;
    let salt = salt_of(scheme, salt)?;
    let (iterations, rest) = iterations_at(most, rest)?;
    if !rest.is_empty() {
        return Err(KeyFileError::Structure);
    }
    Ok(Parameters {
        scheme,
        salt,
        iterations,
        vector: [0; 8],
    })
}

// What follows the length of the key, which may be left out.
#[tactic(auto, unfolding(crate::specs::EncryptedKeys::after_key_length, crate::specs::EncryptedKeys::given_length))]
fn after_key_length(bytes: &[u8]) -> Result<&[u8], KeyFileError<'_>>
    ensures { Gives (λ x. x.now) result (after_key_length bytes.now) }
{
    match bytes {
        [2, ..] => {
            let (contents, rest) = element_at(INTEGER, bytes)?;
            if digits_of(contents)? != [24].as_slice() {
                return Err(KeyFileError::KeyLength);
            }
            Ok(rest)
        }
        _ => Ok(bytes),
    }
}

// A function of PBKDF2, whose parameters are NULL.
fn with_null(scheme: Scheme, parameters: &[u8]) -> Result<Scheme, KeyFileError<'_>>
    ensures { Gives (λ x. x) result (with_null scheme parameters.now) }
{
    if parameters != NULL.as_slice() {
        return Err(KeyFileError::Structure);
    }
    Ok(scheme)
}

// The function of PBKDF2 by its object identifier: HMAC-SHA-1 or HMAC-SHA-256.
#[tactic(auto, unfolding(crate::specs::EncryptedKeys::prf_named))]
fn prf_named<'a>(oid: &'a [u8], parameters: &'a [u8]) -> Result<Scheme, KeyFileError<'a>>
    ensures { Gives (λ x. x) result (prf_named oid.now parameters.now) }
{
    if oid == HMAC_SHA1.as_slice() {
        with_null(Scheme::Pbes2Sha1, parameters)
    } else if oid == HMAC_SHA256.as_slice() {
        with_null(Scheme::Pbes2Sha256, parameters)
    } else {
        Err(KeyFileError::Prf(oid))
    }
}

// The function of PBKDF2, which may be left out if it is HMAC-SHA-1.
#[tactic(auto, unfolding(crate::specs::EncryptedKeys::prf_of))]
fn prf_of(bytes: &[u8]) -> Result<Scheme, KeyFileError<'_>>
    ensures { Gives (λ x. x) result (prf_of bytes.now) }
{
    if bytes.is_empty() {
        return Ok(Scheme::Pbes2Sha1);
    }
    let prf = last_element_at(SEQUENCE, bytes)?;
    let (oid, parameters) = element_at(OID, prf)?;
    prf_named(oid, parameters)
}

// The parameters of PBKDF2, with the vector of the cipher.
#[tactic(auto, unfolding(crate::specs::EncryptedKeys::derivation_of))]
fn derivation_of(
    most: u32,
    vector: [u8; 8],
    bytes: &[u8],
) -> Result<Parameters<'_>, KeyFileError<'_>>
    ensures { Gives view result (derivation_of most vector bytes.now) }
{
    let parameters = last_element_at(SEQUENCE, bytes)?;
    let (salt, rest) = element_at(OCTETS, parameters)?;
    let (iterations, rest) = iterations_at(most, rest)?;
    let rest = after_key_length(rest)?;
    let scheme = prf_of(rest)?;
    Ok(Parameters {
        scheme,
        salt,
        iterations,
        vector,
    })
}

// The function that derives the key, which is PBKDF2, and its parameters.
#[tactic(auto, unfolding(crate::specs::EncryptedKeys::pbkdf2_of))]
fn pbkdf2_of(most: u32, bytes: &[u8], vector: [u8; 8]) -> Result<Parameters<'_>, KeyFileError<'_>>
    ensures { Gives view result (pbkdf2_of most bytes.now vector) }
{
    let (oid, rest) = element_at(OID, bytes)?;
    if oid != PBKDF2.as_slice() {
        return Err(KeyFileError::KeyDerivation(oid));
    }
    derivation_of(most, vector, rest)
}

// Eight octets that nothing follows.
#[tactic(auto, unfolding(crate::specs::EncryptedKeys::eight_at))]
fn eight_at(bytes: &[u8]) -> Result<[u8; 8], KeyFileError<'_>>
    ensures { Gives (λ x. x) result (eight_at bytes.now) }
{
    let octets = last_element_at(OCTETS, bytes)?;
    match octets.as_array::<8>() {
        Some(eight) => Ok(*eight),
        None => Err(KeyFileError::Structure),
    }
}

// The cipher, whose parameter is the vector.
#[tactic(auto, unfolding(crate::specs::EncryptedKeys::vector_at))]
fn vector_at(bytes: &[u8]) -> Result<[u8; 8], KeyFileError<'_>>
    ensures { Gives (λ x. x) result (vector_at bytes.now) }
{
    let cipher = last_element_at(SEQUENCE, bytes)?;
    let (oid, rest) = element_at(OID, cipher)?;
    if oid != DES_EDE3_CBC.as_slice() {
        return Err(KeyFileError::Cipher(oid));
    }
    eight_at(rest)
}

// PBES2-params: how the key is derived, and the cipher.
#[tactic(auto, unfolding(crate::specs::EncryptedKeys::pbes2_of))]
fn pbes2_of(most: u32, bytes: &[u8]) -> Result<Parameters<'_>, KeyFileError<'_>>
    ensures { Gives view result (pbes2_of most bytes.now) }
{
    let parameters = last_element_at(SEQUENCE, bytes)?;
    let (derivation, rest) = element_at(SEQUENCE, parameters)?;
    let vector = vector_at(rest)?;
    pbkdf2_of(most, derivation, vector)
}

// The scheme by its object identifier, if it derives the vector with the key.
#[tactic(auto, unfolding(crate::specs::EncryptedKeys::pbe_named))]
fn pbe_named(oid: &[u8]) -> Result<Scheme, KeyFileError<'_>>
    ensures { Gives (λ x. x) result (pbe_named oid.now) }
{
    if oid == PBE_MD5_DES.as_slice() {
        Ok(Scheme::Pbes1Md5)
    } else if oid == PBE_SHA1_DES.as_slice() {
        Ok(Scheme::Pbes1Sha1)
    } else if oid == PBE_SHA1_THREE_KEYS.as_slice() {
        Ok(Scheme::Pkcs12ThreeKeys)
    } else if oid == PBE_SHA1_TWO_KEYS.as_slice() {
        Ok(Scheme::Pkcs12TwoKeys)
    } else {
        Err(KeyFileError::Algorithm(oid))
    }
}

// That scheme with its parameters.
#[tactic(auto, unfolding(crate::specs::EncryptedKeys::pbe_by))]
fn pbe_by<'a>(
    most: u32,
    oid: &'a [u8],
    parameters: &'a [u8],
) -> Result<Parameters<'a>, KeyFileError<'a>>
    ensures { Gives view result (pbe_by most oid.now parameters.now) }
{
    let scheme = pbe_named(oid)?;
    pbe_of(most, scheme, parameters)
}

// The algorithm by its object identifier, with its parameters.
#[tactic(auto, unfolding(crate::specs::EncryptedKeys::encryption_named))]
fn encryption_named<'a>(
    most: u32,
    oid: &'a [u8],
    parameters: &'a [u8],
) -> Result<Parameters<'a>, KeyFileError<'a>>
    ensures { Gives view result (encryption_named most oid.now parameters.now) }
{
    if oid == PBES2.as_slice() {
        pbes2_of(most, parameters)
    } else {
        pbe_by(most, oid, parameters)
    }
}

// The algorithm with its parameters.
#[tactic(auto, unfolding(crate::specs::EncryptedKeys::encryption_of))]
fn encryption_of(most: u32, bytes: &[u8]) -> Result<Parameters<'_>, KeyFileError<'_>>
    ensures { Gives view result (encryption_of most bytes.now) }
{
    let (oid, parameters) = element_at(OID, bytes)?;
    encryption_named(most, oid, parameters)
}

// EncryptedPrivateKeyInfo.
#[tactic(auto, unfolding(crate::specs::EncryptedKeys::encrypted_key_of))]
fn encrypted_key_of(most: u32, bytes: &[u8]) -> Result<EncryptedKey<'_>, KeyFileError<'_>>
    ensures { Gives seen result (encrypted_key_of most bytes.now) }
{
    let key = whole_element_at(SEQUENCE, bytes)?;
    let (algorithm, rest) = element_at(SEQUENCE, key)?;
    let encrypted = last_element_at(OCTETS, rest)?;
    let parameters = encryption_of(most, algorithm)?;
    Ok(EncryptedKey {
        parameters,
        encrypted,
    })
}

/// Reads an encrypted private key from its DER, which only white space may follow, if it has at
/// most `most_iterations` iterations and its contents fewer than 2^16 bytes. The error is the first
/// that is met: outer elements are read before those within them, the cipher before the derivation.
pub fn read_encrypted_key_of_many(
    bytes: &[u8],
    most_iterations: u32,
) -> Result<EncryptedKey<'_>, KeyFileError<'_>>
    // What is read is spelled so.
    ensures found { IfOk result (λ key.
        IsFile most_iterations (view key.parameters) key.encrypted.now bytes.now) }
    // What is spelled so is read.
    ensures only { (e : Encryption) (encrypted : List ℕ) →
        IsFile most_iterations e encrypted bytes.now
        → Gives seen result (Ok (e, encrypted)) }
    // Which error it is.
    ensures exact { Gives seen result (encrypted_key_of most_iterations bytes.now) }
{
    encrypted_key_of(most_iterations, bytes)
}

/// Reads an encrypted private key from its DER, which blanks alone may follow. `Iterations` if it
/// has more than ten million: `read_encrypted_key_of_many` takes as many as you say.
pub fn read_encrypted_key(bytes: &[u8]) -> Result<EncryptedKey<'_>, KeyFileError<'_>>
    // What is read is spelled so.
    ensures found { IfOk result (λ key.
        IsFile 10000000 (view key.parameters) key.encrypted.now bytes.now) }
    // What is spelled so is read.
    ensures only { (e : Encryption) (encrypted : List ℕ) → IsFile 10000000 e encrypted bytes.now
        → Gives seen result (Ok (e, encrypted)) }
    // Which error it is.
    ensures exact { Gives seen result (encrypted_key_of 10000000 bytes.now) }
{
    read_encrypted_key_of_many(bytes, MAX_ITERATIONS)
}
