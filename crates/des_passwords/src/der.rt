//! Elements of DER (ITU-T X.690), with contents of fewer than 2^16 bytes.

ghost use Rattle.std.specs.Prelude.{◌≡◌, ◌≤◌, ℕ, length};
ghost use Rattle.des_passwords.specs.DerReading.{Gives, digits_of, element_at, iterations_at, iterations_of, last_element_at, length_at, number_of, tag_at, whole_element_at};

use crate::key_file_error::KeyFileError;
use crate::text_lines::are_blanks;

/// The tags of elements that an encrypted private key has.
pub(crate) const INTEGER: u8 = 0x02;

pub(crate) const OCTETS: u8 = 0x04;

pub(crate) const OID: u8 = 0x06;

pub(crate) const SEQUENCE: u8 = 0x30;

// A length in the fewest bytes, and what follows it.
#[tactic(auto, unfolding(crate::specs::DerReading::length_at, crate::specs::DerReading::one_octet, crate::specs::DerReading::two_octets))]
fn length_at(bytes: &[u8]) -> Result<(usize, &[u8]), KeyFileError<'_>>
    ensures { Gives (λ x. (x.0, x.1.now)) result (length_at bytes.now) }
{
    match bytes {
        [n, rest @ ..] if *n < 128 => Ok((*n as usize, rest)),
        [0x81, n, rest @ ..] if *n >= 128 => Ok((*n as usize, rest)),
        [0x82, high, low, rest @ ..] if *high != 0 => {
            Ok((*high as usize * 256 + *low as usize, rest))
        }
        _ => Err(KeyFileError::Structure),
    }
}

// What follows the tag.
#[tactic(auto, unfolding(crate::specs::DerReading::tag_at))]
fn tag_at(tag: u8, bytes: &[u8]) -> Result<&[u8], KeyFileError<'_>>
    ensures { Gives (λ x. x.now) result (tag_at tag bytes.now) }
{
    match bytes {
        [first, rest @ ..] if *first == tag => Ok(rest),
        _ => Err(KeyFileError::Structure),
    }
}

// The contents of an element, and what follows it.
#[tactic(auto, unfolding(crate::specs::DerReading::element_at))]
pub(crate) fn element_at(tag: u8, bytes: &[u8]) -> Result<(&[u8], &[u8]), KeyFileError<'_>>
    ensures { Gives (λ x. (x.0.now, x.1.now)) result (element_at tag bytes.now) }
{
    let rest = tag_at(tag, bytes)?;
    let (length, rest) = length_at(rest)?;
    if rest.len() < length {
        return Err(KeyFileError::Structure);
    }
    Ok(rest.split_at(length))
}

// The contents of an element that nothing follows.
#[tactic(auto, unfolding(crate::specs::DerReading::last_element_at))]
pub(crate) fn last_element_at(tag: u8, bytes: &[u8]) -> Result<&[u8], KeyFileError<'_>>
    ensures { Gives (λ x. x.now) result (last_element_at tag bytes.now) }
{
    let (contents, rest) = element_at(tag, bytes)?;
    if !rest.is_empty() {
        return Err(KeyFileError::Structure);
    }
    Ok(contents)
}

// The contents of an element that blanks alone follow.
#[tactic(auto, unfolding(crate::specs::DerReading::whole_element_at))]
pub(crate) fn whole_element_at(tag: u8, bytes: &[u8]) -> Result<&[u8], KeyFileError<'_>>
    ensures { Gives (λ x. x.now) result (whole_element_at tag bytes.now) }
{
    let (contents, rest) = element_at(tag, bytes)?;
    if !are_blanks(rest) {
        return Err(KeyFileError::Structure);
    }
    Ok(contents)
}

// The digits of a number to base 256, of which the first is not 0 unless it is the only one.
#[tactic(auto, unfolding(crate::specs::DerReading::digits_of))]
pub(crate) fn digits_of(contents: &[u8]) -> Result<&[u8], KeyFileError<'_>>
    ensures { Gives (λ x. x.now) result (digits_of contents.now) }
{
    match contents {
        [0, digits @ ..] if !digits.is_empty() => {
            if digits[0] < 128 {
                return Err(KeyFileError::Structure);
            }
            Ok(digits)
        }
        [first, ..] if *first < 128 => Ok(contents),
        _ => Err(KeyFileError::Structure),
    }
}

// A number of four digits to base 256 at most.
fn number_of(digits: &[u8]) -> u32
    requires { length digits.now ≤ 4 }
    ensures { result ≡ number_of digits.now }
{
    let mut word = [0; 4];
    word[4 - digits.len()..].copy_from_slice(digits);
    u32::from_be_bytes(word)
}

// A number of iterations, from 1 up to the most that are allowed, of its digits to base 256.
#[tactic(auto, unfolding(crate::specs::DerReading::iterations_of))]
fn iterations_of(most: u32, digits: &[u8]) -> Result<u32, KeyFileError<'_>>
    ensures { Gives (λ x. x) result (iterations_of most digits.now) }
{
    if digits.len() > 4 {
        return Err(KeyFileError::Iterations);
    }
    let iterations = number_of(digits);
    if iterations == 0 || iterations > most {
        return Err(KeyFileError::Iterations);
    }
    Ok(iterations)
}

// An element that is a number of iterations, and what follows it.
#[tactic(auto, unfolding(crate::specs::DerReading::iterations_at))]
pub(crate) fn iterations_at(most: u32, bytes: &[u8]) -> Result<(u32, &[u8]), KeyFileError<'_>>
    ensures { Gives (λ x. (x.0, x.1.now)) result (iterations_at most bytes.now) }
{
    let (contents, rest) = element_at(INTEGER, bytes)?;
    let digits = digits_of(contents)?;
    let iterations = iterations_of(most, digits)?;
    Ok((iterations, rest))
}
