//! What the arguments of commands on files under passwords ask for.

ghost use Rattle.std.specs.Prelude.{◌≡◌, ℕ, IfSome, IfNone};
ghost use Rattle.des_passwords.specs.declared.derivation.Derivation.{Derivation as DerivationOf};
ghost use Rattle.des_arguments.specs.PasswordArguments.{IsCount, IsCountedText, IsDerivationText, count_of as count_by, is_to_encrypt as is_to_encrypt_of, derivation_fault};
ghost use Rattle.des_lines.specs.Faults.{FailsOnlyBy};

use super::argument_values::{is_given, is_set, text_of};
use super::misuse::{misuse, refuse};
use super::sources::{KEY, input_at, names_one, one_of, output_of, read_once};
use clap::ArgMatches;
use des_lines::fault::{Fault, FaultKind, Misuse};
use des_lines::source::Source;
use des_passwords::Derivation;
use des_passwords::encrypted_keys::MAX_ITERATIONS;
use des_requests::command::{KeyForm, PrivateKeyRequest};
use des_requests::streams::{Password, Secret};

// What encryption takes: `--derive` names another count.
const ITERATIONS: u32 = 600000;

/// The options that name where a password is.
pub(super) const PASSWORD: [&str; 3] = ["password-file", "password-fd", "password-env"];

// Where the password is: one place.
fn password_of<'a>(matches: &ArgMatches<'a>) -> Result<Source<'a>, Fault<'a>> {
    one_of(matches, PASSWORD, Misuse::PasswordSource)
}

// ---- how a password gives a key

// The count of a text: a number that a word of 32 bits holds.
fn count_in(text: &str) -> Option<u32>
    ensures count { IfSome result (IsCount text.now) }
    ensures none { IfNone result ((count : ℕ) → ¬ IsCount text.now count) }
{
    text.parse().ok()
}

/// The derivation of a text, if it names one.
pub fn derivation_of(text: &str) -> Option<Derivation>
    ensures named { IfSome result (IsDerivationText text.now) }
    ensures none { IfNone result ((derivation : DerivationOf)
        → ¬ IsDerivationText text.now derivation) }
{
    match text {
        "md5" => Some(Derivation::Md5),
        "sha1" => Some(Derivation::Sha1),
        "sha256" => Some(Derivation::Sha256),
        _ => derivation_with_count(text),
    }
}

// The derivation of a text with a count.
fn derivation_with_count(text: &str) -> Option<Derivation>
    ensures named { IfSome result (IsCountedText text.now) }
    ensures none { IfNone result ((derivation : DerivationOf)
        → ¬ IsCountedText text.now derivation) }
{
    match text.strip_prefix("pbkdf2-sha1:") {
        Some(count) => Some(Derivation::Pbkdf2Sha1(count_in(count)?)),
        None => {
            let count = text.strip_prefix("pbkdf2-sha256:")?;
            Some(Derivation::Pbkdf2Sha256(count_in(count)?))
        }
    }
}

// How often a derivation goes through its hash function.
fn count_of(derivation: Derivation) -> u32
    ensures { result ≡ count_by derivation }
{
    match derivation {
        Derivation::Pbkdf2Sha1(count) | Derivation::Pbkdf2Sha256(count) => count,
        _ => 1,
    }
}

// Whether encryption takes a derivation.
fn is_to_encrypt(derivation: Derivation) -> bool
    ensures { result ≡ is_to_encrypt_of derivation }
{
    matches!(derivation, Derivation::Pbkdf2Sha256(_))
}

// The fault of a derivation: encryption takes one alone, and there is an iteration at least, and no
// more than most unless any count is taken.
fn check_derivation(
    derivation: Derivation,
    encrypts: bool,
    takes_any_count: bool,
) -> Result<(), FaultKind>
    ensures { FailsOnlyBy (derivation_fault derivation encrypts takes_any_count) result }
{
    let count = count_of(derivation);
    if encrypts && !is_to_encrypt(derivation) {
        Err(FaultKind::Usage(Misuse::DerivationToEncrypt))
    } else if count == 0 {
        Err(FaultKind::Usage(Misuse::Derivation))
    } else if count > MAX_ITERATIONS && !takes_any_count {
        Err(FaultKind::Usage(Misuse::Count))
    } else {
        Ok(())
    }
}

// The derivation that `--derive` names: to encrypt, there is one without it.
fn asked_derivation<'a>(encrypts: bool, matches: &ArgMatches<'a>) -> Result<Derivation, Fault<'a>> {
    let derivation = match text_of(matches, "derive") {
        Some(text) => derivation_of(text).ok_or(misuse(Misuse::Derivation, "--derive"))?,
        None if encrypts => Derivation::Pbkdf2Sha256(ITERATIONS),
        None => return Err(misuse(Misuse::DerivationNeeded, "")),
    };
    let about = "--derive";
    check_derivation(derivation, encrypts, is_set(matches, "any-count")).map_err(|kind| Fault {
        kind,
        about,
    })?;
    Ok(derivation)
}

// ---- streams

/// What gives the key of `encrypt` or `decrypt`: a key, or a password with its derivation.
pub(super) fn secret_of<'a>(
    encrypts: bool,
    matches: &ArgMatches<'a>,
) -> Result<Secret<'a>, Fault<'a>> {
    if !names_one(matches, PASSWORD) {
        let is_for_password = is_given(matches, "derive")
            || is_set(matches, "any-count")
            || is_set(matches, "no-salt");
        refuse(is_for_password, Misuse::PasswordNeeded)?;
        return Ok(Secret::Key(one_of(matches, KEY, Misuse::KeyOrPasswordSource)?));
    }
    refuse(names_one(matches, KEY), Misuse::PasswordSource)?;
    let source = password_of(matches)?;
    let password = Password {
        derivation: asked_derivation(encrypts, matches)?,
        is_salted: !is_set(matches, "no-salt"),
    };
    Ok(Secret::Password(source, password))
}

// ---- private keys

fn form_of(word: Option<&str>) -> KeyForm {
    match word {
        Some("pem") => KeyForm::Pem,
        Some(_) => KeyForm::Der,
        None => KeyForm::AsRead,
    }
}

/// What the arguments of `decrypt-pem` ask for.
pub fn private_key_request<'a>(
    matches: &ArgMatches<'a>,
) -> Result<PrivateKeyRequest<'a>, Fault<'a>> {
    let password = password_of(matches)?;
    let input = input_at(matches, "in");
    read_once(password, input)?;
    Ok(PrivateKeyRequest {
        password,
        input,
        output: output_of(text_of(matches, "out")),
        form: form_of(text_of(matches, "form")),
        most_iterations: if is_set(matches, "any-count") {
            u32::MAX
        } else {
            MAX_ITERATIONS
        },
    })
}
