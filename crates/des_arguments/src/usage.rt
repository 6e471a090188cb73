//! What is shown of a command line that was not understood, or that asks for help. None of the
//! words that were typed is shown if it may be a key.

use crate::arguments::{known_name, names_of, parse, takes};
use clap::error::ErrorKind;
use des_lines::fault::{Fault, FaultKind, Misuse};
use des_lines::report::{send, show, tell};
use des_lines::sentences::English;
use std::alloc::AllocError;

const USAGE: u8 = 2;

// The columns of help.
const COLUMNS: usize = 80;

// ---- help

// Where what is said of an option or a command begins in its line of help, after two spaces; 0 in
// another line.
fn column_of(line: &[u8]) -> usize {
    let mut is_named = false;
    let mut is_space = false;
    let mut is_gap = false;
    for (at, byte) in line.iter().enumerate() {
        if *byte != b' ' {
            if is_gap {
                return at;
            }
            is_named = true;
        }
        is_gap = is_named && is_space && *byte == b' ' || is_gap && *byte == b' ';
        is_space = is_named && *byte == b' ';
    }
    0
}

// Adds a line of help. What is too long goes on below where its text begins.
fn add_line(text: &mut Vec<u8>, line: &[u8]) -> Result<(), AllocError> {
    if line.len() <= COLUMNS {
        text.extend_from_slice(line)?;
        return Ok(());
    }
    let (name, said) = line.split_at(column_of(line).min(line.len()));
    text.extend_from_slice(name)?;
    let mut column = name.len();
    for word in said.split(|byte| *byte == b' ') {
        if column > name.len() && column.saturating_add(word.len()) >= COLUMNS {
            text.push(b'\n')?;
            for _ in name {
                text.push(b' ')?;
            }
            column = name.len();
        } else if column > name.len() {
            text.push(b' ')?;
            column = column.saturating_add(1);
        }
        text.extend_from_slice(word)?;
        column = column.saturating_add(word.len());
    }
    Ok(())
}

// Help in lines of 80 columns.
fn wrapped(rt: &HostRuntime, help: &str) -> Result<Vec<u8>, AllocError> {
    let mut text = Vec::new(rt.alloc());
    for line in help.trim_end().as_bytes().split(|byte| *byte == b'\n') {
        add_line(&mut text, line)?;
        text.push(b'\n')?;
    }
    Ok(text)
}

// Help and the version go to standard output.
fn show_help(rt: &HostRuntime, help: &str) -> Result<u8, AllocError> {
    let text = wrapped(rt, help)?;
    Ok(show::<English, _, _>(&Ok(text), &mut rt.stdout(), &mut rt.stderr()))
}

// ---- faults

// The usage line of the command that the command line names: the end of clap's message on an
// unknown option, with nothing that was typed.
fn usage_of(rt: &HostRuntime, command_line: &[&str]) -> Result<String, AllocError> {
    let (name, second) = names_of(command_line);
    let wrong = "--?";
    let known = match (name, second) {
        ("", _) => ["cukvashe", wrong, wrong, wrong],
        (name, "") => ["cukvashe", name, wrong, wrong],
        (name, second) => ["cukvashe", name, second, wrong],
    };
    let Err(error) = parse(rt.alloc(), known.as_slice()) else {
        return Ok(String::new(rt.alloc()));
    };
    let text = format!(in rt.alloc(); "{error}")?;
    match text.as_str().rsplit_once("Usage: ") {
        Some((_, usage)) => format!(in rt.alloc(); "Usage: {usage}"),
        None => Ok(String::new(rt.alloc())),
    }
}

// Writes a text to standard error. A text that can't be written changes no status.
fn tell_text(rt: &HostRuntime, text: &str) {
    let _ = send(&mut rt.stderr(), text.as_bytes());
}

// What stands in a message after the last of one text, up to another.
fn between<'a>(message: &'a str, start: &str, end: &str) -> Option<&'a str> {
    let (_, rest) = message.rsplit_once(start)?;
    let (text, _) = rest.split_once(end)?;
    Some(text)
}

// What serves for the options by which OpenSSL takes a cipher.
const A_CIPHER: &str =
    "a cipher without a dash: des-ede3-cbc for -des3, des-ede3-ecb for -des-ede3";

// Names in other programs, and what to use here instead: of several, the first that is not an
// option or is one of the command's.
const OTHER_NAMES: &[(&str, &[&str])] = &[
    ("kcv", &["check-value"]),
    ("ipek", &["dukpt, which takes it by --initial-key"]),
    ("kbpk", &["key-block"]),
    ("tr-31", &["key-block"]),
    ("wrap", &["key-block wrap"]),
    ("unwrap", &["key-block unwrap"]),
    ("retail-mac", &["mac retail"]),
    ("enc", &["encrypt or decrypt"]),
    ("dec", &["decrypt"]),
    ("xor", &["combine"]),
    ("tr31", &["key-block"]),
    ("ksn", &["dukpt"]),
    ("bdk", &["dukpt"]),
    ("arqc", &["emv cryptogram"]),
    ("arpc", &["emv response-1 or emv response-2"]),
    ("pin-block", &["pin encode, pin decode or pin translate"]),
    ("version", &["--version"]),
    ("-v", &["--version"]),
    ("-K", KEY_NAMES),
    ("--key", KEY_NAMES),
    ("--key-file", KEY_NAMES),
    ("--kbpk", KEY_NAMES),
    ("--kbpk-file", KEY_NAMES),
    ("-k", PASSWORD_NAMES),
    ("-kfile", PASSWORD_NAMES),
    ("-pass", PASSWORD_NAMES),
    ("-passin", PASSWORD_NAMES),
    ("--pass", PASSWORD_NAMES),
    ("--password", PASSWORD_NAMES),
    ("-i", &["--in"]),
    ("-o", &["--out"]),
    ("--output", &["--out"]),
    ("-d", &["decrypt"]),
    ("-e", &["encrypt"]),
    ("-a", BASE64_NAMES),
    ("-A", BASE64_NAMES),
    ("-S", &["a salt in the input, behind Salted__"]),
    ("-md", DERIVATION_NAMES),
    ("-pbkdf2", DERIVATION_NAMES),
    ("--pbkdf2", DERIVATION_NAMES),
    ("-iter", DERIVATION_NAMES),
    ("--iter", DERIVATION_NAMES),
    ("-nosalt", &["--no-salt", "--no-salt of decrypt"]),
    ("-nopad", PADDING_NAMES),
    ("--nopad", PADDING_NAMES),
    ("--no-pad", PADDING_NAMES),
    ("--counter", &["--iv"]),
    ("--nonce", &["--iv"]),
    ("--pin", &["--pin-file, or standard input"]),
    ("--ksn", &["the key serial number without an option"]),
    ("--ipek", &["--initial-key and the file of the key"]),
    ("--pan", &["--account"]),
    ("--from-key", &["--key-file"]),
    ("--from-key-file", &["--key-file"]),
    ("--key-hex", KEY_NAMES),
    ("--iv-file", &["--iv with the digits"]),
    ("--format", &["--hex or --base64"]),
    ("--psn", &["--sequence"]),
    ("--atc", &["--counter"]),
    ("--arqc", &["--cryptogram"]),
    ("--arc", &["--code"]),
    ("--csu", &["--status"]),
    ("--pvki", &["--index"]),
];

const KEY_NAMES: &[&str] = &[
    "--protection-key-file",
    "--key-file",
    "encrypt or decrypt, which take a key",
];

const PASSWORD_NAMES: &[&str] = &["--password-file"];

const BASE64_NAMES: &[&str] = &["--base64", "base64, in a pipe"];

const DERIVATION_NAMES: &[&str] = &["--derive"];

const PADDING_NAMES: &[&str] = &["--padding none"];

// Whether a name can be suggested for a word: an option only if the command has it, and a command
// only if it is another one.
fn serves(command_line: &[&str], word: &str, name: &str) -> bool {
    match name.strip_prefix("--") {
        Some(option) if word.starts_with("-") => {
            let (option, _) = option.split_once(' ').unwrap_or((option, ""));
            let (option, _) = option.split_once(',').unwrap_or((option, ""));
            takes(command_line, option)
        }
        _ => {
            let (command, _) = names_of(command_line);
            name != command
        }
    }
}

// The first of some names that serves in the place of a word, if one does.
fn first_serving(names: &[&'static str], command_line: &[&str], word: &str) -> &'static str {
    for name in names {
        if serves(command_line, word, name) {
            return name;
        }
    }
    ""
}

// What serves in the place of a word that others take; nothing of another word.
fn other_name(command_line: &[&str], word: &str) -> &'static str {
    let Some(found) = OTHER_NAMES.iter().find(|name| name.0 == word) else {
        return "";
    };
    first_serving(found.1, command_line, word)
}

// The option with two dashes of a word with one, if the command has it.
fn with_two_dashes(command_line: &[&str], word: &str) -> &'static str {
    match word.strip_prefix("-") {
        Some(name) if takes(command_line, name) => known_name(name),
        _ => "",
    }
}

// The word of a command line that a message refuses: of short options in one, clap tells the first.
fn refused_in<'a>(message: &str, command_line: &[&'a str]) -> &'a str {
    let (_, rest) = message.split_once("'").unwrap_or(("", ""));
    let (told, _) = rest.split_once("'").unwrap_or(("", ""));
    for word in command_line {
        if told != "" && word.starts_with(told) {
            let (word, _) = word.split_once('=').unwrap_or((word, ""));
            return word;
        }
    }
    ""
}

// The last name that a message lists as a similar one, the best.
fn similar_in<'a>(message: &'a str) -> &'a str {
    let (_, rest) = message.rsplit_once(" exist").unwrap_or(("", ""));
    let (line, _) = rest.split_once('\n').unwrap_or((rest, ""));
    let (names, _) = line.rsplit_once("'").unwrap_or(("", ""));
    let (_, name) = names.rsplit_once("'").unwrap_or(("", ""));
    name
}

// What may have been meant by the word that a message refuses: a name that others use, an option
// with one dash, or the name that the message suggests. Nothing of it was typed, but what is a name
// here.
fn meant(rt: &HostRuntime, message: &str, command_line: &[&str]) -> Result<String, AllocError> {
    let word = refused_in(message, command_line);
    if word.starts_with("-des") {
        return format!(in rt.alloc(); "  did you mean {A_CIPHER}?\n");
    }
    let other = other_name(command_line, word);
    if other != "" {
        return format!(in rt.alloc(); "  did you mean {other}?\n");
    }
    let name = with_two_dashes(command_line, word);
    if name != "" {
        return format!(in rt.alloc(); "  did you mean --{name}?\n");
    }
    // A path without the option that takes one.
    if (word.contains('.') || word.contains('/')) && takes(command_line, "in") {
        return format!(in rt.alloc(); "  did you mean --in FILE?\n");
    }
    let similar = similar_in(message);
    let (dashes, word) = match similar.strip_prefix("--") {
        Some(name) => ("--", name),
        None => ("", similar),
    };
    match known_name(word) {
        "" => Ok(String::new(rt.alloc())),
        name => format!(in rt.alloc(); "  did you mean {dashes}{name}?\n"),
    }
}

// The message without what was typed.
fn tell_hidden(
    rt: &HostRuntime,
    kind: ErrorKind,
    message: &str,
    command_line: &[&str],
) -> Result<u8, AllocError> {
    let usage = usage_of(rt, command_line)?;
    let about = match kind {
        // What was typed stands before the option or the argument.
        ErrorKind::InvalidValue | ErrorKind::ValueValidation => between(message, " for '", "'"),
        _ => None,
    };
    let misuse = match about {
        Some(_) => Misuse::ArgumentValue,
        None => Misuse::Arguments,
    };
    let fault = Fault {
        kind: FaultKind::Usage(misuse),
        about: about.unwrap_or(""),
    };
    // The values that the argument takes, if it takes only some.
    let taken = between(message, "\n  [possible values: ", "]");
    let text = match (kind, taken) {
        (ErrorKind::InvalidValue, Some(taken)) => {
            format!(in rt.alloc(); "  [possible values: {taken}]\n\n{usage}")?
        }
        (ErrorKind::InvalidValue | ErrorKind::ValueValidation, _) => {
            format!(in rt.alloc(); "\n{usage}")?
        }
        _ => {
            let meant = meant(rt, message, command_line)?;
            format!(in rt.alloc(); "{meant}\n{usage}")?
        }
    };
    let status = tell::<English, _>(fault, &mut rt.stderr());
    tell_text(rt, text.as_str());
    Ok(status)
}

fn show_by_kind(
    rt: &HostRuntime,
    error: &clap::Error,
    command_line: &[&str],
) -> Result<u8, AllocError> {
    let text = format!(in rt.alloc(); "{error}")?;
    match error.kind() {
        ErrorKind::DisplayHelp | ErrorKind::DisplayVersion => show_help(rt, text.as_str()),
        // The help of a command that is given no arguments.
        ErrorKind::DisplayHelpOnMissingArgumentOrSubcommand => {
            let _ = send(&mut rt.stderr(), wrapped(rt, text.as_str())?.as_slice());
            Ok(USAGE)
        }
        ErrorKind::OutOfMemory => Err(AllocError),
        // These have no word of the command line but options' names.
        ErrorKind::ArgumentConflict
        | ErrorKind::MissingRequiredArgument
        | ErrorKind::MissingSubcommand => {
            let message = text
                .as_str()
                .strip_prefix("error: ")
                .unwrap_or(text.as_str());
            let whole = format!(in rt.alloc(); "cukvashe: Usage: {message}")?;
            tell_text(rt, whole.as_str());
            Ok(USAGE)
        }
        kind => tell_hidden(rt, kind, text.as_str(), command_line),
    }
}

/// Shows what a command line that was not parsed is told, and returns the status.
pub fn show_usage(rt: &HostRuntime, error: &clap::Error, command_line: &[&str]) -> u8 {
    match show_by_kind(rt, error, command_line) {
        Ok(status) => status,
        Err(error) => tell::<English, _>(Fault::from(error), &mut rt.stderr()),
    }
}
