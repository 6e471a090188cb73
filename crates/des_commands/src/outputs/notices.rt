//! Notices: lines in the form of faults that a stream writes to standard error and goes on.

ghost use Rattle.std.specs.Prelude.{◌≡◌, ◌<◌, ℕ, List, OnOk, IsTrue, ◌↔◌, ◌^◌, length};
ghost use Rattle.des_lines.specs.Keys.{IsKeySize};
ghost use Rattle.des_lines.specs.Faults.{line_with};
ghost use Rattle.des_commands.specs.Notices.{notice_line, ruling_of as ruling_by, blocks_of as blocks_by, IsAccepted};
ghost use Rattle.des_lines.specs.Written.{AppendsPrefix};
ghost use Rattle.std.specs.Io.KnownBytes.{Appends};

use des_io::{Padding, StreamError};
use des_lines::fault::FaultKind;
use des_lines::keys::{Verdict, verdict_of};
use des_lines::report::write_line;
use des_requests::streams::{StreamRequest, WeakKeys};
use std::io::Write;

/// A notice; the stream goes on.
#[derive(Clone, Copy)]
pub enum Notice {
    /// The input is only hexadecimal digits, and is not decoded.
    Hexadecimal,
    /// The input is only Base64, and is not decoded.
    Base64,
    /// A weak key is used.
    WeakKey,
    /// A key of three parts is one of two, K1, K2, K1.
    DoubleLength,
    /// More blocks are encrypted under one key than NIST SP 800-67 Rev. 2, 3.4, allows.
    Limit,
    /// A file is replaced to which others had rights.
    Permissions,
}

// The blocks that NIST SP 800-67 Rev. 2, 3.4, allows under one key of three parts.
const BLOCKS_UNDER_ONE_KEY: u64 = 1048576;

// The name of a notice, and the words of its line.
fn words_of(notice: Notice) -> (&'static str, &'static str)
    ensures { (about : List ℕ)
        → notice_line notice about ≡ line_with result.0.now about result.1.now }
{
    match notice {
        Notice::Hexadecimal => (
            "Hexadecimal",
            "the input is hexadecimal digits, which --hex decodes",
        ),
        Notice::Base64 => (
            "Base64",
            "the input is a text in Base64, and was taken as it is: --base64 decodes it",
        ),
        Notice::WeakKey => ("WeakKey", "the key is weak, and is used"),
        Notice::DoubleLength => (
            "DoubleLength",
            "the first and third parts of the key are one: this is des-ede with the first two",
        ),
        Notice::Limit => (
            "Limit",
            "more than 2^20 blocks (8 MiB, of CFB-8 1 MiB) are encrypted under one key (NIST SP 800-67)",
        ),
        Notice::Permissions => (
            "Permissions",
            "the new file is yours alone: others had rights to the old one",
        ),
    }
}

/// Writes the line of a notice. `about` is the file or option that it is about, or is empty.
pub fn tell<E: Write>(notice: Notice, about: &str, err: &mut E) -> Result<(), StreamError>
    ensures part { AppendsPrefix (E.contents err.old) (E.contents err.new)
        (notice_line notice about.now) }
    ensures whole { OnOk result (Appends (E.contents err.old) (E.contents err.new)
        (notice_line notice about.now)) }
{
    let (name, words) = words_of(notice);
    write_line(name, about, words, err)
}

/// What follows from a key's verdict: the fault `WeakKey`, a notice, or nothing. `Refuse` refuses a
/// weak key, `Warn` uses it with a notice, `Accept` says nothing of any key. A key K1, K2, K1 is
/// never refused; encryption tells of it.
pub fn ruling_of(
    weak_keys: WeakKeys,
    encrypts: bool,
    verdict: Verdict,
) -> Result<Option<Notice>, FaultKind>
    ensures { result ≡ ruling_by weak_keys encrypts verdict }
{
    match (weak_keys, verdict) {
        (_, Verdict::Good) | (WeakKeys::Accept, _) => Ok(None),
        (_, Verdict::DoubleLength) if encrypts => Ok(Some(Notice::DoubleLength)),
        (_, Verdict::DoubleLength) => Ok(None),
        (WeakKeys::Refuse, Verdict::Weak) => Err(FaultKind::WeakKey),
        (WeakKeys::Warn, Verdict::Weak) => Ok(Some(Notice::WeakKey)),
    }
}

/// Refuses a key of 8, 16 or 24 bytes, or writes the line of the notice that it needs. A line that
/// can't be written is no fault. `about` is where the key was read, as `--key-env`.
pub fn accept_key<E: Write>(
    request: &StreamRequest,
    key: &[u8],
    about: &str,
    err: &mut E,
) -> Result<(), FaultKind>
    requires { IsKeySize (length key.now) }
    ensures { IsAccepted request.now.weak_keys request.now.encrypts key.now about.now result
        (E.contents err.old) (E.contents err.new) }
{
    if let Some(notice) = ruling_of(request.weak_keys, request.encrypts, verdict_of(key))? {
        let _ = tell(notice, about, err);
    }
    Ok(())
}

/// Whether this number of bytes is more blocks than `BLOCKS_UNDER_ONE_KEY` with its padding.
pub fn is_past_limit(padding: Padding, bytes: u64) -> bool
    ensures { IsTrue result ↔ (2 ^ 20 < blocks_by padding bytes) }
{
    let blocks = match padding {
        Padding::Unpadded => bytes / 8,
        Padding::Zeros => bytes.div_ceil(8),
        Padding::Pkcs7 | Padding::Iso7816 => bytes / 8 + 1,
    };
    blocks > BLOCKS_UNDER_ONE_KEY
}
