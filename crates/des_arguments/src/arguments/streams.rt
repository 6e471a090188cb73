//! What the arguments of `encrypt` and `decrypt` ask for.

ghost use Rattle.std.specs.Prelude.{◌≡◌, ◌≢◌, codes, IfSome, IfNone, IfOk, IfErr};
ghost use Rattle.des_io.specs.declared.padding.Padding.{Padding as PaddingOf};
ghost use Rattle.des_requests.specs.declared.streams.Cipher.{Cipher as CipherOf};
ghost use Rattle.des_requests.specs.declared.streams.CipherMode.{CipherMode as CipherModeOf};
ghost use Rattle.des_requests.specs.declared.streams.WeakKeys.{WeakKeys as WeakKeysOf};
ghost use Rattle.des_lines.specs.declared.fault.FaultKind.TheVariants.{Usage};
ghost use Rattle.des_lines.specs.declared.fault.Misuse.TheVariants.{Arguments};
ghost use Rattle.des_arguments.specs.StreamArguments.{cipher_name, padding_word, weak_keys_word, default_weak_keys, text_or, part_for};
ghost use Rattle.des_arguments.specs.StreamArguments.{IsVector, FailsAsVector, IsVectorFor, FailsAsVectorFor};
ghost use Rattle.des_arguments.specs.StreamArguments.{IsRequest, FailsAsRequest};

use super::argument_values::{is_set, number_of, place_of, text_of};
use super::misuse::misuse;
use super::passwords::secret_of;
use super::sources::{output_of, read_once};
use clap::ArgMatches;
use des_io::Padding;
use des_lines::digits::bytes_of;
use des_lines::fault::{Fault, FaultKind, Misuse};
use des_requests::sources::input_of;
use des_requests::streams::{
    BlockRange, Cipher, CipherMode, Coding, Secret, StreamMode, StreamRequest, Vector, WeakKeys,
};

/// The arguments of a command line that asks for a stream, as they were typed.
#[derive(Clone, Copy)]
pub struct StreamArguments<'a> {
    pub encrypts: bool,
    pub cipher: &'a str,
    pub iv: Option<&'a str>,
    pub padding: Option<&'a str>,
    pub weak_keys: Option<&'a str>,
    pub from: Option<u64>,
    pub count: Option<u64>,
    pub secret: Secret<'a>,
    pub coding: Coding,
    pub input: Option<&'a str>,
    pub output: Option<&'a str>,
    pub shows_progress: bool,
}

/// The cipher and the mode of a name.
pub fn cipher_of(name: &str) -> Option<(Cipher, CipherMode)>
    ensures named { IfSome result (λ cipher. name.now ≡ cipher_name cipher.0 cipher.1) }
    ensures none { IfNone result ((cipher : CipherOf) (mode : CipherModeOf)
        → name.now ≢ cipher_name cipher mode) }
{
    match name {
        "des-ecb" => Some((Cipher::Des, CipherMode::Ecb)),
        "des-cbc" => Some((Cipher::Des, CipherMode::Cbc)),
        "des-cfb" => Some((Cipher::Des, CipherMode::Stream(StreamMode::Cfb))),
        "des-cfb8" => Some((Cipher::Des, CipherMode::Stream(StreamMode::Cfb8))),
        "des-ofb" => Some((Cipher::Des, CipherMode::Stream(StreamMode::Ofb))),
        "des-ctr" => Some((Cipher::Des, CipherMode::Stream(StreamMode::Ctr))),
        "des-ede-ecb" => Some((Cipher::TdesEde2, CipherMode::Ecb)),
        "des-ede-cbc" => Some((Cipher::TdesEde2, CipherMode::Cbc)),
        "des-ede-cfb" => Some((Cipher::TdesEde2, CipherMode::Stream(StreamMode::Cfb))),
        "des-ede-cfb8" => Some((Cipher::TdesEde2, CipherMode::Stream(StreamMode::Cfb8))),
        "des-ede-ofb" => Some((Cipher::TdesEde2, CipherMode::Stream(StreamMode::Ofb))),
        "des-ede-ctr" => Some((Cipher::TdesEde2, CipherMode::Stream(StreamMode::Ctr))),
        "des-ede3-ecb" => Some((Cipher::TdesEde3, CipherMode::Ecb)),
        "des-ede3-cbc" => Some((Cipher::TdesEde3, CipherMode::Cbc)),
        "des-ede3-cfb" => Some((Cipher::TdesEde3, CipherMode::Stream(StreamMode::Cfb))),
        "des-ede3-cfb8" => Some((Cipher::TdesEde3, CipherMode::Stream(StreamMode::Cfb8))),
        "des-ede3-ofb" => Some((Cipher::TdesEde3, CipherMode::Stream(StreamMode::Ofb))),
        "des-ede3-ctr" => Some((Cipher::TdesEde3, CipherMode::Stream(StreamMode::Ctr))),
        _ => None,
    }
}

/// The padding of a word; PKCS#7 if none is given.
pub fn padding_of(word: Option<&str>) -> Option<Padding>
    ensures named { IfSome result (λ padding.
        padding_word padding ≡ text_or word.entry (codes "pkcs7")) }
    ensures none { IfNone result ((padding : PaddingOf)
        → padding_word padding ≢ text_or word.entry (codes "pkcs7")) }
{
    match word.unwrap_or("pkcs7") {
        "pkcs7" => Some(Padding::Pkcs7),
        "iso7816" => Some(Padding::Iso7816),
        "zeros" => Some(Padding::Zeros),
        "none" => Some(Padding::Unpadded),
        _ => None,
    }
}

/// What is done with a weak key: what a word says, or without one it is refused to encrypt, and
/// used with a line that says so to decrypt.
pub fn weak_keys_of(word: Option<&str>, encrypts: bool) -> Option<WeakKeys>
    ensures named { IfSome result (λ choice.
        weak_keys_word choice ≡ text_or word.entry (weak_keys_word (default_weak_keys encrypts))) }
    ensures none { IfNone result ((choice : WeakKeysOf)
        → weak_keys_word choice
        ≢ text_or word.entry (weak_keys_word (default_weak_keys encrypts))) }
{
    let other = if encrypts { "refuse" } else { "warn" };
    match word.unwrap_or(other) {
        "refuse" => Some(WeakKeys::Refuse),
        "warn" => Some(WeakKeys::Warn),
        "accept" => Some(WeakKeys::Accept),
        _ => None,
    }
}

// The vector of a text, in the direction that its word is for. The fault is `Vector` if the text is
// neither a word nor 16 hexadecimal digits.
fn vector_of(text: &str, encrypts: bool) -> Result<Vector, FaultKind>
    ensures vector { IfOk result (IsVector text.now encrypts) }
    ensures fault { IfErr result (FailsAsVector text.now encrypts) }
{
    match (text, encrypts) {
        ("random", true) => Ok(Vector::Random),
        ("random", false) => Err(FaultKind::Usage(Misuse::RandomToDecrypt)),
        ("first-block", false) => Ok(Vector::FirstBlock),
        ("first-block", true) => Err(FaultKind::Usage(Misuse::FirstBlockToEncrypt)),
        _ => {
            let iv = bytes_of::<8>(text.as_bytes(), FaultKind::Vector, FaultKind::Vector)?;
            Ok(Vector::Bytes(iv))
        }
    }
}

// The vector, if the mode takes one. By a key, it is that of `--iv`; by a password, that gives one
// too.
fn asked_vector(
    arguments: &StreamArguments,
    takes_vector: bool,
) -> Result<Option<Vector>, FaultKind>
    ensures vector { IfOk result
        (IsVectorFor arguments.now.iv arguments.now.secret takes_vector arguments.now.encrypts) }
    ensures fault { IfErr result
        (FailsAsVectorFor arguments.now.iv arguments.now.secret takes_vector arguments.now.encrypts) }
{
    match (arguments.secret, arguments.iv, takes_vector) {
        (Secret::Password(_, _), Some(_), _) => Err(FaultKind::Usage(Misuse::VectorOfPassword)),
        (Secret::Password(_, _), None, true) => Ok(Some(Vector::OfPassword)),
        (Secret::Key(_), Some(text), true) => Ok(Some(vector_of(text, arguments.encrypts)?)),
        (Secret::Key(_), Some(_), false) => Err(FaultKind::Usage(Misuse::VectorOfEcb)),
        (Secret::Key(_), None, true) => Err(FaultKind::Usage(Misuse::VectorNeeded)),
        (_, None, false) => Ok(None),
    }
}

/// The part that `--from` and `--blocks` give, none if neither is given. The fault is
/// `PartToEncrypt`.
pub fn part_of(
    from: Option<u64>,
    count: Option<u64>,
    encrypts: bool,
) -> Result<Option<BlockRange>, FaultKind>
    ensures { result ≡ part_for encrypts from count }
{
    match (from, count) {
        (None, None) => Ok(None),
        _ if encrypts => Err(FaultKind::Usage(Misuse::PartToEncrypt)),
        (Some(from), count) => Ok(Some(BlockRange { from, count })),
        (None, count) => Ok(Some(BlockRange { from: 0, count })),
    }
}

// A fault of the arguments. Only `Vector` is about `--iv`: the sentences of the others name the
// option.
fn fault_of<'a>(kind: FaultKind) -> Fault<'a>
    ensures { result.kind ≡ kind }
{
    match kind {
        FaultKind::Vector => Fault {
            kind,
            about: "--iv",
        },
        _ => Fault { kind, about: "" },
    }
}

/// What the arguments ask for. The fault is `Usage` if they don't go together, and `Vector`.
pub fn request_of<'a>(arguments: &StreamArguments<'a>) -> Result<StreamRequest<'a>, Fault<'a>>
    ensures asked { IfOk result (IsRequest arguments.now) }
    ensures fault { IfErr result (λ fault. FailsAsRequest arguments.now fault.kind) }
{
    let Some((cipher, mode)) = cipher_of(arguments.cipher) else {
        return Err(misuse(Misuse::Arguments, "CIPHER"));
    };
    let Some(padding) = padding_of(arguments.padding) else {
        return Err(misuse(Misuse::Arguments, "--padding"));
    };
    if mode.is_stream() && arguments.padding.is_some() {
        return Err(misuse(Misuse::PaddingOfStream, ""));
    }
    let Some(weak_keys) = weak_keys_of(arguments.weak_keys, arguments.encrypts) else {
        return Err(misuse(Misuse::Arguments, "--weak-keys"));
    };
    let part = part_of(arguments.from, arguments.count, arguments.encrypts).map_err(|kind| fault_of(
        kind,
    ))?;
    if !mode.takes_part() && part.is_some() {
        return Err(misuse(Misuse::PartOfOfb, ""));
    }
    let vector = asked_vector(arguments, mode.takes_vector()).map_err(|kind| fault_of(kind))?;
    let input = input_of(arguments.input);
    read_once(arguments.secret.source(), input)?;
    Ok(StreamRequest {
        encrypts: arguments.encrypts,
        cipher,
        mode,
        vector,
        padding,
        part,
        weak_keys,
        secret: arguments.secret,
        coding: arguments.coding,
        input,
        output: output_of(arguments.output),
        shows_progress: arguments.shows_progress,
    })
}

// How the bytes are written.
fn coding_of<'a>(is_base64: bool, is_hexadecimal: bool) -> Result<Coding, Fault<'a>> {
    match (is_base64, is_hexadecimal) {
        (true, true) => Err(misuse(Misuse::Codings, "")),
        (true, false) => Ok(Coding::Base64),
        (false, true) => Ok(Coding::Hexadecimal),
        (false, false) => Ok(Coding::Bytes),
    }
}

/// What the arguments of `encrypt` or `decrypt` ask for; a fault if they don't go together.
pub fn stream_request<'a>(
    encrypts: bool,
    matches: &ArgMatches<'a>,
) -> Result<StreamRequest<'a>, Fault<'a>>
    ensures direction { IfOk result (λ request. request.encrypts ≡ encrypts) }
{
    request_of(&StreamArguments {
        encrypts,
        cipher: place_of(matches, "cipher"),
        iv: text_of(matches, "iv"),
        padding: text_of(matches, "padding"),
        weak_keys: text_of(matches, "weak-keys"),
        from: number_of(matches, "from"),
        count: number_of(matches, "blocks"),
        secret: secret_of(encrypts, matches)?,
        coding: coding_of(is_set(matches, "base64"), is_set(matches, "hex"))?,
        input: text_of(matches, "in"),
        output: text_of(matches, "out"),
        shows_progress: is_set(matches, "progress"),
    })
}
