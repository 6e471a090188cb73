//! Why a command fails: the fault's name, and the status that the program ends with.

ghost use Rattle.std.specs.Prelude.{◌≡◌};
ghost use Rattle.des_lines.specs.Faults.{about_of, status_of, IsOfStream};
ghost use Rattle.des_lines.specs.declared.fault.FaultKind.TheVariants.{Pin, Cvv, Translation, Verification, Emv, KeyBlock, WeakKey, Memory};

use des::WeakKeyError;
use des_io::StreamError;
use des_key_blocks::key_block_error::{self, KeyBlockError};
use des_payment::emv_error::{self, EmvError};
use des_payment::{
    CvvError, PinError, TranslationError, VerificationError, cvv_error, pin_error,
    translation_error, verification_error,
};
use std::alloc::{AllocError, AllocFailed};
use std::io::{self, ErrorKind};

/// Why a file, a pipe or a descriptor can't be read or written.
#[derive(Clone, Copy)]
pub enum Reason {
    NotFound,
    Permission,
    IsFolder,
    NotFolder,
    Loop,
    Name,
    Exists,
    Full,
    TooLarge,
    ReadOnly,
    Closed,
    IsInput,
    IsSecret,
    Reopened,
    Changed,
    Descriptor,
    Folder,
    Busy,
    Other,
}

/// What is wrong with a command line.
#[derive(Clone, Copy)]
pub enum Misuse {
    KeySource,
    ToKeySource,
    StandardInputTwice,
    VectorNeeded,
    VectorOfEcb,
    RandomToDecrypt,
    FirstBlockToEncrypt,
    PartToEncrypt,
    PartOfOfb,
    Terminal,
    PaddingOfStream,
    PaddingOfCmac,
    PaddingNeeded,
    Account,
    AccountOfFormat,
    Arguments,
    ArgumentValue,
    Components,
    Fill,
    FillNeeded,
    FillOfFormat1,
    ToFormat1,
    LengthOfVerify,
    Capitals,
    ResponseOfPin,
    Session,
    ProtectionKeySource,
    PasswordSource,
    KeyOrPasswordSource,
    MysqlSource,
    PasswordNeeded,
    VectorOfPassword,
    Derivation,
    DerivationNeeded,
    DerivationToEncrypt,
    Count,
    NoText,
    Codings,
}

/// A field of a key block's header, which an option gives.
#[derive(Clone, Copy)]
pub enum Field {
    Usage,
    Algorithm,
    Mode,
    KeyVersion,
    Exportability,
}

/// What is wrong with a file under a password. `sentences` says it of each.
#[derive(Clone, Copy, PartialEq, Eq)]
pub enum FileFault {
    Salted,
    /// The input is Base64 of what is `Salted`, and `--base64` is not given.
    SaltedText,
    NotSalted,
    SaltCut,
    Base64,
    HexText,
    HexLength,
    Begin,
    End,
    NotEncrypted,
    NoDekInfo,
    Cipher,
    DekVector,
    EmptyLine,
    Structure,
    Algorithm,
    KeyDerivation,
    Iterations,
    KeySize,
    Prf,
    /// A private key, decrypted, does not end with its padding.
    KeyPadding,
    /// What is decrypted is no DER of a private key.
    Password,
    /// What a password decrypts of a stream does not end with its padding.
    Unpadded,
}

/// What is at fault. Each has a name, under which the documents list it, and a sentence in
/// `sentences`. None has a place for a secret.
#[derive(Clone, Copy)]
pub enum FaultKind {
    /// The program takes no such command line.
    Usage(Misuse),
    /// The system's source of random bytes can't be read.
    Source(Reason),
    /// The environment has no such variable, or it is no text.
    Variable,
    InputLength,
    /// There are several lines where one is needed.
    InputLines,
    /// A key does not have the digits of this number of bytes, or of 8, 16 or 24.
    KeyLength(Option<u8>),
    KeyText,
    /// Of the key of an outgoing block.
    ToKeyLength,
    ToKeyText,
    WeakKey,
    Components,
    Vector,
    Tag,
    /// A PIN verification value.
    Value,
    Offset,
    Validation,
    /// A transaction counter.
    Counter,
    Cryptogram,
    ResponseCode,
    CardStatus,
    IssuerData,
    /// The data of a cryptogram.
    CryptogramData,
    /// Of a PIN block.
    BlockLength,
    BlockText,
    /// Of a key serial number.
    SerialLength,
    SerialText,
    /// No transaction has a key serial number with this counter.
    SerialCounter,
    /// Of transaction or fill digits.
    FillLength,
    FillText,
    CheckDigit,
    Pin(PinError),
    Cvv(CvvError),
    Translation(TranslationError),
    Verification(VerificationError),
    Emv(EmvError),
    /// A field of a key block's header is not its number of letters and digits.
    Field(Field),
    KeyBlock(KeyBlockError),
    File(FileFault),
    EmptyPassword,
    Memory,
    /// The input can't be read.
    Read(Reason),
    /// The output can't be written.
    Write(Reason),
    Length,
    /// The input has no block where decryption begins, or ends within the vector.
    Start,
    Padding,
}

/// What is at fault, and the file, option or command that it is about, which may be empty. It is
/// never a secret.
#[derive(Clone, Copy)]
pub struct Fault<'a> {
    pub kind: FaultKind,
    pub about: &'a str,
}

impl<'a> Fault<'a> {
    /// The fault of a kind, and the name that it is about. Refused memory is about nothing.
    pub fn about(kind: FaultKind, name: &'a str) -> Fault<'a>
        ensures kind { result.kind ≡ kind }
        ensures about { result.about.now ≡ about_of kind name.now }
    {
        Fault {
            kind,
            about: match kind {
                FaultKind::Memory => "",
                _ => name,
            },
        }
    }
}

impl Reason {
    /// The reason of an error of the system.
    pub fn of(error: &io::Error) -> Reason {
        match error.kind() {
            ErrorKind::NotFound => Reason::NotFound,
            ErrorKind::PermissionDenied => Reason::Permission,
            ErrorKind::IsADirectory => Reason::IsFolder,
            ErrorKind::NotADirectory => Reason::NotFolder,
            ErrorKind::FilesystemLoop => Reason::Loop,
            ErrorKind::InvalidFilename => Reason::Name,
            ErrorKind::AlreadyExists => Reason::Exists,
            ErrorKind::StorageFull | ErrorKind::QuotaExceeded => Reason::Full,
            ErrorKind::FileTooLarge => Reason::TooLarge,
            ErrorKind::ReadOnlyFilesystem => Reason::ReadOnly,
            ErrorKind::BrokenPipe | ErrorKind::WriteZero => Reason::Closed,
            _ => Reason::Other,
        }
    }
}

impl FileFault {
    fn name(self) -> &'static str {
        match self {
            FileFault::Salted | FileFault::SaltedText => "Salted",
            FileFault::NotSalted => "NotSalted",
            FileFault::SaltCut => "SaltCut",
            FileFault::Base64 => "Base64",
            FileFault::HexText => "HexText",
            FileFault::HexLength => "HexLength",
            FileFault::Begin => "Begin",
            FileFault::End => "End",
            FileFault::NotEncrypted => "NotEncrypted",
            FileFault::NoDekInfo => "NoDekInfo",
            FileFault::Cipher => "Cipher",
            FileFault::DekVector => "DekVector",
            FileFault::EmptyLine => "EmptyLine",
            FileFault::Structure => "Structure",
            FileFault::Algorithm => "Algorithm",
            FileFault::KeyDerivation => "KeyDerivation",
            FileFault::Iterations => "Iterations",
            FileFault::KeySize => "KeySize",
            FileFault::Prf => "Prf",
            FileFault::KeyPadding | FileFault::Unpadded => "Padding",
            FileFault::Password => "Password",
        }
    }
}

// The name of a fault of a key block: its lengths have names that no other length has.
fn key_block_name(error: KeyBlockError) -> &'static str {
    match error {
        KeyBlockError::Length => "KeyBlockLength",
        KeyBlockError::KeyLength => "WrappedKeyLength",
        error => key_block_error::name(error),
    }
}

impl FaultKind {
    /// The fault's name.
    pub fn name(self) -> &'static str {
        match self {
            FaultKind::Usage(_) => "Usage",
            FaultKind::Variable => "Variable",
            FaultKind::InputLength => "InputLength",
            FaultKind::InputLines => "InputLines",
            FaultKind::KeyLength(_) | FaultKind::ToKeyLength => "KeyLength",
            FaultKind::KeyText | FaultKind::ToKeyText => "KeyText",
            FaultKind::WeakKey => "WeakKey",
            FaultKind::Components => "Components",
            FaultKind::Vector => "Vector",
            FaultKind::Tag => "Tag",
            FaultKind::Value => "Value",
            FaultKind::Offset => "Offset",
            FaultKind::Validation => "Validation",
            FaultKind::Counter => "Counter",
            FaultKind::Cryptogram => "Cryptogram",
            FaultKind::ResponseCode => "Code",
            FaultKind::CardStatus => "Status",
            FaultKind::IssuerData => "Data",
            FaultKind::CryptogramData => "DataText",
            FaultKind::BlockLength => "BlockLength",
            FaultKind::BlockText => "BlockText",
            FaultKind::SerialLength => "SerialLength",
            FaultKind::SerialText => "SerialText",
            FaultKind::SerialCounter => "SerialCounter",
            FaultKind::FillLength => "FillLength",
            FaultKind::FillText => "FillText",
            FaultKind::CheckDigit => "CheckDigit",
            FaultKind::Pin(error) => pin_error::name(error),
            FaultKind::Cvv(error) => cvv_error::name(error),
            FaultKind::Translation(error) => translation_error::name(error),
            FaultKind::Verification(error) => verification_error::name(error),
            FaultKind::Emv(error) => emv_error::name(error),
            FaultKind::Field(_) => "Field",
            FaultKind::KeyBlock(error) => key_block_name(error),
            FaultKind::File(fault) => fault.name(),
            FaultKind::EmptyPassword => "EmptyPassword",
            FaultKind::Memory => "Memory",
            FaultKind::Read(_) | FaultKind::Source(_) => "Read",
            FaultKind::Write(_) => "Write",
            FaultKind::Length => "Length",
            FaultKind::Start => "Start",
            FaultKind::Padding => "Padding",
        }
    }

    /// The status that the program ends with: 2 if the arguments or the short inputs are at fault,
    /// 4 if a file can't be read or written, and 5 if the stream or the file under a password is.
    pub fn status(self) -> u8
        ensures { result ≡ status_of self }
    {
        match self {
            FaultKind::Memory => 3,
            FaultKind::Read(_) | FaultKind::Source(_) | FaultKind::Write(_) => 4,
            FaultKind::Length | FaultKind::Start | FaultKind::Padding | FaultKind::File(_) => 5,
            _ => 2,
        }
    }
}

impl From<StreamError> for FaultKind {
    ghost from_gives = { λ error kind. IsOfStream error kind };

    fn from(error: StreamError) -> FaultKind {
        match error {
            StreamError::Read(error) => FaultKind::Read(Reason::of(&error)),
            StreamError::Write(error) => FaultKind::Write(Reason::of(&error)),
            StreamError::Length(_) => FaultKind::Length,
            StreamError::Start => FaultKind::Start,
            StreamError::Padding => FaultKind::Padding,
        }
    }
}

impl From<PinError> for FaultKind {
    ghost from_gives = { λ error kind. kind ≡ Pin error };

    fn from(error: PinError) -> FaultKind {
        FaultKind::Pin(error)
    }
}

impl From<CvvError> for FaultKind {
    ghost from_gives = { λ error kind. kind ≡ Cvv error };

    fn from(error: CvvError) -> FaultKind {
        FaultKind::Cvv(error)
    }
}

impl From<TranslationError> for FaultKind {
    ghost from_gives = { λ error kind. kind ≡ Translation error };

    fn from(error: TranslationError) -> FaultKind {
        FaultKind::Translation(error)
    }
}

impl From<VerificationError> for FaultKind {
    ghost from_gives = { λ error kind. kind ≡ Verification error };

    fn from(error: VerificationError) -> FaultKind {
        FaultKind::Verification(error)
    }
}

impl From<EmvError> for FaultKind {
    ghost from_gives = { λ error kind. kind ≡ Emv error };

    fn from(error: EmvError) -> FaultKind {
        FaultKind::Emv(error)
    }
}

impl From<KeyBlockError> for FaultKind {
    ghost from_gives = { λ error kind. kind ≡ KeyBlock error };

    fn from(error: KeyBlockError) -> FaultKind {
        FaultKind::KeyBlock(error)
    }
}

impl From<WeakKeyError> for FaultKind {
    ghost from_gives = { λ _ kind. kind ≡ WeakKey };

    fn from(_refused: WeakKeyError) -> FaultKind {
        FaultKind::WeakKey
    }
}

impl From<AllocError> for FaultKind {
    ghost from_gives = { λ _ kind. kind ≡ Memory };

    fn from(_refused: AllocError) -> FaultKind {
        FaultKind::Memory
    }
}

impl<'a> From<AllocError> for Fault<'a> {
    ghost from_gives = { λ _ fault. fault.kind ≡ Memory };

    fn from(_refused: AllocError) -> Fault<'a> {
        Fault::about(FaultKind::Memory, "")
    }
}

impl<T: Drop> From<AllocFailed<T>> for FaultKind {
    ghost from_gives = { λ _ kind. kind ≡ Memory };

    fn from(_refused: AllocFailed<T>) -> FaultKind {
        FaultKind::Memory
    }
}
