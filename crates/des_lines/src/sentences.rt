//! The words of each fault: its name, and what is said of it. No clause promises a wording: runs of
//! the program compare each that a command line reaches.

ghost use Rattle.std.specs.Prelude.{ℕ, List, ⊤};
ghost use Rattle.des_lines.specs.declared.fault.FaultKind.{FaultKind};

use crate::fault::{FaultKind, Field, FileFault, Misuse, Reason};
use des_key_blocks::key_block_error::KeyBlockError;
use des_payment::emv_error::EmvError;
use des_payment::{CvvError, PinError, TranslationError, VerificationError};

/// The words of a fault.
#[derive(Clone, Copy)]
pub struct Words {
    /// The name, under which the documents list the fault.
    pub name: &'static str,
    pub sentence: &'static str,
}

/// The words of faults. What writes the line of a fault takes this as a type parameter, and is
/// proved for any. So the words depend on the kind of the fault alone, and the line has besides
/// them only what the fault is about: nothing else that the caller knows, as a key or a PIN.
pub trait Sentences {
    /// Which name and which sentence a fault may have.
    ghost says: { FaultKind → List ℕ → List ℕ → Type 0 };

    fn words(kind: FaultKind) -> Words
        ensures { says kind result.name.now result.sentence.now };
}

/// The sentences of this program.
pub struct English;

impl Sentences for English {
    ghost says = { λ _ _ _. ⊤ };

    fn words(kind: FaultKind) -> Words {
        Words {
            name: kind.name(),
            sentence: sentence_of(kind),
        }
    }
}

fn sentence_of(kind: FaultKind) -> &'static str {
    match kind {
        FaultKind::Usage(misuse) => misuse_words(misuse),
        FaultKind::Source(reason) | FaultKind::Read(reason) | FaultKind::Write(reason) =>
            reason_words(reason),
        FaultKind::Variable =>
            "no such environment variable is exported, or its value is not valid UTF-8",
        FaultKind::InputLength => "the input is too long",
        FaultKind::InputLines => "there are several lines, and one value is needed",
        FaultKind::KeyLength(size) => key_words(size),
        FaultKind::ToKeyLength => key_words(None),
        FaultKind::KeyText | FaultKind::ToKeyText => {
            "the key has a character that is not a hexadecimal digit"
        }
        FaultKind::WeakKey => {
            "the key is weak, or has equal parts (see --weak-keys of encrypt and decrypt)"
        }
        FaultKind::Components => "a key has two components at least",
        FaultKind::Vector =>
            "random (to encrypt), first-block (to decrypt) or 16 hexadecimal digits are needed",
        FaultKind::Validation | FaultKind::Cryptogram => "16 hexadecimal digits are needed",
        FaultKind::Tag => "8, 10, 12, 14 or 16 hexadecimal digits are needed",
        FaultKind::Value => "4 digits are needed",
        FaultKind::Offset => "4 to 12 digits are needed",
        FaultKind::Counter => "4 hexadecimal digits are needed",
        FaultKind::ResponseCode =>
            "4 hexadecimal digits are needed, two for each character: 3030 for the code 00",
        FaultKind::CardStatus => "8 hexadecimal digits are needed",
        FaultKind::IssuerData => "at most 16 hexadecimal digits are needed, two for each byte",
        FaultKind::CryptogramData => "hexadecimal digits are needed, two for each byte",
        FaultKind::BlockLength => "a block of 16 hexadecimal digits is needed",
        FaultKind::BlockText => "the block has a character that is not a hexadecimal digit",
        FaultKind::SerialLength =>
            "20 hexadecimal digits are needed, without blanks or 0x: put FFFF before a key serial number of 16",
        FaultKind::SerialText =>
            "the key serial number has a character that is not a hexadecimal digit",
        FaultKind::SerialCounter =>
            "the key serial number's counter is 0, or has more than ten one bits",
        FaultKind::FillLength => "ten digits are needed",
        FaultKind::FillText => "a character is not a hexadecimal digit",
        FaultKind::CheckDigit =>
            "the account number's last digit is not its check digit, which the 12 digits of an HSM command lack",
        FaultKind::Pin(error) => pin_words(error),
        FaultKind::Cvv(error) => cvv_words(error),
        FaultKind::Translation(error) => translation_words(error),
        FaultKind::Verification(error) => verification_words(error),
        FaultKind::Emv(error) => emv_words(error),
        FaultKind::Field(Field::Usage | Field::KeyVersion) => "two letters or digits are needed",
        FaultKind::Field(_) => "a letter or digit is needed",
        FaultKind::KeyBlock(error) => key_block_words(error),
        FaultKind::File(fault) => file_words(fault),
        FaultKind::EmptyPassword => "the password is empty",
        FaultKind::Memory => "a request for memory was refused",
        FaultKind::Length => "the input ends within a block of 8 bytes",
        FaultKind::Start => "the input ends within the vector or before the part begins",
        FaultKind::Padding => "wrong key, vector or padding",
    }
}

// What is said of what can't be read or written.
fn reason_words(reason: Reason) -> &'static str {
    match reason {
        Reason::NotFound => "there is no such file, folder or descriptor",
        Reason::Permission => "permission denied",
        Reason::IsFolder => "it is a folder",
        Reason::NotFolder => "a part of the path is not a folder",
        Reason::Loop => "its symbolic links form a loop",
        Reason::Name => "the file system does not allow this name",
        Reason::Exists => "the name is taken",
        Reason::Full => "no space is left",
        Reason::TooLarge => "the file would be too large",
        Reason::ReadOnly => "the file system is read-only",
        Reason::Closed => "its reader has closed it",
        Reason::IsInput => "it is the input too",
        Reason::IsSecret => "it is the file of the key or the password",
        Reason::Reopened => "it leads to a regular file: give the file's path",
        Reason::Changed => "it was made, replaced or removed meanwhile",
        Reason::Descriptor =>
            "it is a descriptor under another name, or of another process: give - or /dev/fd/N",
        Reason::Folder =>
            "no file can be made in its folder: to write a file that is there, give --out -, and redirect that",
        Reason::Busy =>
            "it is mounted or in use, so that nothing can replace it: give --out -, and redirect that",
        Reason::Other => "the system refused it",
    }
}

// What is said of a command line.
fn misuse_words(misuse: Misuse) -> &'static str {
    match misuse {
        Misuse::KeySource => "give one of --key-file, --key-fd and --key-env",
        Misuse::ToKeySource => "give one of --to-key-file, --to-key-fd and --to-key-env",
        Misuse::StandardInputTwice =>
            "only one of the files can be standard input: name the other, as by --in FILE",
        Misuse::VectorNeeded => "all modes but ECB need --iv",
        Misuse::VectorOfEcb => "ECB takes no --iv",
        Misuse::RandomToDecrypt => "random is for encryption; first-block reads what it wrote",
        Misuse::FirstBlockToEncrypt => "first-block is for decryption; random writes what it reads",
        Misuse::PartToEncrypt => "--from and --blocks are for decryption",
        Misuse::Terminal => "no bytes are written to a terminal, unless --out - asks for it",
        Misuse::PartOfOfb => "OFB decrypts no part by itself",
        Misuse::PaddingOfStream => "CFB, OFB and CTR take no --padding",
        Misuse::PaddingOfCmac => "CMAC takes no --padding",
        Misuse::PaddingNeeded => "CBC-MAC and retail MAC need --padding",
        Misuse::Account => "give one of --account and --account-file",
        Misuse::AccountOfFormat => "formats 1 and 2 have no account number",
        Misuse::Arguments => "unknown option or argument, or an abbreviated one (see --help)",
        Misuse::ArgumentValue => "its value is missing or unknown (see --help)",
        Misuse::Components => "give --part-file twice or more, or --count and one source of all",
        Misuse::Fill => "formats 0 and 2 take no --fill",
        Misuse::FillNeeded =>
            "formats 1 and 3 need --fill, ten hexadecimal digits, of format 3 a to f alone",
        Misuse::FillOfFormat1 => "from format 1 to 1 the digits stay: there is no --fill",
        Misuse::ToFormat1 => "only a block of format 1 becomes one of format 1",
        Misuse::LengthOfVerify => "the tag of --verify does not have the bytes that --length says",
        Misuse::Capitals => "the fields of a key block have capital letters and digits",
        Misuse::ResponseOfPin => "--response is for mac, data and data-variant",
        Misuse::Session => "give one of --counter and --cryptogram",
        Misuse::ProtectionKeySource =>
            "give one of --protection-key-file, --protection-key-fd and --protection-key-env",
        Misuse::PasswordSource =>
            "give one of --password-file, --password-fd and --password-env, and no key",
        Misuse::KeyOrPasswordSource =>
            "give one of --key-file, --key-fd, --key-env, --password-file, --password-fd and --password-env",
        Misuse::MysqlSource =>
            "give one of --des-key-file (the server's file of keys), --password-file, --password-fd and --password-env",
        Misuse::PasswordNeeded => "--derive, --any-count and --no-salt are for a password",
        Misuse::VectorOfPassword => "a password gives the vector too: leave out --iv",
        Misuse::Derivation =>
            "md5, sha1, sha256, pbkdf2-sha1:COUNT or pbkdf2-sha256:COUNT is needed",
        Misuse::DerivationNeeded =>
            "decryption needs --derive: md5 (OpenSSL before 1.1.0), sha256 (since then), pbkdf2-sha256:COUNT (-pbkdf2; COUNT is 10000 without -iter), sha1 or pbkdf2-sha1:COUNT",
        Misuse::DerivationToEncrypt => "encryption takes pbkdf2-sha256:COUNT alone",
        Misuse::Count => "more than 10000000 iterations need --any-count",
        Misuse::NoText => "an argument is not valid UTF-8: give such a file as <FILE",
        Misuse::Codings => "give one of --base64 and --hex",
    }
}

// What is said of a file under a password.
fn file_words(fault: FileFault) -> &'static str {
    match fault {
        FileFault::Salted =>
            "the input begins with Salted__: it is under a password, with a salt (see --password-file and --no-salt)",
        FileFault::SaltedText =>
            "the input begins as Base64 of Salted__: it is under a password, with a salt (see --password-file and --base64)",
        FileFault::NotSalted => "the input does not begin with Salted__ (see --no-salt)",
        FileFault::SaltCut => "the input ends within the salt",
        FileFault::Base64 => "it is not Base64",
        FileFault::HexText =>
            "a character is not a hexadecimal digit, or is white space inside a byte",
        FileFault::HexLength => "the number of hexadecimal digits is odd",
        FileFault::Begin =>
            "no line begins an encrypted private key (BEGIN PRIVATE KEY is not encrypted)",
        FileFault::End => "no END line matches the BEGIN line",
        FileFault::NotEncrypted => "the key is not encrypted",
        FileFault::NoDekInfo => "no DEK-Info follows Proc-Type",
        FileFault::Cipher => "the cipher is neither DES-EDE3-CBC nor, of DEK-Info, DES-CBC",
        FileFault::DekVector => "the vector of DEK-Info does not have 16 hexadecimal digits",
        FileFault::EmptyLine => "no empty line follows DEK-Info",
        FileFault::Structure =>
            "it is not the DER of an encrypted private key (take one out of PKCS #12 by openssl pkcs12 -legacy -nocerts)",
        FileFault::Algorithm => {
            "the algorithm is neither PBES2 nor one of DES or triple DES by PKCS #5 or PKCS #12"
        }
        FileFault::KeyDerivation => "the key is not derived by PBKDF2",
        FileFault::Iterations => "there are no iterations, or more than 10000000 (see --any-count)",
        FileFault::KeySize => "the key of the cipher does not have 24 bytes",
        FileFault::Prf => "PBKDF2 uses neither HMAC-SHA-1 nor HMAC-SHA-256",
        FileFault::Unpadded => "wrong password or --derive, or a damaged file",
        FileFault::KeyPadding | FileFault::Password => "wrong password",
    }
}

// What is said of a wrong number of digits: a key of `size` bytes is needed, or one of 8, 16 or 24.
fn key_words(size: Option<u8>) -> &'static str {
    match size {
        Some(8) => "a key of 16 hexadecimal digits is needed, and nothing else",
        Some(16) => "a key of 32 hexadecimal digits is needed, and nothing else",
        Some(24) => "a key of 48 hexadecimal digits is needed, and nothing else",
        _ => "a key of 16, 32 or 48 hexadecimal digits is needed, and nothing else",
    }
}

// A block decodes to such digits mostly under another account number.
const WRONG_FILL: &str =
    "the fill digits are not those of the format (of format 3 a to f), as under another account number";

// What is said of a PIN, an account number or a PIN block.
fn pin_words(error: PinError) -> &'static str {
    match error {
        PinError::Format => "the block is of another format, or still encrypted",
        PinError::PinLength => "a PIN has 4 to 12 digits",
        PinError::PinDigit => "the PIN has a character that is not a digit",
        PinError::AccountLength => "an account number of 8 to 19 digits is needed",
        PinError::AccountDigit => "the account number has a character that is not a digit",
        PinError::Fill => WRONG_FILL,
    }
}

// What is said of a card's data.
fn cvv_words(error: CvvError) -> &'static str {
    match error {
        CvvError::AccountLength => "an account number of 12 to 19 digits is needed",
        CvvError::AccountDigit => "the account number has a character that is not a digit",
        CvvError::ExpiryLength => "an expiry date has 4 digits",
        CvvError::ExpiryDigit => "the expiry date has a character that is not a digit",
        CvvError::ServiceLength => "a service code has 3 digits",
        CvvError::ServiceDigit => "the service code has a character that is not a digit",
    }
}

// What is said of a PIN block that is not translated. All that is wrong with the block has the same
// words.
fn translation_words(error: TranslationError) -> &'static str {
    match error {
        TranslationError::KeyLength => key_words(None),
        TranslationError::Formats => "there is no such translation",
        TranslationError::AccountLength => "an account number of 8 to 19 digits is needed",
        TranslationError::AccountDigit => "the account number has a character that is not a digit",
        TranslationError::Fill => WRONG_FILL,
        TranslationError::Block => "decrypted, the block is not a PIN block of its format",
    }
}

// What is said of the verification of a PIN.
fn verification_words(error: VerificationError) -> &'static str {
    match error {
        VerificationError::AccountLength => "an account number of 12 to 19 digits is needed",
        VerificationError::AccountDigit => "the account number has a character that is not a digit",
        VerificationError::KeyIndex => "an index from 1 to 6 is needed",
        VerificationError::KeyLength => key_words(None),
        VerificationError::PinLength => "a PIN has 4 to 12 digits",
        VerificationError::TableLength => "a decimalization table has 16 digits",
        VerificationError::TableDigit =>
            "the decimalization table has a character that is not a digit",
        VerificationError::TableVariety =>
            "the decimalization table has fewer than eight different digits",
        VerificationError::WrongPin => "wrong PIN",
    }
}

// What is said of a card's keys and cryptograms.
fn emv_words(error: EmvError) -> &'static str {
    match error {
        EmvError::AccountLength => "an account number of 8 to 19 digits is needed",
        EmvError::AccountDigit => "the account number has a character that is not a digit",
        EmvError::SequenceLength => "a sequence number has 2 digits",
        EmvError::SequenceDigit => "the sequence number has a character that is not a digit",
        EmvError::DataLength => "at most 16 hexadecimal digits are needed, two for each byte",
    }
}

// What is said of a key block.
fn key_block_words(error: KeyBlockError) -> &'static str {
    match error {
        KeyBlockError::ProtectionKeyLength => "a key of 32 or 48 hexadecimal digits is needed",
        KeyBlockError::Length =>
            "the block is not as long as its header says, or has more than 9999 characters: leave out line ends and what an HSM puts before it",
        KeyBlockError::Version => {
            "the block's version is not A, B or C: leave out what an HSM puts before it; D needs AES"
        }
        KeyBlockError::Header =>
            "characters 13 to 16 are not the number of optional blocks, 0, 1 or 2, and 0",
        KeyBlockError::OptionalBlock => "the optional blocks are not the standard's",
        KeyBlockError::DataLength => "the encrypted key and the MAC are too short or too long",
        KeyBlockError::Digit =>
            "the encrypted key or the MAC has a character that is none of 0 to 9 and A to F, in capitals",
        KeyBlockError::Mac =>
            "the MAC is wrong: the block was changed, or is under another protection key",
        KeyBlockError::KeyLength => "the block's key does not have 8, 16 or 24 bytes",
        KeyBlockError::PaddingLength => "the padding does not fill the block",
    }
}
