//! The header of a key block (ANSI X9.143, ASC X9 TR-31): what its key is for, and who may have it.

ghost use Rattle.std.specs.Prelude.{◌≡◌, ℕ, ◌<◌, ◌≤◌, [], ◌∷◌, ◌++◌, length, take, slice_index, is_some, IsTrue, IfOk, IfSome, IfNone, IsOkAnd};
ghost use Rattle.std.specs.Result.{result_err};
ghost use Rattle.des_key_blocks.specs.KeyBlockHeaders.{version_text, usage_text, algorithm_text, mode_text, exportability_text};
ghost use Rattle.des_key_blocks.specs.KeyBlockHeaders.{is_named_usage, is_named_algorithm, is_named_mode, is_named_rule, IsHeader, IsNamed, decimal_at};
ghost use Rattle.des_key_blocks.specs.declared.key_block_header.KeyContext.TheVariants.{StorageOrExchange};
ghost use Rattle.des_key_blocks.specs.KeyBlockHeaders.{context_text, fields_text, header_text as header_text_of};
ghost use Rattle.des_key_blocks.specs.KeyBlockHeaders.{are_alphanumeric as are_alphanumeric_of, is_written as is_written_of};
ghost use Rattle.des_key_blocks.specs.KeyBlockHeaders.{says_length as says_length_of, has_ending, header_fault};

use crate::key_block_error::KeyBlockError;

/// The most characters of a key block: its length has four digits.
pub const MAX_CHARACTERS: usize = 9999;

/// The version of a key block: how it is encrypted and authenticated.
#[derive(Clone, Copy, Debug, PartialEq, Eq)]
pub enum Version {
    /// Keys are variants of the protection key, and the MAC is that of the encrypted key. It is
    /// deprecated, and read alone.
    A,
    /// Keys are derived from the protection key, and the MAC is that of the key in clear.
    B,
    /// As version A.
    C,
}

/// What the key of a block is for.
#[derive(Clone, Copy, Debug, PartialEq, Eq)]
pub enum Usage {
    /// A base derivation key of DUKPT (`B0`).
    BaseDerivation,
    /// An initial key of DUKPT (`B1`).
    InitialDukpt,
    /// A key for card verification values (`C0`).
    CardVerification,
    /// A key for data (`D0`).
    Data,
    /// An issuer's key for application cryptograms (`E0`).
    ApplicationCryptograms,
    /// An issuer's key for confidential messages to cards (`E1`).
    CardConfidentiality,
    /// An issuer's key for the integrity of messages to cards (`E2`).
    CardIntegrity,
    /// A key that encrypts keys (`K0`).
    KeyEncryption,
    /// A key that protects key blocks (`K1`).
    KeyProtection,
    /// A key for MACs by algorithm 1 of ISO/IEC 9797-1 (`M1`).
    MacAlgorithm1,
    /// A key for MACs by algorithm 3 of ISO/IEC 9797-1, the retail MAC (`M3`).
    MacAlgorithm3,
    /// A key for CMACs (`M6`).
    Cmac,
    /// A key that encrypts PIN blocks (`P0`).
    PinEncryption,
    /// A key that verifies PINs, of another method (`V0`).
    PinVerification,
    /// A key that verifies PINs by IBM 3624 (`V1`).
    Ibm3624,
    /// A key that verifies PINs by PVV (`V2`).
    Pvv,
    /// Another usage, by its two characters.
    OtherUsage([u8; 2]),
}

/// The algorithm that the key of a block is for.
#[derive(Clone, Copy, Debug, PartialEq, Eq)]
pub enum Algorithm {
    /// DES (`D`).
    Des,
    /// Triple DES (`T`).
    TripleDes,
    /// Another algorithm, by its character.
    OtherAlgorithm(u8),
}

/// What may be done with the key of a block.
#[derive(Clone, Copy, Debug, PartialEq, Eq)]
pub enum ModeOfUse {
    /// Both encrypt and decrypt (`B`).
    EncryptAndDecrypt,
    /// Both generate and verify (`C`).
    GenerateAndVerify,
    /// Decrypt only (`D`).
    Decrypt,
    /// Encrypt only (`E`).
    Encrypt,
    /// Generate only (`G`).
    Generate,
    /// No restriction but those of the usage (`N`).
    NoRestriction,
    /// Verify only (`V`).
    Verify,
    /// Derive other keys (`X`).
    Derive,
    /// Another mode of use, by its character.
    OtherMode(u8),
}

/// Who may have the key of a block.
#[derive(Clone, Copy, Debug, PartialEq, Eq)]
pub enum Exportability {
    /// Under a trusted key (`E`).
    Exportable,
    /// Not at all (`N`).
    NonExportable,
    /// Also in other forms (`S`).
    Sensitive,
    /// Another rule, by its character.
    OtherRule(u8),
}

/// Where the key of a block may be (X9.143:2021): character 15 of the header.
#[derive(Clone, Copy, Debug, PartialEq, Eq)]
pub enum KeyContext {
    /// In storage and in exchange (`0`).
    StorageOrExchange,
    /// In storage only (`1`).
    Storage,
    /// In exchange only (`2`).
    Exchange,
}

/// The fields of a header, without the length of the block and the number of optional blocks, which
/// follow from the rest, and without the key's context, which `key_context` reads.
#[derive(Clone, Copy, Debug, PartialEq, Eq)]
pub struct Header {
    /// The version of the block.
    pub version: Version,
    /// What the key is for.
    pub usage: Usage,
    /// The algorithm that the key is for.
    pub algorithm: Algorithm,
    /// What may be done with the key.
    pub mode: ModeOfUse,
    /// The number of the key's version, two characters: `00` if it has none.
    pub key_version: [u8; 2],
    /// Who may have the key.
    pub exportability: Exportability,
}

impl Version {
    /// The version of a character.
    pub fn of(character: u8) -> Option<Version>
        ensures some { IfSome result (λ version. version_text version ≡ character) }
        ensures none { IfNone result ((version : Version) → ¬ (version_text version ≡ character)) }
    {
        match character {
            b'A' => Some(Version::A),
            b'B' => Some(Version::B),
            b'C' => Some(Version::C),
            _ => None,
        }
    }

    /// Its character.
    pub fn character(self) -> u8
        ensures { result ≡ version_text self }
    {
        match self {
            Version::A => b'A',
            Version::B => b'B',
            Version::C => b'C',
        }
    }
}

impl Usage {
    /// The usage of two characters.
    pub fn of(text: [u8; 2]) -> Usage
        ensures same { usage_text result ≡ text }
        ensures named { (usage : Usage) → IsTrue (is_named_usage usage) → usage_text usage ≡ text
            → result ≡ usage }
    {
        match (text[0], text[1]) {
            (b'B', b'0') => Usage::BaseDerivation,
            (b'B', b'1') => Usage::InitialDukpt,
            (b'C', b'0') => Usage::CardVerification,
            (b'D', b'0') => Usage::Data,
            (b'E', b'0') => Usage::ApplicationCryptograms,
            (b'E', b'1') => Usage::CardConfidentiality,
            (b'E', b'2') => Usage::CardIntegrity,
            (b'K', b'0') => Usage::KeyEncryption,
            (b'K', b'1') => Usage::KeyProtection,
            (b'M', b'1') => Usage::MacAlgorithm1,
            (b'M', b'3') => Usage::MacAlgorithm3,
            (b'M', b'6') => Usage::Cmac,
            (b'P', b'0') => Usage::PinEncryption,
            (b'V', b'0') => Usage::PinVerification,
            (b'V', b'1') => Usage::Ibm3624,
            (b'V', b'2') => Usage::Pvv,
            _ => Usage::OtherUsage(text),
        }
    }

    /// Its two characters.
    pub fn text(self) -> [u8; 2]
        ensures { result ≡ usage_text self }
    {
        match self {
            Usage::BaseDerivation => *b"B0",
            Usage::InitialDukpt => *b"B1",
            Usage::CardVerification => *b"C0",
            Usage::Data => *b"D0",
            Usage::ApplicationCryptograms => *b"E0",
            Usage::CardConfidentiality => *b"E1",
            Usage::CardIntegrity => *b"E2",
            Usage::KeyEncryption => *b"K0",
            Usage::KeyProtection => *b"K1",
            Usage::MacAlgorithm1 => *b"M1",
            Usage::MacAlgorithm3 => *b"M3",
            Usage::Cmac => *b"M6",
            Usage::PinEncryption => *b"P0",
            Usage::PinVerification => *b"V0",
            Usage::Ibm3624 => *b"V1",
            Usage::Pvv => *b"V2",
            Usage::OtherUsage(text) => text,
        }
    }
}

impl Algorithm {
    /// The algorithm of a character.
    pub fn of(character: u8) -> Algorithm
        ensures same { algorithm_text result ≡ character }
        ensures named { (algorithm : Algorithm) → IsTrue (is_named_algorithm algorithm)
            → algorithm_text algorithm ≡ character → result ≡ algorithm }
    {
        match character {
            b'D' => Algorithm::Des,
            b'T' => Algorithm::TripleDes,
            other => Algorithm::OtherAlgorithm(other),
        }
    }

    /// Its character.
    pub fn character(self) -> u8
        ensures { result ≡ algorithm_text self }
    {
        match self {
            Algorithm::Des => b'D',
            Algorithm::TripleDes => b'T',
            Algorithm::OtherAlgorithm(character) => character,
        }
    }
}

impl ModeOfUse {
    /// The mode of use of a character.
    pub fn of(character: u8) -> ModeOfUse
        ensures same { mode_text result ≡ character }
        ensures named { (mode : ModeOfUse) → IsTrue (is_named_mode mode) → mode_text mode ≡ character
            → result ≡ mode }
    {
        match character {
            b'B' => ModeOfUse::EncryptAndDecrypt,
            b'C' => ModeOfUse::GenerateAndVerify,
            b'D' => ModeOfUse::Decrypt,
            b'E' => ModeOfUse::Encrypt,
            b'G' => ModeOfUse::Generate,
            b'N' => ModeOfUse::NoRestriction,
            b'V' => ModeOfUse::Verify,
            b'X' => ModeOfUse::Derive,
            other => ModeOfUse::OtherMode(other),
        }
    }

    /// Its character.
    pub fn character(self) -> u8
        ensures { result ≡ mode_text self }
    {
        match self {
            ModeOfUse::EncryptAndDecrypt => b'B',
            ModeOfUse::GenerateAndVerify => b'C',
            ModeOfUse::Decrypt => b'D',
            ModeOfUse::Encrypt => b'E',
            ModeOfUse::Generate => b'G',
            ModeOfUse::NoRestriction => b'N',
            ModeOfUse::Verify => b'V',
            ModeOfUse::Derive => b'X',
            ModeOfUse::OtherMode(character) => character,
        }
    }
}

impl Exportability {
    /// The rule of a character.
    pub fn of(character: u8) -> Exportability
        ensures same { exportability_text result ≡ character }
        ensures named { (rule : Exportability) → IsTrue (is_named_rule rule)
            → exportability_text rule ≡ character → result ≡ rule }
    {
        match character {
            b'E' => Exportability::Exportable,
            b'N' => Exportability::NonExportable,
            b'S' => Exportability::Sensitive,
            other => Exportability::OtherRule(other),
        }
    }

    /// Its character.
    pub fn character(self) -> u8
        ensures { result ≡ exportability_text self }
    {
        match self {
            Exportability::Exportable => b'E',
            Exportability::NonExportable => b'N',
            Exportability::Sensitive => b'S',
            Exportability::OtherRule(character) => character,
        }
    }
}

impl KeyContext {
    /// The context of a character.
    pub fn of(character: u8) -> Option<KeyContext>
        ensures some { IfSome result (λ context. context_text context ≡ character) }
        ensures none { IfNone result
            ((context : KeyContext) → ¬ (context_text context ≡ character)) }
    {
        match character {
            b'0' => Some(KeyContext::StorageOrExchange),
            b'1' => Some(KeyContext::Storage),
            b'2' => Some(KeyContext::Exchange),
            _ => None,
        }
    }

    /// Its character.
    pub fn character(self) -> u8
        ensures { result ≡ context_text self }
    {
        match self {
            KeyContext::StorageOrExchange => b'0',
            KeyContext::Storage => b'1',
            KeyContext::Exchange => b'2',
        }
    }
}

/// Whether all characters are letters and digits, as those of fields that are written and of names
/// of optional blocks.
pub fn are_alphanumeric(text: &[u8]) -> bool
    ensures { result ≡ are_alphanumeric_of text.now }
{
    text.iter()
        .all(|character| character.is_ascii_alphanumeric())
}

// Whether the characters of the fields are letters and digits.
pub(crate) fn is_written(header: &Header) -> bool
    ensures { result ≡ is_written_of header.now }
{
    let characters = [header.algorithm.character(), header.mode.character()];
    are_alphanumeric(&header.usage.text())
        && are_alphanumeric(&characters)
        && are_alphanumeric(&header.key_version)
        && are_alphanumeric(&[header.exportability.character()])
}

// A decimal digit of a number, that of a power of ten.
fn decimal(number: usize, power: usize) -> u8
    requires { 0 < power }
    ensures { result ≡ decimal_at power number }
{
    b'0' + (number / power % 10) as u8
}

// The sixteen characters of a header, with the length of the block and the number of optional
// blocks.
pub(crate) fn header_text(header: &Header, length: usize, count: usize) -> [u8; 16]
    requires length { length < 10000 }
    requires count { count < 100 }
    ensures is_header { IsHeader header.now }
    ensures text { result ≡ header_text_of header.now StorageOrExchange length count }
{
    let usage = header.usage.text();
    [
        header.version.character(),
        decimal(length, 1000),
        decimal(length, 100),
        decimal(length, 10),
        decimal(length, 1),
        usage[0],
        usage[1],
        header.algorithm.character(),
        header.mode.character(),
        header.key_version[0],
        header.key_version[1],
        header.exportability.character(),
        decimal(count, 10),
        decimal(count, 1),
        KeyContext::StorageOrExchange.character(),
        b'0',
    ]
}

// Whether a header says the length of its block.
fn says_length(block: &[u8]) -> bool
    requires { 16 ≤ length block.now }
    ensures { result ≡ says_length_of block.now }
{
    let length = block.len();
    block[1] == decimal(length, 1000)
        && block[2] == decimal(length, 100)
        && block[3] == decimal(length, 10)
        && block[4] == decimal(length, 1)
}

// How many optional blocks a header says that there are, and the key's context.
fn ending_of(block: &[u8]) -> Option<(usize, KeyContext)>
    requires { 16 ≤ length block.now }
    ensures some { is_some result ≡ has_ending block.now }
    ensures few { IfSome result (λ ending. ending.0 < 100) }
    ensures tens { IfSome result (λ ending. decimal_at 10 ending.0 ≡ slice_index block.now 12) }
    ensures ones { IfSome result (λ ending. decimal_at 1 ending.0 ≡ slice_index block.now 13) }
    ensures context { IfSome result (λ ending. context_text ending.1 ≡ slice_index block.now 14) }
{
    let tens = block[12];
    let ones = block[13];
    if !tens.is_ascii_digit() || !ones.is_ascii_digit() || block[15] != b'0' {
        return None;
    }
    let count = 10 * (tens - b'0') as usize + (ones - b'0') as usize;
    match KeyContext::of(block[14]) {
        Some(context) => Some((count, context)),
        None => None,
    }
}

// The fields of the header of a block of a version.
fn fields_of(version: Version, block: &[u8]) -> Header
    requires { 16 ≤ length block.now }
    ensures version { result.version ≡ version }
    ensures usage { usage_text result.usage
        ≡ slice_index block.now 5 ∷ slice_index block.now 6 ∷ [] }
    ensures algorithm { algorithm_text result.algorithm ≡ slice_index block.now 7 }
    ensures mode { mode_text result.mode ≡ slice_index block.now 8 }
    ensures key_version { result.key_version
        ≡ slice_index block.now 9 ∷ slice_index block.now 10 ∷ [] }
    ensures exportability { exportability_text result.exportability ≡ slice_index block.now 11 }
    ensures named { IsNamed result }
{
    Header {
        version,
        usage: Usage::of([block[5], block[6]]),
        algorithm: Algorithm::of(block[7]),
        mode: ModeOfUse::of(block[8]),
        key_version: [block[9], block[10]],
        exportability: Exportability::of(block[11]),
    }
}

// The header of a block, the number of optional blocks and the key's context, or the first fault.
pub(crate) fn read_header(block: &[u8]) -> Result<(Header, usize, KeyContext), KeyBlockError>
    ensures least { IfOk result (λ _. 16 ≤ length block.now) }
    ensures short { IfOk result (λ _. length block.now < 10000) }
    ensures few { IfOk result (λ read. read.1 < 100) }
    ensures is_header { IfOk result (λ read. IsHeader read.0) }
    ensures named { IfOk result (λ read. IsNamed read.0) }
    ensures text { IfOk result (λ read.
        header_text_of read.0 read.2 (length block.now) read.1 ≡ take 16 block.now) }
    ensures only { (header : Header) (context : KeyContext) (count : ℕ) → 16 ≤ length block.now
        → length block.now < 10000 → count < 100
        → header_text_of header context (length block.now) count ≡ take 16 block.now
        → IsOkAnd result (λ read. (read.0.version ≡ header.version)
        × (fields_text read.0 ≡ fields_text header) × (read.1 ≡ count)
        × (read.2 ≡ context)) }
    ensures fault { result_err result ≡ header_fault block.now }
{
    if block.len() < 16 || block.len() > MAX_CHARACTERS || !says_length(block) {
        return Err(KeyBlockError::Length);
    }
    let version = match Version::of(block[0]) {
        Some(version) => version,
        None => return Err(KeyBlockError::Version),
    };
    match ending_of(block) {
        Some((count, context)) => Ok((fields_of(version, block), count, context)),
        None => Err(KeyBlockError::Header),
    }
}
