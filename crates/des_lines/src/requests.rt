//! What is asked of a calculation, and what is read for it.

use crate::source::Source;
use des_key_blocks::key_block_header::Version;
use des_payment::dukpt::MessageDirection;
use des_payment::translation::Format;

/// The bytes of the longest input: a key block, white space among them.
pub const MAX_INPUT: usize = 16384;

/// The random bytes that a key block takes at most: its padding with the key has 30 bytes.
pub const MAX_RANDOM_BYTES: usize = 22;

/// Where an account number is.
#[derive(Clone, Copy)]
pub enum Account<'a> {
    /// The command takes none.
    Absent,
    /// In an argument.
    Digits(&'a str),
    /// In a file.
    In(Source<'a>),
}

/// A calculation, and where its inputs are.
#[derive(Clone, Copy)]
pub struct CalculationRequest<'a> {
    pub calculation: Calculation<'a>,
    /// Where the key, the components, the PIN, the block or the data are.
    pub input: Source<'a>,
    /// Where the key is, if the input is something else.
    pub key: Option<Source<'a>>,
    /// Where the key of an outgoing block is.
    pub to_key: Option<Source<'a>>,
    pub account: Account<'a>,
    /// An account number whose last digit is not its check digit is refused.
    pub refuses_wrong_check_digit: bool,
}

/// What was read for a calculation. What it does not take is empty.
#[derive(Clone, Copy)]
pub struct Inputs<'a> {
    /// The input: a key, components, a PIN, a block or data.
    pub text: &'a [u8],
    pub account: &'a [u8],
    /// The digits of the key, if the input is something else.
    pub key: &'a [u8],
    /// The digits of the key of an outgoing block.
    pub to_key: &'a [u8],
    /// The random bytes of a key block that is made.
    pub random: &'a [u8; MAX_RANDOM_BYTES],
}

/// What is computed from short inputs. A key, components, a PIN, a block or data are in the input,
/// as digits.
#[derive(Clone, Copy)]
pub enum Calculation<'a> {
    /// The first `bytes` bytes of a key's check value.
    CheckValue {
        bytes: u8,
    },
    /// The key with odd parity.
    Parity,
    /// Whether the key is weak.
    Weak,
    /// The key of `count` components.
    Combine {
        count: u8,
    },
    /// The key of components of `size` bytes. The input is their bytes, and no digits.
    CombineBytes {
        size: u8,
    },
    /// The block of a PIN. The transaction or fill digits are `fill`, if the format takes them.
    Encode {
        format: Format,
        fill: &'a str,
    },
    /// The PIN of a block.
    Decode {
        format: Format,
    },
    /// A key of the transaction of a key serial number, from the base derivation key, or from the
    /// initial key.
    Transaction {
        serial: &'a str,
        purpose: Purpose,
        is_initial: bool,
    },
    /// The card verification value of a card's data under a key pair.
    Cvv {
        expiry: &'a str,
        service: &'a str,
    },
    Pin(PinCalculation<'a>),
    Emv(EmvCalculation<'a>),
    KeyBlock(KeyBlockCalculation<'a>),
}

/// What a key of a transaction is for.
#[derive(Clone, Copy)]
pub enum Purpose {
    Pin,
    /// The code that authenticates a message.
    Mac(MessageDirection),
    /// The data of a message.
    Data(MessageDirection),
    /// The data of a message, if terminals leave out the last one-way step.
    DataVariant(MessageDirection),
}

/// What natural PINs are made of beside a key: validation data and a decimalization table, in
/// digits.
#[derive(Clone, Copy)]
pub struct NaturalPins<'a> {
    pub validation: &'a str,
    pub table: &'a str,
    /// A table with few different digits is taken.
    pub takes_any_table: bool,
}

/// A calculation with a PIN and a key. The input is the PIN, but for `Translate`,
/// `TranslateFormat1` and `Natural`.
#[derive(Clone, Copy)]
pub enum PinCalculation<'a> {
    /// The encrypted block of the same PIN under the outgoing key. The input is the block.
    Translate {
        from: Format,
        to: Format,
        fill: &'a str,
    },
    /// The encrypted block of format 1 under the outgoing key. The input is the block.
    TranslateFormat1,
    /// The PIN verification value.
    MakePvv {
        index: u8,
    },
    /// Whether the PIN has this verification value.
    VerifyPvv {
        index: u8,
        value: &'a str,
    },
    /// The natural PIN of `count` digits. The input is the key.
    Natural {
        by: NaturalPins<'a>,
        count: u8,
    },
    MakeOffset {
        by: NaturalPins<'a>,
    },
    /// Whether the PIN has this offset.
    VerifyOffset {
        by: NaturalPins<'a>,
        offset: &'a str,
    },
}

/// How the key of a card is made of its numbers.
#[derive(Clone, Copy)]
pub enum CardKeyOption {
    A,
    B,
}

/// A calculation with a card's keys and cryptograms. The input is the key, but for `Cryptogram`.
#[derive(Clone, Copy)]
pub enum EmvCalculation<'a> {
    /// The key of a card, from the issuer's.
    CardKey {
        option: CardKeyOption,
        sequence: &'a str,
    },
    /// The session's key for application cryptograms, by the transaction counter.
    ApplicationKey {
        counter: &'a str,
    },
    /// The session's key by a cryptogram.
    SessionKey {
        cryptogram: &'a str,
    },
    /// The application cryptogram. The input is its data.
    Cryptogram,
    /// The response by method 1.
    Response1 {
        cryptogram: &'a str,
        code: &'a str,
    },
    /// The response by method 2.
    Response2 {
        cryptogram: &'a str,
        status: &'a str,
        issued: &'a str,
    },
}

/// The header of a key block that is made, and its optional blocks, as texts.
#[derive(Clone, Copy)]
pub struct Wrapping<'a> {
    pub version: Version,
    pub usage: &'a str,
    pub algorithm: &'a str,
    /// Whether the algorithm was typed. If it was not, the key's length decides.
    pub names_algorithm: bool,
    pub mode: &'a str,
    pub key_version: &'a str,
    pub exportability: &'a str,
    pub optional: &'a str,
}

/// A calculation with a key block. The input is the block, but for `Wrap`.
#[derive(Clone, Copy)]
pub enum KeyBlockCalculation<'a> {
    /// The fields of the header.
    Header,
    /// The fields of the header and the check value of the key; or the key.
    Unwrap { shows_key: bool },
    /// The block of a key, which is the input.
    Wrap(Wrapping<'a>),
}
