//! What an argument is, and the arguments that several commands take.

use Takes::{Needed, NeededWord, Nothing, Number, Place, Text, Word};

/// What an argument takes. The first text is what the help calls its value.
#[derive(Clone, Copy)]
pub enum Takes<'a> {
    /// One of some values, in its place.
    Place(&'a str, &'a [&'a str]),
    /// A text, in its place.
    PlaceOfText(&'a str),
    /// One of some values.
    Word(&'a str, &'a [&'a str]),
    /// A number.
    Number(&'a str),
    /// A number from 0 to 255.
    Count(&'a str),
    /// A text.
    Text(&'a str),
    /// A text. The option is required.
    Needed(&'a str),
    /// One of some values. The option is required.
    NeededWord(&'a str, &'a [&'a str]),
    /// Texts, one at each use.
    Texts(&'a str),
    /// A number that the help does not show.
    Hidden,
    /// Nothing.
    Nothing,
}

/// An argument: its name, what it takes, and what the help says of it.
#[derive(Clone, Copy)]
pub struct Argument<'a>(pub &'a str, pub Takes<'a>, pub &'a str);

/// Arguments: what one command takes, or what several take, by the name of a constant below.
#[derive(Clone, Copy)]
pub enum Arguments<'a> {
    /// Those of one command.
    Own(&'a [Argument<'a>]),
    Key,
    KeyOrPassword,
    KeyOfParts,
    ToKey,
    ProtectionKey,
    Password,
    AnyCount,
    Cipher,
    Files,
    Progress,
    Account,
    Format,
    PinFile,
    Index,
    Validation,
    Cryptogram,
    BlockFile,
    Hex,
}

macro_rules! arguments {
    ($($name:literal: $takes:expr => $help:expr;)*) => { &[$(Argument($name, $takes, $help)),*] };
}

pub(crate) use arguments;

// The places of a key, and when one of them is needed.
macro_rules! key {
    ($help:literal) => {
        arguments! {
            "key-file": Text("FILE") => $help;
            "key-fd": Number("N") => "Read them from an open descriptor, from its current position";
            "key-env": Text("NAME") => "Take them from an environment variable";
        }
    };
}

const KEY: &[Argument<'static>] = key!(
    "Read the key's hexadecimal digits from a file, or - for standard input; one of these is needed"
);

const KEY_OR_PASSWORD: &[Argument<'static>] = key!(
    "Read the key's hexadecimal digits from a file, or - for standard input; one of these is needed, or a password"
);

const KEY_OF_PARTS: &[Argument<'static>] = key!(
    "Read the components' hexadecimal digits from a file, or - for standard input; with --count one of these is needed"
);

const TO_KEY: &[Argument<'static>] = arguments! {
    "to-key-file": Text("FILE") =>
        "Read the outgoing key's digits from a file, or - for standard input; one of these is needed";
    "to-key-fd": Number("N") => "Read them from an open descriptor, from its current position";
    "to-key-env": Text("NAME") => "Take them from an environment variable";
};

const PROTECTION_KEY: &[Argument<'static>] = arguments! {
    "protection-key-file": Text("FILE") =>
        "Read the digits of the key that protects the block from a file, or -; one of these is needed";
    "protection-key-fd": Number("N") => "Read them from an open descriptor, from its current position";
    "protection-key-env": Text("NAME") => "Take them from an environment variable";
};

const PASSWORD: &[Argument<'static>] = arguments! {
    "password-file": Text("FILE") => "Read the password, the first line of a file, or - for standard input";
    "password-fd": Number("N") => "Read it from an open descriptor, from its current position";
    "password-env": Text("NAME") => "Take it from an environment variable";
};

const ANY_COUNT: &[Argument<'static>] = arguments! {
    "any-count": Nothing => "Take more than 10000000 iterations";
};

const CIPHER: &[Argument<'static>] = arguments! {
    "cipher": Place("CIPHER", &[
        "des-ecb", "des-cbc", "des-cfb", "des-cfb8", "des-ofb", "des-ctr",
        "des-ede-ecb", "des-ede-cbc", "des-ede-cfb", "des-ede-cfb8", "des-ede-ofb", "des-ede-ctr",
        "des-ede3-ecb", "des-ede3-cbc", "des-ede3-cfb", "des-ede3-cfb8", "des-ede3-ofb", "des-ede3-ctr",
    ]) =>
        "The cipher and its mode: DES, or triple DES by a key of two (ede) or three (ede3) parts";
};

const FILES: &[Argument<'static>] = arguments! {
    "in": Text("FILE") => "Read a file, or - for standard input [default: standard input]";
    "out": Text("FILE") =>
        "Write to a file, which is replaced only when all is done; - is standard output, even a \
         terminal [default: standard output]";
};

const PROGRESS: &[Argument<'static>] = arguments! {
    "progress": Nothing => "Show progress on standard error";
};

const ACCOUNT: &[Argument<'static>] = arguments! {
    "account": Text("DIGITS") =>
        "The account number, 8 to 19 digits, the last its check digit; of pvv and cvv 12 at least";
    "account-file": Text("FILE") => "Read the account number from a file, or - for standard input";
    "check-digit": Word("CHOICE", &["warn", "refuse"]) =>
        "What to do if the last digit is not the check digit [default: warn]";
};

const FORMAT: &[Argument<'static>] = arguments! {
    "format": Place("FORMAT", &["0", "1", "2", "3"]) => "The format (ISO 9564-1)";
};

const PIN_FILE: &[Argument<'static>] = arguments! {
    "pin-file": Text("FILE") => "Read the PIN from a file [default: standard input]";
};

const INDEX: &[Argument<'static>] = arguments! {
    "index": NeededWord("INDEX", &["1", "2", "3", "4", "5", "6"]) => "The index of the key pair";
};

const VALIDATION: &[Argument<'static>] = arguments! {
    "validation": Needed("DIGITS") =>
        "The validation data, 16 hexadecimal digits, as the issuer chooses them";
    "table": Needed("DIGITS") => "The decimalization table, 16 digits, those that stand for 0 to f";
    "any-table": Nothing => "Take a table with fewer than eight different digits";
};

const CRYPTOGRAM: &[Argument<'static>] = arguments! {
    "cryptogram": Needed("DIGITS") => "The application cryptogram, 16 hexadecimal digits";
};

const BLOCK_FILE: &[Argument<'static>] = arguments! {
    "block-file": Text("FILE") => "Read the key block from a file [default: standard input]";
};

const HEX: &[Argument<'static>] = arguments! {
    "hex": Nothing =>
        "Input and output are hexadecimal digits: of the input in either case, with white space between bytes";
};

/// The arguments, in the help's order.
pub fn list_of<'a>(arguments: Arguments<'a>) -> &'a [Argument<'a>] {
    match arguments {
        Arguments::Own(list) => list,
        Arguments::Key => KEY,
        Arguments::KeyOrPassword => KEY_OR_PASSWORD,
        Arguments::KeyOfParts => KEY_OF_PARTS,
        Arguments::ToKey => TO_KEY,
        Arguments::ProtectionKey => PROTECTION_KEY,
        Arguments::Password => PASSWORD,
        Arguments::AnyCount => ANY_COUNT,
        Arguments::Cipher => CIPHER,
        Arguments::Files => FILES,
        Arguments::Progress => PROGRESS,
        Arguments::Account => ACCOUNT,
        Arguments::Format => FORMAT,
        Arguments::PinFile => PIN_FILE,
        Arguments::Index => INDEX,
        Arguments::Validation => VALIDATION,
        Arguments::Cryptogram => CRYPTOGRAM,
        Arguments::BlockFile => BLOCK_FILE,
        Arguments::Hex => HEX,
    }
}
