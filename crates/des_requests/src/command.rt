//! Commands, and the requests that are neither of streams nor of lines.

use crate::lines::LinesRequest;
use crate::streams::{Output, StreamRequest};
use des_lines::requests::{Account, Calculation, CalculationRequest};
use des_lines::source::Source;

/// What a command line asks for.
#[derive(Clone, Copy)]
pub enum Command<'m, 'a> {
    /// What is computed from short inputs is written.
    Calculate(CalculationRequest<'a>),
    /// The key of components is written, each of them in a file of its own.
    CombineFiles(&'m [&'a str]),
    /// A message is authenticated.
    Mac(MacRequest<'a>),
    /// Bytes are encrypted or decrypted.
    Stream(StreamRequest<'a>),
    /// A private key under a password is decrypted.
    PrivateKey(PrivateKeyRequest<'a>),
    /// Values in lines are decrypted.
    Lines(LinesRequest<'a>),
}

/// The form of a private key that is written.
#[derive(Clone, Copy)]
pub enum KeyForm {
    /// That of the input.
    AsRead,
    Pem,
    Der,
}

/// What a command line asks of a private key under a password.
#[derive(Clone, Copy)]
pub struct PrivateKeyRequest<'a> {
    pub password: Source<'a>,
    pub input: Source<'a>,
    pub output: Output<'a>,
    pub form: KeyForm,
    /// More iterations are a fault.
    pub most_iterations: u32,
}

/// The padding of a message (ISO/IEC 9797-1:2011, 6.3).
#[derive(Clone, Copy)]
pub enum PaddingMethod {
    /// As few zeros as make whole blocks.
    One,
    /// A one bit, then as few zeros as make whole blocks.
    Two,
}

/// A method of authentication.
#[derive(Clone, Copy)]
pub enum Method {
    /// MAC algorithm 1 of ISO/IEC 9797-1:2011, over DES or triple DES.
    CbcMac(PaddingMethod),
    /// MAC algorithm 3 of ISO/IEC 9797-1:2011, over DES, by a key of two parts.
    Retail(PaddingMethod),
    /// CMAC (NIST SP 800-38B), over DES or triple DES.
    Cmac,
}

/// A message, and what is asked of its tag.
#[derive(Clone, Copy)]
pub struct MacRequest<'a> {
    pub method: Method,
    pub question: Question<'a>,
    pub key: Source<'a>,
    pub message: Source<'a>,
    /// The message is given as hexadecimal digits.
    pub is_hexadecimal: bool,
}

/// What is asked of a tag.
#[derive(Clone, Copy)]
pub enum Question<'a> {
    /// This number of its first bytes.
    Print(u8),
    /// Whether these are the digits of its first bytes.
    Verify(&'a str),
}

/// The request of a calculation by its input alone.
pub fn by_input<'a>(calculation: Calculation<'a>, input: Source<'a>) -> CalculationRequest<'a> {
    CalculationRequest {
        calculation,
        input,
        key: None,
        to_key: None,
        account: Account::Absent,
        refuses_wrong_check_digit: false,
    }
}
