//! The exports of card cryptograms (EMV 4.3, Book 2).

ghost use Rattle.std.specs.Prelude.{◌≡◌, ◌≢◌};
ghost use Rattle.des_payment.specs.CardCryptograms.{card_key as card_key_of, card_key_b as card_key_b_of, card_fault, session_key as session_key_of, application_key as application_key_of};
ghost use Rattle.des_payment.specs.CardCryptograms.{cryptogram as cryptogram_of, response_1 as response_1_of, response_2 as response_2_of, data_fault};
ghost use Rattle.des_c.specs.EmvStatuses.{status_of as status_of_fault};
ghost use Rattle.des_c.specs.Statuses.{status_after};

use des_context::status::{
    ERR_ACCOUNT_DIGIT, ERR_ACCOUNT_LENGTH, ERR_DATA_LENGTH, ERR_SEQUENCE_DIGIT,
    ERR_SEQUENCE_LENGTH, OK,
};
use des_payment::emv::{
    application_cryptogram, application_key, card_key, card_key_b, response_1, response_2,
    session_key,
};
use des_payment::emv_error::EmvError;

fn status_of(fault: EmvError) -> i32
    ensures status { result ≡ status_of_fault fault }
    ensures fault { result ≢ OK }
{
    match fault {
        EmvError::AccountLength => ERR_ACCOUNT_LENGTH,
        EmvError::AccountDigit => ERR_ACCOUNT_DIGIT,
        EmvError::SequenceLength => ERR_SEQUENCE_LENGTH,
        EmvError::SequenceDigit => ERR_SEQUENCE_DIGIT,
        EmvError::DataLength => ERR_DATA_LENGTH,
    }
}

/// Writes the key of a card (A1.4.1, option A), from the issuer's key, an account number of 8 to 19
/// digits and a sequence number of two, texts of ASCII digits. The status is that of the first
/// fault, of the account number and then of the sequence number, and then `key` is unchanged.
#[unsafe(no_mangle)]
pub extern "C" fn cukvashe_emv_card_key(
    issuer: &[u8; 16],
    account: &[u8],
    sequence: &[u8],
    key: &mut [u8; 16],
) -> i32
    ensures status { result
        ≡ status_after status_of_fault (card_fault account.now sequence.now) }
    ensures key { result ≡ OK → key.new ≡ card_key_of issuer.now account.now sequence.now }
    ensures kept { result ≢ OK → key.new ≡ key.old }
{
    match card_key(issuer, account, sequence) {
        Ok(made) => {
            *key = made;
            OK
        }
        Err(fault) => status_of(fault),
    }
}

/// Writes the key of a card by option B (A1.4.2), and otherwise as `cukvashe_emv_card_key`.
#[unsafe(no_mangle)]
pub extern "C" fn cukvashe_emv_card_key_b(
    issuer: &[u8; 16],
    account: &[u8],
    sequence: &[u8],
    key: &mut [u8; 16],
) -> i32
    ensures status { result
        ≡ status_after status_of_fault (card_fault account.now sequence.now) }
    ensures key { result ≡ OK → key.new ≡ card_key_b_of issuer.now account.now sequence.now }
    ensures kept { result ≢ OK → key.new ≡ key.old }
{
    match card_key_b(issuer, account, sequence) {
        Ok(made) => {
            *key = made;
            OK
        }
        Err(fault) => status_of(fault),
    }
}

/// Writes the session key of a card's key (A1.3), from eight bytes that are different for each
/// session.
#[unsafe(no_mangle)]
pub extern "C" fn cukvashe_emv_session_key(card: &[u8; 16], block: &[u8; 8], key: &mut [u8; 16])
    ensures { key.new ≡ session_key_of card.now block.now }
{
    *key = session_key(card, block);
}

/// Writes the session key for application cryptograms, by the application transaction counter.
#[unsafe(no_mangle)]
pub extern "C" fn cukvashe_emv_application_key(
    card: &[u8; 16],
    counter: &[u8; 2],
    key: &mut [u8; 16],
)
    ensures { key.new ≡ application_key_of card.now counter.now }
{
    *key = application_key(card, counter);
}

/// Writes the application cryptogram of bytes under a session key (8.1.2).
#[unsafe(no_mangle)]
pub extern "C" fn cukvashe_emv_application_cryptogram(
    session: &[u8; 16],
    bytes: &[u8],
    cryptogram: &mut [u8; 8],
)
    ensures { cryptogram.new ≡ cryptogram_of session.now bytes.now }
{
    *cryptogram = application_cryptogram(session, bytes);
}

/// Writes the response by method 1 (8.2.1) to an application cryptogram, with a response code of
/// two bytes.
#[unsafe(no_mangle)]
pub extern "C" fn cukvashe_emv_response_1(
    session: &[u8; 16],
    cryptogram: &[u8; 8],
    code: &[u8; 2],
    response: &mut [u8; 8],
)
    ensures { response.new ≡ response_1_of session.now cryptogram.now code.now }
{
    *response = response_1(session, cryptogram, code);
}

/// Writes the response by method 2 (8.2.2) to an application cryptogram, with a card status update
/// of four bytes and at most eight bytes of the issuer's. The status for more is `ERR_DATA_LENGTH`,
/// and then `response` is unchanged.
#[unsafe(no_mangle)]
pub extern "C" fn cukvashe_emv_response_2(
    session: &[u8; 16],
    cryptogram: &[u8; 8],
    status: &[u8; 4],
    bytes: &[u8],
    response: &mut [u8; 4],
) -> i32
    ensures status { result ≡ status_after status_of_fault (data_fault bytes.now) }
    ensures response { result ≡ OK → response.new
        ≡ response_2_of session.now cryptogram.now status.now bytes.now }
    ensures kept { result ≢ OK → response.new ≡ response.old }
{
    match response_2(session, cryptogram, status, bytes) {
        Ok(made) => {
            *response = made;
            OK
        }
        Err(fault) => status_of(fault),
    }
}
