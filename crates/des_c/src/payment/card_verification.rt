//! The export of card verification values.

ghost use Rattle.std.specs.Prelude.{◌≡◌, ◌≢◌};
ghost use Rattle.des_payment.specs.CardVerification.{card_fault, verification_value};
ghost use Rattle.des_c.specs.CvvStatuses.{status_of as status_of_fault};
ghost use Rattle.des_c.specs.Statuses.{status_after};
ghost use Rattle.des_c.specs.Texts.{with_zeros};

use des_context::status::{
    ERR_ACCOUNT_DIGIT, ERR_ACCOUNT_LENGTH, ERR_EXPIRY_DIGIT, ERR_EXPIRY_LENGTH, ERR_SERVICE_DIGIT,
    ERR_SERVICE_LENGTH, OK,
};
use des_payment::{CvvError, cvv};

fn status_of(fault: CvvError) -> i32
    ensures status { result ≡ status_of_fault fault }
    ensures fault { result ≢ OK }
{
    match fault {
        CvvError::AccountLength => ERR_ACCOUNT_LENGTH,
        CvvError::AccountDigit => ERR_ACCOUNT_DIGIT,
        CvvError::ExpiryLength => ERR_EXPIRY_LENGTH,
        CvvError::ExpiryDigit => ERR_EXPIRY_DIGIT,
        CvvError::ServiceLength => ERR_SERVICE_LENGTH,
        CvvError::ServiceDigit => ERR_SERVICE_DIGIT,
    }
}

/// Writes the card verification value, three ASCII digits and a zero byte, of an account number of
/// 12 to 19 digits, an expiry date of four and a service code of three, texts of ASCII digits. The
/// status is that of the first fault, of the account number, then of the expiry date and then of
/// the service code, and then `value` is unchanged.
#[unsafe(no_mangle)]
pub extern "C" fn cukvashe_cvv(
    key: &[u8; 16],
    account: &[u8],
    expiry: &[u8],
    service: &[u8],
    value: &mut [u8; 4],
) -> i32
    ensures status { result
        ≡ status_after status_of_fault (card_fault account.now expiry.now service.now) }
    ensures value { result ≡ OK
        → value.new ≡ with_zeros 4
        (verification_value key.now account.now expiry.now service.now) }
    ensures kept { result ≢ OK → value.new ≡ value.old }
{
    match cvv(key, account, expiry, service) {
        Ok(made) => {
            *value = [made[0], made[1], made[2], 0];
            OK
        }
        Err(fault) => status_of(fault),
    }
}
