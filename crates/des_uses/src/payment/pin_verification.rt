//! What the clauses of PIN verification give to a caller.

ghost use Rattle.std.specs.Prelude.{◌≡◌, ◌≢◌, ◌↔◌, None, IfOk, IsTrue};
ghost use Rattle.std.specs.Result.{result_err};
ghost use Rattle.des_payment.specs.PinVerification.{pvv as pvv_of, pvv_fault, key_fault, IsRight};

use des_payment::pin_verification::{pvv, verify_offset, verify_pvv};
use des_payment::{DecimalTable, Pin, VerificationError};

/// The PIN verification value of a PIN, which was verified: it is right, so that there is no other
/// fault than those of `pvv`.
pub fn kept_value(
    key: &[u8; 16],
    account: &[u8],
    index: u8,
    pin: &Pin,
) -> Result<[u8; 4], VerificationError>
    ensures fault { result_err result ≡ pvv_fault account.now index }
    ensures value { IfOk result (λ value. value ≡ pvv_of key.now account.now index pin.now) }
{
    let value = pvv(key, account, index, pin)?;
    verify_pvv(key, account, index, pin, &value)?;
    Ok(value)
}

/// Whether a PIN is wrong, and nothing else is.
pub fn is_wrong(key: &[u8; 16], account: &[u8], index: u8, pin: &Pin, value: &[u8; 4]) -> bool
    ensures { IsTrue result ↔ ((pvv_fault account.now index ≡ None)
        × (value.now ≢ pvv_of key.now account.now index pin.now)) }
{
    match verify_pvv(key, account, index, pin, value) {
        Err(VerificationError::WrongPin) => true,
        _ => false,
    }
}

/// Whether a PIN is right by an offset.
pub fn is_right(
    key: &[u8],
    table: &DecimalTable,
    validation: &[u8; 8],
    offset: &Pin,
    pin: &Pin,
) -> bool
    ensures { IsTrue result ↔ ((key_fault key.now ≡ None)
        × IsRight key.now table.now validation.now offset.now pin.now) }
{
    verify_offset(key, table, validation, pin, offset).is_ok()
}
