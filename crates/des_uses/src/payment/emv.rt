//! A host's answer to a card, by the clauses of the calls.

ghost use Rattle.std.specs.Prelude.{◌≡◌, ◌<◌, ◌≤◌, [], ◌∷◌, if◌then◌else◌, length, IfOk};
ghost use Rattle.std.specs.Result.{result_err};
ghost use Rattle.des_payment.specs.CardCryptograms.{card_key as card_key_of, card_key_b as card_key_b_of, card_fault, application_key as application_key_of};
ghost use Rattle.des_payment.specs.CardCryptograms.{cryptogram as cryptogram_of, response_1 as response_1_of};

use des_payment::emv::{application_cryptogram, application_key, card_key, card_key_b, response_1};
use des_payment::emv_error::EmvError;

/// The host's response to a transaction that it approves, from the issuer's key.
pub fn approved(
    issuer: &[u8; 16],
    account: &[u8],
    sequence: &[u8],
    counter: &[u8; 2],
    bytes: &[u8],
) -> Result<[u8; 8], EmvError>
    ensures fault { result_err result ≡ card_fault account.now sequence.now }
    ensures response { IfOk result (λ response.
        let card = card_key_of issuer.now account.now sequence.now in
        let session = application_key_of card counter.now in
        response ≡ response_1_of session (cryptogram_of session bytes.now) (48 ∷ 48 ∷ [])) }
{
    let session = application_key(&card_key(issuer, account, sequence)?, counter);
    let cryptogram = application_cryptogram(&session, bytes);
    Ok(response_1(&session, &cryptogram, b"00"))
}

/// The key of a card of a scheme that asks for option B if the account number is long.
pub fn card_key_of_scheme(
    issuer: &[u8; 16],
    account: &[u8],
    sequence: &[u8],
    takes_b: bool,
) -> Result<[u8; 16], EmvError>
    ensures fault { result_err result ≡ card_fault account.now sequence.now }
    ensures short { length account.now ≤ 16 → IfOk result (λ key.
        key ≡ card_key_of issuer.now account.now sequence.now) }
    ensures long { 16 < length account.now → IfOk result (λ key.
        key ≡ (if takes_b then card_key_b_of issuer.now account.now sequence.now
        else card_key_of issuer.now account.now sequence.now)) }
{
    if takes_b {
        card_key_b(issuer, account, sequence)
    } else {
        card_key(issuer, account, sequence)
    }
}
