//! The exports of the keys of a transaction (DUKPT, ANSI X9.24-1:2009).

ghost use Rattle.std.specs.Prelude.{◌≡◌, ◌≢◌, ◌↔◌, ◌<◌, ℕ, IsTrue};
ghost use Rattle.des_payment.specs.Dukpt.{initial_key, transaction_key, pin_key, mac_key, data_variant, data_key};
ghost use Rattle.des_payment.specs.Dukpt.{counter_of, IsUsable, IsNextCounter, IsOfTransaction, with_counter};
ghost use Rattle.des_c.specs.Messages.{message_of as message_by};

use des_context::status::{ERR_NO_SERIAL, OK};
use des_payment::dukpt::{self, MessageDirection};

/// Writes the initial key of a terminal, from the base derivation key and a key serial number.
#[unsafe(no_mangle)]
pub extern "C" fn cukvashe_dukpt_initial_key(base: &[u8; 16], serial: &[u8; 10], key: &mut [u8; 16])
    ensures { key.new ≡ initial_key base.now serial.now }
{
    *key = dukpt::initial_key(base, serial);
}

/// Writes the key of a transaction, from the terminal's initial key and the transaction's key
/// serial number.
#[unsafe(no_mangle)]
pub extern "C" fn cukvashe_dukpt_transaction_key(
    initial: &[u8; 16],
    serial: &[u8; 10],
    key: &mut [u8; 16],
)
    ensures { key.new ≡ transaction_key initial.now serial.now }
{
    *key = dukpt::transaction_key(initial, serial);
}

/// Writes the key that encrypts PIN blocks, from the transaction's key.
#[unsafe(no_mangle)]
pub extern "C" fn cukvashe_dukpt_pin_key(transaction: &[u8; 16], key: &mut [u8; 16])
    ensures { key.new ≡ pin_key transaction.now }
{
    *key = dukpt::pin_key(transaction);
}

fn message_of(is_response: bool) -> MessageDirection
    ensures { result ≡ message_by is_response }
{
    if is_response {
        MessageDirection::Response
    } else {
        MessageDirection::Request
    }
}

/// Writes the key that authenticates the request, or the response, from the transaction's key.
#[unsafe(no_mangle)]
pub extern "C" fn cukvashe_dukpt_mac_key(
    transaction: &[u8; 16],
    is_response: bool,
    key: &mut [u8; 16],
)
    ensures { key.new ≡ mac_key (message_by is_response) transaction.now }
{
    *key = dukpt::mac_key(transaction, message_of(is_response));
}

/// Writes the data variant of the transaction's key for the request, or for the response: the key
/// that `cukvashe_dukpt_data_key` makes, without its last step.
#[unsafe(no_mangle)]
pub extern "C" fn cukvashe_dukpt_data_variant(
    transaction: &[u8; 16],
    is_response: bool,
    key: &mut [u8; 16],
)
    ensures { key.new ≡ data_variant (message_by is_response) transaction.now }
{
    *key = dukpt::data_variant(transaction, message_of(is_response));
}

/// Writes the key that encrypts the data of the request, or of the response, from the transaction's
/// key.
#[unsafe(no_mangle)]
pub extern "C" fn cukvashe_dukpt_data_key(
    transaction: &[u8; 16],
    is_response: bool,
    key: &mut [u8; 16],
)
    ensures { key.new ≡ data_key (message_by is_response) transaction.now }
{
    *key = dukpt::data_key(transaction, message_of(is_response));
}

/// Whether a transaction can have this key serial number: its counter is not 0 and has at most ten
/// one bits.
#[unsafe(no_mangle)]
pub extern "C" fn cukvashe_dukpt_is_usable(serial: &[u8; 10]) -> bool
    ensures { IsTrue result ↔ IsOfTransaction serial.now }
{
    dukpt::is_usable(serial)
}

/// Writes the next key serial number, with at most ten one bits in its counter. The status is
/// `ERR_NO_SERIAL` if there is none, and then `next` is unchanged.
#[unsafe(no_mangle)]
pub extern "C" fn cukvashe_dukpt_next_serial(serial: &[u8; 10], next: &mut [u8; 10]) -> i32
    ensures next { result ≡ OK → (counter : ℕ)
        × (IsNextCounter (counter_of serial.now) counter
        × (next.new ≡ with_counter serial.now counter)) }
    ensures none { result ≢ OK → (result ≡ ERR_NO_SERIAL) × ((counter : ℕ)
        → counter_of serial.now < counter → ¬ (IsUsable counter)) }
    ensures kept { result ≢ OK → next.new ≡ next.old }
{
    match dukpt::next_serial(serial) {
        Some(found) => {
            *next = found;
            OK
        }
        None => ERR_NO_SERIAL,
    }
}
