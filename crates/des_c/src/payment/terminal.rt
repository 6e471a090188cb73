//! The exports of the terminal's side of DUKPT (ANSI X9.24-1:2009).

ghost use Rattle.std.specs.Prelude.{◌≡◌, ◌≢◌, ◌<◌, ℕ, List, replicate};
ghost use Rattle.std.specs.Int.{w64, trailing_zeros};
ghost use Rattle.des_fast.specs.Transposition.{block_at};
ghost use Rattle.des_payment.specs.Dukpt.{last_bytes, counter_of, with_counter, transaction_key, IsUsable, IsNextCounter};
ghost use Rattle.des_payment.specs.Terminals.{place_of, register_after, HasFutureKeys};

use des_context::status::{ERR_NO_SERIAL, OK};
use des_payment::terminal::Terminal;

/// Makes the state of a terminal with this initial key, before its first transaction. The counter
/// of the key serial number has no part in it.
#[unsafe(no_mangle)]
pub extern "C" fn cukvashe_dukpt_terminal_init(
    terminal: &mut Terminal,
    initial: &[u8; 16],
    serial: &[u8; 10],
)
    ensures serial { terminal.new.serial ≡ with_counter serial.now 0 }
    ensures keys { HasFutureKeys initial.now (last_bytes terminal.new.serial) terminal.new.keys }
{
    *terminal = Terminal::new(initial, serial);
}

/// Writes the key serial number and the key of the next transaction, and clears the key in the
/// state. The status is `ERR_NO_SERIAL` if the terminal has had its last transaction, and then
/// the state, `serial` and `key` are unchanged.
#[unsafe(no_mangle)]
pub extern "C" fn cukvashe_dukpt_terminal_next_key(
    terminal: &mut Terminal,
    serial: &mut [u8; 10],
    key: &mut [u8; 16],
) -> i32
    ensures next { result ≡ OK → (counter : ℕ)
        × (IsNextCounter (counter_of terminal.old.serial) counter
        × (terminal.new.serial ≡ with_counter terminal.old.serial counter)) }
    ensures serial { result ≡ OK → serial.new ≡ terminal.new.serial }
    ensures key { result ≡ OK → (initial : List ℕ)
        → HasFutureKeys initial (last_bytes terminal.old.serial) terminal.old.keys
        → key.new ≡ transaction_key initial terminal.new.serial }
    ensures keys { result ≡ OK → (initial : List ℕ)
        → HasFutureKeys initial (last_bytes terminal.old.serial) terminal.old.keys
        → HasFutureKeys initial (last_bytes terminal.new.serial) terminal.new.keys }
    ensures forgotten { result ≡ OK
        → block_at terminal.new.keys (trailing_zeros w64 (counter_of terminal.new.serial))
        ≡ replicate 16 0 }
    ensures taken { result ≡ OK → key.new
        ≡ block_at terminal.old.keys (place_of (last_bytes terminal.new.serial)) }
    ensures registers { result ≡ OK → (place : ℕ) → block_at terminal.new.keys place
        ≡ register_after (last_bytes terminal.new.serial) terminal.old.keys place }
    ensures none { result ≢ OK → (result ≡ ERR_NO_SERIAL) × ((counter : ℕ)
        → counter_of terminal.old.serial < counter → ¬ (IsUsable counter)) }
    ensures kept { result ≢ OK → (terminal.new ≡ terminal.old)
        × (serial.new ≡ serial.old) × (key.new ≡ key.old) }
{
    match terminal.next_key() {
        Some(made) => {
            *serial = terminal.serial;
            *key = made;
            OK
        }
        None => ERR_NO_SERIAL,
    }
}
