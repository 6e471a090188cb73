//! That a terminal's keys are the host's, by the clauses of `Terminal`.

ghost use Rattle.std.specs.Prelude.{◌≡◌, IfSome};
ghost use Rattle.des_payment.specs.Dukpt.{transaction_key as transaction_key_of};

use des_payment::terminal::Terminal;

/// The key of a terminal's transaction after a number of others, and its key serial number: it is
/// the key that the host makes of that number.
pub fn key_after(initial: &[u8; 16], serial: &[u8; 10], others: u32) -> Option<([u8; 16], [u8; 10])>
    ensures { IfSome result (λ made. made.0 ≡ transaction_key_of initial.now made.1) }
{
    let mut terminal = Terminal::new(initial, serial);
    'others: for _ in 0..others {
        terminal.next_key()?;
    }
    let key = terminal.next_key()?;
    Some((key, terminal.serial))
}
