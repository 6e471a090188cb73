//! The exports of payment formats: check values, keys of components, PIN blocks and their
//! translation, PIN verification, the keys of a transaction at the host and in the terminal, card
//! verification values, card cryptograms, and key blocks.

ghost use Rattle.std.specs.Prelude.{◌≡◌, ◌≤◌, length};
ghost use Rattle.des_c.specs.Texts.{with_zeros};

mod card_verification;
mod check_values;
mod components;
mod dukpt;
mod emv;
mod key_blocks;
mod pin_blocks;
mod pin_verification;
mod terminal;
mod translation;

// Writes a text, and then zeros.
fn put(text: &[u8], place: &mut [u8])
    requires { length text.now ≤ length place.old }
    ensures { place.new ≡ with_zeros (length place.old) text.now }
{
    place.fill(0);
    place[..text.len()].copy_from_slice(text);
}
