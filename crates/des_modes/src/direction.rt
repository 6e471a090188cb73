//! The two directions of a mode.

ghost use Rattle.std.specs.Prelude.{◌≡◌};
ghost use Rattle.des_modes.specs.Streams.{ciphertext as ciphertext_of};

/// Whether a text is encrypted or decrypted.
#[derive(Clone, Copy)]
pub enum Direction {
    /// Plaintext becomes ciphertext.
    Encrypt,
    /// Ciphertext becomes plaintext.
    Decrypt,
}

impl Direction {
    /// The bit of the ciphertext, of the bits before and after a call in place.
    #[inline]
    pub(crate) fn ciphertext(self, old: bool, new: bool) -> bool
        ensures { result ≡ ciphertext_of self old new }
    {
        match self {
            Direction::Encrypt => new,
            Direction::Decrypt => old,
        }
    }
}
