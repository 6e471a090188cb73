//! The modes by their numbers.

ghost use Rattle.std.specs.Prelude.{◌≡◌, ℕ, IfNone, IfSome};
ghost use Rattle.des_modes.specs.Modes.{IsMode, mode_by};

/// The number of the counter mode.
pub const CTR: u32 = 31;

/// The number of output feedback.
pub const OFB: u32 = 32;

/// The number of cipher feedback of one bit. 41 to 48 are those with segments of 1 to 8 bytes: 41
/// is that of 8 bits, 48 that of 64.
pub const CFB1: u32 = 40;

/// A mode that makes a stream cipher of a block cipher.
#[derive(Clone, Copy)]
pub enum Mode {
    /// The counter mode.
    Counter,
    /// Output feedback of 64 bits.
    OutputFeedback,
    /// Cipher feedback of one bit.
    BitFeedback,
    /// Cipher feedback with segments of this many bytes, 1 to 8.
    CipherFeedback(usize),
}

impl Mode {
    /// The mode of a number. `None` if no mode has it.
    pub fn of(number: u32) -> Option<Mode>
        ensures none { IfNone result (¬ (IsMode number)) }
        ensures some { IfSome result (λ mode. IsMode number × (mode ≡ mode_by number)) }
    {
        match number {
            CTR => Some(Mode::Counter),
            OFB => Some(Mode::OutputFeedback),
            CFB1 => Some(Mode::BitFeedback),
            41..=48 => Some(Mode::CipherFeedback((number - CFB1) as usize)),
            _ => None,
        }
    }
}
