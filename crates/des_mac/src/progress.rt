//! What a state has beside its ciphers, for callers that keep it in memory of their own.

ghost use Rattle.std.specs.Prelude.{ℕ, List, []};
ghost use Rattle.des_mac.specs.IsProgress.{IsProgressOf};

/// How far a MAC has come in its message: the chain, and the pending bytes of the last block with
/// their number. It is as secret as the message.
#[repr(C)]
#[derive(Clone, Copy)]
pub struct Progress {
    pub(crate) chain: [u8; 8],
    pub(crate) pending: [u8; 8],
    pub(crate) count: usize,
}

impl Progress {
    /// The progress of an empty message.
    pub fn new() -> Progress
        ensures { (encryption : List ℕ → List ℕ) → IsProgressOf encryption result [] }
    {
        Progress {
            chain: [0; 8],
            pending: [0; 8],
            count: 0,
        }
    }
}
