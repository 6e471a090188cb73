//! Where a stream goes on, in any of the modes.

ghost use Rattle.std.specs.Prelude.{◌≡◌};

/// Where a stream goes on. `register` is the counter block in CTR, the last output block in OFB,
/// and the shift register in CFB; `output` is the output block of a segment of CFB that has begun;
/// `used` is how many bytes of the output block are used.
#[repr(C)]
#[derive(Clone, Copy)]
pub struct Place {
    pub(crate) register: [u8; 8],
    pub(crate) output: [u8; 8],
    pub(crate) used: usize,
}

impl Place {
    // A place between two output blocks: the beginning of a stream, or where a register is known.
    pub(crate) fn new(register: &[u8; 8]) -> Place
        ensures register { result.register ≡ register.now }
        ensures used { result.used ≡ 0 }
    {
        Place {
            register: *register,
            output: [0; 8],
            used: 0,
        }
    }
}
