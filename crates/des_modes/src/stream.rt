//! Streams of any of the modes as plain words, for callers that keep them in memory of their own.

ghost use Rattle.std.specs.Prelude.{◌≡◌, ◌<◌, ◌≤◌, ◌+◌, ◌*◌, ◌%◌, ◌++◌, ℕ, Bool, List, [], length, drop, IfNone, IfSome};
ghost use Rattle.des.specs.Bits.{bits_of_bytes};
ghost use Rattle.des.specs.Blocks.{AreBytes, IsBlock};
ghost use Rattle.des_modes.specs.Cfb.{Cfb, CfbBits, cfb_bits, first_bits};
ghost use Rattle.des_modes.specs.Ctr.{Ctr};
ghost use Rattle.des_modes.specs.Streams.{plaintext, ciphertext};
ghost use Rattle.des_modes.specs.Modes.{InMode, IsMode};
ghost use Rattle.des_modes.specs.States.{HasBegun, HoldsLastBits, IsBitStreamAt, IsInMode, IsPlace, IsStreamAt, size_of};
ghost use Rattle.des_modes.specs.declared.modes.Mode.TheVariants.{BitFeedback};
ghost use Rattle.des_modes.specs.declared.modes.TheConstants.{CFB1, CTR};

use crate::cfb::CfbMode;
use crate::cfb_bits;
use crate::ctr::CtrMode;
use crate::direction::Direction;
use crate::feedback::Feedback;
use crate::modes::{CFB1, CTR, Mode};
use crate::ofb::OfbMode;
use crate::parts::apply_parts;
use crate::place::Place;
use des::cipher::{BlockCipherEncrypt, are_bytes};

/// The last word of a stream that has begun.
pub const MARK: u32 = 0x57e4a317;

// Encrypts or decrypts the bytes that come next in a mode.
fn apply_in<C: Feedback>(
    mode: Mode,
    direction: Direction,
    place: &mut Place,
    cipher: &C,
    bytes: &mut [u8],
)
    requires short { size_of mode ≤ 8 }
    requires fits { place.old.used < size_of mode }
    ensures fits { place.new.used < size_of mode }
    ensures after { (iv c : List ℕ) → IsPlace mode (C.encrypted cipher.now) iv c place.old
        → IsPlace mode (C.encrypted cipher.now) iv
        (c ++ ciphertext direction bytes.old bytes.new) place.new }
    ensures made { (iv p c : List ℕ) → IsPlace mode (C.encrypted cipher.now) iv c place.old
        → InMode mode (C.encrypted cipher.now) iv p c → InMode mode (C.encrypted cipher.now) iv
        (p ++ plaintext direction bytes.old bytes.new)
        (c ++ ciphertext direction bytes.old bytes.new) }
    ensures bits { mode ≡ BitFeedback → (iv : List ℕ) (c : List Bool)
        → HoldsLastBits iv c place.old.register → place.old.used ≡ 0 → HoldsLastBits iv
        (c ++ bits_of_bytes (ciphertext direction bytes.old bytes.new)) place.new.register
        × (place.new.used ≡ 0)
        × ((p : List Bool) → CfbBits 1 (C.encrypted cipher.now) iv p c
        → CfbBits 1 (C.encrypted cipher.now) iv
        (p ++ bits_of_bytes (plaintext direction bytes.old bytes.new))
        (c ++ bits_of_bytes (ciphertext direction bytes.old bytes.new))) }
{
    match mode {
        Mode::Counter => apply_parts(&CtrMode, direction, place, cipher, bytes),
        Mode::OutputFeedback => apply_parts(&OfbMode, direction, place, cipher, bytes),
        Mode::BitFeedback => {
            let bits = 8 * bytes.len() as u128;
            cfb_bits::apply(&mut place.register, direction, cipher, bytes, bits);
        }
        Mode::CipherFeedback(segment) => {
            apply_parts(&CfbMode { segment }, direction, place, cipher, bytes);
        }
    }
}

/// A stream as plain words: its place, the number of its mode, and a mark. `mode` gives `None` for
/// words that have no mark or can't be those of a stream.
#[repr(C)]
#[derive(Clone, Copy)]
pub struct Stream {
    pub(crate) place: Place,
    pub(crate) mode: u32,
    pub(crate) mark: u32,
}

impl Stream {
    /// The beginning of a stream in the mode that has this number, from an initialization vector,
    /// or for the counter mode the first counter block. `None` if no mode has it.
    pub fn new(number: u32, iv: &[u8; 8]) -> Option<Stream>
        ensures none { IfNone result (¬ (IsMode number)) }
        ensures some { IfSome result (λ stream. IsMode number × ((encryption : List ℕ → List ℕ)
            → IsStreamAt number encryption iv.now [] [] stream)) }
    {
        are_bytes(iv);
        Mode::of(number)?;
        Some(Stream {
            place: Place::new(iv),
            mode: number,
            mark: MARK,
        })
    }

    /// The place `blocks` blocks after the beginning of the counter mode's stream whose first
    /// counter block is `counter`. To decrypt a part, no other bytes are needed.
    pub fn ctr_at(counter: &[u8; 8], blocks: u64) -> Stream
        ensures begun { HasBegun result }
        ensures place { (encryption : List ℕ → List ℕ) (p c : List ℕ) → length p ≡ 8 * blocks
            → AreBytes c → Ctr encryption counter.now p c
            → IsStreamAt CTR encryption counter.now p c result }
    {
        are_bytes(counter);
        let there = u64::from_be_bytes(*counter).wrapping_add(blocks);
        Stream {
            place: Place::new(&there.to_be_bytes()),
            mode: CTR,
            mark: MARK,
        }
    }

    /// The place in a stream of cipher feedback before a segment of `segment` bytes: `before` is
    /// the last eight bytes of the initialization vector followed by the ciphertext before it. To
    /// decrypt a part, no others are needed.
    pub fn cfb_at(before: &[u8; 8], segment: usize) -> Stream
        requires some { 1 ≤ segment }
        requires short { segment ≤ 8 }
        ensures begun { HasBegun result }
        ensures place { (encryption : List ℕ → List ℕ) (iv p c : List ℕ) → IsBlock iv → AreBytes c
            → length c % segment ≡ 0 → before.now ≡ drop (length c) (iv ++ c)
            → Cfb segment encryption iv p c → IsStreamAt (CFB1 + segment) encryption iv p c result }
    {
        Stream {
            place: Place::new(before),
            mode: CFB1 + segment as u32,
            mark: MARK,
        }
    }

    /// The mode of the words, if they are those of a stream.
    pub fn mode(&self) -> Option<Mode>
        ensures none { IfNone result (¬ (HasBegun self.now)) }
        ensures some { IfSome result (λ mode. IsInMode mode self.now) }
    {
        let mode = Mode::of(self.mode)?;
        let size = match mode {
            Mode::Counter | Mode::OutputFeedback => 8,
            Mode::BitFeedback => 1,
            Mode::CipherFeedback(segment) => segment,
        };
        if self.mark == MARK && self.place.used < size {
            Some(mode)
        } else {
            None
        }
    }

    /// The number of the mode.
    pub fn number(&self) -> u32
        ensures { result ≡ self.now.mode }
    {
        self.mode
    }

    /// The feedback register: the counter block, the last output block, or the last 64 bits of the
    /// initialization vector followed by the ciphertext. In OFB it holds key stream, which is a
    /// secret.
    pub fn register(&self) -> [u8; 8]
        ensures { result ≡ self.now.place.register }
    {
        self.place.register
    }

    /// How many bytes of the current output block are used; 0 if the next byte takes a new one.
    pub fn used(&self) -> usize
        ensures { result ≡ self.now.place.used }
    {
        self.place.used
    }

    /// Encrypts or decrypts the bytes that come next in place, in the mode of the stream, which
    /// `mode` gave: any number of them. Pieces become what the whole becomes, wherever it is cut. A
    /// ciphertext has one plaintext, so that decryption undoes encryption.
    pub fn apply<C: Feedback>(
        &mut self,
        direction: Direction,
        mode: Mode,
        cipher: &C,
        bytes: &mut [u8],
    )
        requires { IsInMode mode self.old }
        ensures begun { HasBegun self.new }
        ensures bytes { (number : ℕ) (iv p c : List ℕ)
            → IsStreamAt number (C.encrypted cipher.now) iv p c self.old
            → IsStreamAt number (C.encrypted cipher.now) iv
            (p ++ plaintext direction bytes.old bytes.new)
            (c ++ ciphertext direction bytes.old bytes.new) self.new }
        ensures undone { (number : ℕ) (iv p c text : List ℕ)
            → IsStreamAt number (C.encrypted cipher.now) iv p c self.old
            → (mode ≡ BitFeedback → AreBytes text) → InMode mode (C.encrypted cipher.now) iv
            (p ++ text) (c ++ ciphertext direction bytes.old bytes.new)
            → plaintext direction bytes.old bytes.new ≡ text }
        ensures bits { (iv : List ℕ) (p c : List Bool)
            → IsBitStreamAt (C.encrypted cipher.now) iv p c self.old
            → IsBitStreamAt (C.encrypted cipher.now) iv
            (p ++ bits_of_bytes (plaintext direction bytes.old bytes.new))
            (c ++ bits_of_bytes (ciphertext direction bytes.old bytes.new)) self.new }
    {
        are_bytes(bytes);
        apply_in(mode, direction, &mut self.place, cipher, bytes);
        are_bytes(bytes);
    }

    /// Encrypts or decrypts the first `bits` bits in place, which come next in a stream of CFB1.
    /// The others stay.
    pub fn apply_bits<C: BlockCipherEncrypt>(
        &mut self,
        direction: Direction,
        cipher: &C,
        bytes: &mut [u8],
        bits: usize,
    )
        requires mode { IsInMode BitFeedback self.old }
        requires few { bits ≤ 8 * length bytes.old }
        ensures bits { (iv : List ℕ) (p c : List Bool)
            → IsBitStreamAt (C.encrypted cipher.now) iv p c self.old
            → IsBitStreamAt (C.encrypted cipher.now) iv
            (p ++ first_bits bits (plaintext direction bytes.old bytes.new))
            (c ++ first_bits bits (ciphertext direction bytes.old bytes.new)) self.new }
        ensures undone { (iv : List ℕ) (p c text : List Bool)
            → IsBitStreamAt (C.encrypted cipher.now) iv p c self.old
            → CfbBits 1 (C.encrypted cipher.now) iv
            (p ++ text) (c ++ first_bits bits (ciphertext direction bytes.old bytes.new))
            → first_bits bits (plaintext direction bytes.old bytes.new) ≡ text }
        ensures rest { drop bits (bits_of_bytes bytes.new) ≡ drop bits (bits_of_bytes bytes.old) }
    {
        let register = &mut self.place.register;
        cfb_bits::apply(register, direction, cipher, bytes, bits as u128);
    }
}
