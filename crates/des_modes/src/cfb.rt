//! Cipher feedback over any block cipher (FIPS 81, cipher feedback mode; NIST SP 800-38A, 6.3),
//! with segments of one to eight bytes: eight for the feedback of 64 bits, one for that of 8.

ghost use Rattle.std.specs.Prelude.{◌≡◌, ◌<◌, ◌≤◌, ◌+◌, ◌-◌, ◌*◌, ◌/◌, ◌%◌, ℕ, List, [], ◌++◌, length, take, drop, slice_index_or, nat_eq, if◌then◌else◌, bit_xor};
ghost use Rattle.des_modes.specs.Cfb.{cfb_stream, input_block};
ghost use Rattle.des_modes.specs.States.{IsPlace};
ghost use Rattle.des_modes.specs.Streams.{GoesOn, plaintext};
ghost use Rattle.des_modes.specs.declared.direction.Direction.TheVariants.{Encrypt, Decrypt};
ghost use Rattle.des_modes.specs.declared.modes.Mode.TheVariants.{CipherFeedback};

use crate::direction::Direction;
use crate::feedback::{Feedback, block_at};
use crate::parts::{BLOCKS_AT_A_TIME, TakesParts};
use crate::place::Place;
use crate::xored::{xor_block_from, xor_blocks_from, xor_segments};
use des::cipher::{BlockCipherEncrypt, are_blocks};

// The number of segments of `bytes` bytes, of which the last may be cut short.
fn count_of(bytes: usize, segment: usize) -> usize
    requires some { 1 ≤ segment }
    requires short { segment ≤ 8 }
    requires few { bytes ≤ segment * 256 }
    ensures few { result ≤ 256 }
    ensures enough { bytes ≤ segment * result }
    ensures begun { (j : ℕ) → j < result → segment * j < bytes }
    ensures last { 1 ≤ bytes % segment → bytes / segment < result }
{
    bytes.div_ceil(segment)
}

// Writes eight bytes into each block, one after another.
#[tactic(auto, using(crate::proofs::Pieces::chunks))]
fn write_blocks(blocks: &mut [[u8; 8]], bytes: &[u8])
    requires { 8 * length blocks.old ≤ length bytes.now }
    ensures { (j : ℕ) → j < length blocks.old
        → slice_index_or blocks.new j [] ≡ take 8 (drop (8 * j) bytes.now) }
{
    let (inputs, _) = bytes.as_chunks::<8>();
    blocks.copy_from_slice(&inputs[..blocks.len()]);
}

// Writes eight bytes into each block, from the beginning of its segment on.
fn write_inputs(blocks: &mut [[u8; 8]], bytes: &[u8], segment: usize)
    requires { (j : ℕ) → j < length blocks.old → segment * j + 8 ≤ length bytes.now }
    ensures { (j : ℕ) → j < length blocks.old
        → slice_index_or blocks.new j [] ≡ take 8 (drop (segment * j) bytes.now) }
{
    if segment == 8 {
        write_blocks(blocks, bytes);
        return;
    }
    'inputs: for j in 0..blocks.len() {
        let from = segment * j;
        blocks[j].copy_from_slice(&bytes[from..from + 8]);
    }
}

// Writes the output blocks of these input blocks.
fn write_outputs<C: BlockCipherEncrypt>(
    cipher: &C,
    blocks: &mut [[u8; 8]],
    bytes: &[u8],
    segment: usize,
)
    requires { (j : ℕ) → j < length blocks.old → segment * j + 8 ≤ length bytes.now }
    ensures { (j : ℕ) → j < length blocks.new → slice_index_or blocks.new j []
        ≡ C.encrypted cipher.now (take 8 (drop (segment * j) bytes.now)) }
{
    write_inputs(blocks, bytes, segment);
    cipher.encrypt_blocks(blocks);
}

// Writes the bytes of a register, and others behind them.
fn write_joined(joined: &mut [u8], register: &[u8; 8], bytes: &[u8])
    requires { length joined.old ≡ 8 + length bytes.now }
    ensures { joined.new ≡ register.now ++ bytes.now }
{
    let (front, rest) = joined.split_at_mut(8);
    front.copy_from_slice(register);
    rest.copy_from_slice(bytes);
}

// Shifts bytes into the register from the right.
fn shift(register: &mut [u8; 8], bytes: &[u8])
    requires { length bytes.now ≤ 8 }
    ensures { register.new ≡ drop (length bytes.now) (register.old ++ bytes.now) }
{
    // The two lengths that most streams have take no loop.
    if let Some(block) = bytes.as_array::<8>() {
        *register = *block;
        return;
    }
    if let [byte] = bytes {
        register.copy_within(1.., 0);
        register[7] = *byte;
        return;
    }
    let count = bytes.len();
    register.copy_within(count.., 0);
    register[8 - count..].copy_from_slice(bytes);
}

// A place in a segment, whose end is the beginning of the next.
#[inline]
fn within_segment(end: usize, segment: usize) -> usize
    requires some { 1 ≤ segment }
    requires within { end ≤ segment }
    ensures place { result ≡ end % segment }
    ensures inside { 1 ≤ result → end < segment }
{
    if end == segment { 0 } else { end }
}

/// Cipher feedback in segments of some bytes. The register of a place is the shift register, which
/// holds the last eight bytes of the initialization vector and the ciphertext; `output` is the
/// output block of a segment that has begun.
#[derive(Drop)]
pub(crate) struct CfbMode {
    pub(crate) segment: usize,
    ghost some: { 1 ≤ segment },
    ghost short: { segment ≤ 8 },
}

impl CfbMode {
    // The output block of the segment that the next byte stands in.
    #[inline]
    fn current<C: BlockCipherEncrypt>(&self, place: &Place, cipher: &C) -> [u8; 8]
        ensures { (iv c : List ℕ)
            → IsPlace (CipherFeedback self.now.segment) (C.encrypted cipher.now) iv c place.now
            → result ≡ C.encrypted cipher.now
            (input_block self.now.segment iv c (length c / self.now.segment)) }
    {
        let mut output = place.output;
        if place.used == 0 {
            output = place.register;
            cipher.encrypt_block(&mut output);
        }
        output
    }

    // Goes on by bytes of ciphertext in the segment of an output block.
    #[inline]
    fn advance(&self, place: &mut Place, output: &[u8; 8], bytes: &[u8])
        requires { place.old.used + length bytes.now ≤ self.now.segment }
        ensures fits { place.new.used < self.now.segment }
        ensures after { (encryption : List ℕ → List ℕ) (iv c : List ℕ)
            → IsPlace (CipherFeedback self.now.segment) encryption iv c place.old
            → output.now ≡ encryption (input_block self.now.segment iv c (length c / self.now.segment))
            → IsPlace (CipherFeedback self.now.segment) encryption iv (c ++ bytes.now) place.new }
    {
        let end = place.used + bytes.len();
        shift(&mut place.register, bytes);
        place.output = *output;
        place.used = within_segment(end, self.segment);
    }

    // Encrypts or decrypts bytes of one segment.
    fn apply_in_segment<C: BlockCipherEncrypt>(
        &self,
        direction: Direction,
        place: &mut Place,
        cipher: &C,
        bytes: &mut [u8],
    )
        requires { place.old.used + length bytes.old ≤ self.now.segment }
        ensures fits { place.new.used < self.now.segment }
        ensures goes { (iv : List ℕ) → GoesOn bit_xor 0
            (IsPlace (CipherFeedback self.now.segment) (C.encrypted cipher.now) iv)
            (cfb_stream self.now.segment (C.encrypted cipher.now) iv)
            direction place.old place.new bytes.old bytes.new }
    {
        let output = self.current(place, cipher);
        let used = place.used;
        match direction {
            Direction::Encrypt => {
                xor_block_from(bytes, &output, used);
                self.advance(place, &output, bytes);
            }
            Direction::Decrypt => {
                self.advance(place, &output, bytes);
                xor_block_from(bytes, &output, used);
            }
        }
    }

    // Encrypts segments of eight bytes together, of which the last may be cut short. Not inlined,
    // so that a text of one block clears no buffer for many.
    #[inline(never)]
    fn encrypt_segments<C: Feedback>(&self, place: &mut Place, cipher: &C, bytes: &mut [u8])
        requires wide { self.now.segment ≡ 8 }
        requires between { place.old.used ≡ 0 }
        requires some { 8 ≤ length bytes.old }
        requires few { length bytes.old ≤ 2048 }
        ensures fits { place.new.used < self.now.segment }
        ensures goes { (iv : List ℕ) → GoesOn bit_xor 0
            (IsPlace (CipherFeedback self.now.segment) (C.encrypted cipher.now) iv)
            (cfb_stream self.now.segment (C.encrypted cipher.now) iv)
            Encrypt place.old place.new bytes.old bytes.new }
    {
        let count = bytes.len();
        let mut outputs = [[0; 8]; BLOCKS_AT_A_TIME];
        let part = &mut outputs[..count_of(count, 8)];
        let (plaintext, _) = bytes.as_chunks::<8>();
        cipher.write_outputs(&place.register, plaintext, part);
        are_blocks(part);
        xor_blocks_from(bytes, part, 0);
        place.register.copy_from_slice(&bytes[count - 8..]);
        place.used = count % 8;
        place.output = block_at(part, count / 8);
    }

    // Decrypts segments together, of which the last may be cut short. Not inlined, as
    // `encrypt_segments`.
    #[inline(never)]
    fn decrypt_segments<C: BlockCipherEncrypt>(
        &self,
        place: &mut Place,
        cipher: &C,
        bytes: &mut [u8],
    )
        requires between { place.old.used ≡ 0 }
        requires few { length bytes.old ≤ self.now.segment * 256 }
        ensures fits { place.new.used < self.now.segment }
        ensures goes { (iv : List ℕ) → GoesOn bit_xor 0
            (IsPlace (CipherFeedback self.now.segment) (C.encrypted cipher.now) iv)
            (cfb_stream self.now.segment (C.encrypted cipher.now) iv)
            Decrypt place.old place.new bytes.old bytes.new }
    {
        let count = bytes.len();
        let mut joined = [0; 8 + 8 * BLOCKS_AT_A_TIME];
        let inputs = &mut joined[..8 + count];
        write_joined(inputs, &place.register, bytes);
        let mut blocks = [[0; 8]; BLOCKS_AT_A_TIME];
        let part = &mut blocks[..count_of(count, self.segment)];
        write_outputs(cipher, part, inputs, self.segment);
        xor_segments(bytes, part, self.segment);
        place.register.copy_from_slice(&inputs[count..]);
        place.used = count % self.segment;
        place.output = block_at(part, count / self.segment);
    }
}

impl<C: Feedback> TakesParts<C> for CfbMode {
    ghost mode = { λ cfb. CipherFeedback cfb.segment };

    ghost key_stream = { λ cfb encryption iv c. cfb_stream cfb.segment encryption iv c };

    // What is left of a segment that has begun; otherwise 256 segments, but only one to encrypt if
    // it has fewer than eight bytes.
    ghost limit = { λ cfb direction used.
        if nat_eq used 0 then
        (plaintext direction (if nat_eq cfb.segment 8 then 2048 else cfb.segment)
        (cfb.segment * 256)) else cfb.segment - used };

    fn most(&self, direction: Direction, place: &Place) -> usize {
        if place.used != 0 {
            return self.segment - place.used;
        }
        match direction {
            Direction::Encrypt if self.segment < 8 => self.segment,
            _ => self.segment * BLOCKS_AT_A_TIME,
        }
    }

    fn apply_part(&self, direction: Direction, place: &mut Place, cipher: &C, bytes: &mut [u8]) {
        match direction {
            // Only segments of eight bytes, between two of them, come several at once.
            Direction::Encrypt if bytes.len() > self.segment => {
                self.encrypt_segments(place, cipher, bytes);
            }
            Direction::Decrypt if place.used == 0 && bytes.len() > self.segment => {
                self.decrypt_segments(place, cipher, bytes);
            }
            _ => self.apply_in_segment(direction, place, cipher, bytes),
        }
    }
}
