//! The forms of values: what surrounds the encrypted blocks, and what surrounds the text in them.

ghost use Rattle.std.specs.Prelude.{◌≡◌, ◌==◌, ◌≤◌, ◌*◌, ◌%◌, ◌∷◌, length, take};
ghost use Rattle.std.specs.List.{list_all};
ghost use Rattle.std.specs.Simd.Lanes.{zip2};
ghost use Rattle.des.specs.Cbc.{xor_blocks};
ghost use Rattle.des_columns.specs.Forms.{HasVector, fault_before, filled_to, mode_after, part_of, pkcs7_size, size_in, status_after, text_after, xored};
ghost use Rattle.des_columns.specs.Mysql.{has_form, last_of};

use crate::status::{ERR_BLOCKS, ERR_NOT_ENCRYPTED, ERR_PADDING, OK};
use des::cbc;
use des::cipher::are_blocks;

/// How the blocks of a value were encrypted.
#[derive(Clone, Copy)]
pub enum BlockMode {
    /// Each block by itself.
    Ecb,
    /// By cipher block chaining from this vector.
    Cbc([u8; 8]),
}

/// What stands in a value around its blocks, and in these around the text.
#[derive(Clone, Copy, Debug, PartialEq, Eq)]
pub enum ValueForm {
    /// A byte that names the key before the blocks, and MySQL's padding in them.
    Mysql,
    /// The padding of PKCS#7 (RFC 5652, section 6.3).
    Pkcs7,
    /// The text alone, whole blocks.
    Unpadded,
}

/// What was read of a value: a status, and how many bytes of text.
#[derive(Clone, Copy)]
pub(crate) struct Reading {
    pub status: i32,
    pub length: usize,
}

// Whether a server of MySQL takes bytes for encrypted: the first has its highest bit, and one or
// more blocks of 8 bytes follow it.
fn is_encrypted(value: &[u8]) -> bool
    ensures { result ≡ has_form value.now }
{
    value.len() >= 9 && value.len() % 8 == 1 && value[0] >= 128
}

impl BlockMode {
    // The vector has 8 bytes: what the type says, for those that cite it.
    pub(crate) fn has_vector(self)
        ensures { HasVector self }
    {
        if let BlockMode::Cbc(iv) = self {
            are_blocks(&[iv]);
        }
    }

    /// Finishes the decryption of blocks of which the cipher has decrypted each (in CBC by the xor
    /// with the block before), and returns the mode of the blocks that follow.
    pub(crate) fn xor_previous(self, blocks: &[[u8; 8]], answers: &mut [[u8; 8]]) -> BlockMode
        requires { length answers.old ≡ length blocks.now }
        ensures xored { answers.new ≡ xored self blocks.now answers.old }
        ensures mode { result ≡ mode_after self blocks.now }
    {
        match self {
            BlockMode::Ecb => self,
            BlockMode::Cbc(iv) => {
                xor_previous(&iv, blocks, answers);
                BlockMode::Cbc(cbc::next_vector(&iv, blocks))
            }
        }
    }
}

impl ValueForm {
    /// Why a value can't be decrypted.
    pub(crate) fn fault_before(self, value: &[u8]) -> Option<i32>
        ensures { result ≡ fault_before self value.now }
    {
        let whole = value.len() % 8 == 0;
        match self {
            ValueForm::Mysql if value.is_empty() || is_encrypted(value) => None,
            ValueForm::Mysql => Some(ERR_NOT_ENCRYPTED),
            ValueForm::Pkcs7 if whole && !value.is_empty() => None,
            ValueForm::Unpadded if whole => None,
            _ => Some(ERR_BLOCKS),
        }
    }

    /// The bytes of a value that were encrypted, whole blocks: none of one that can't be decrypted.
    pub(crate) fn part_of(self, value: &[u8]) -> &[u8]
        ensures part { result.now ≡ part_of self value.now }
        ensures whole { length result.now % 8 ≡ 0 }
        ensures within { length result.now ≤ length value.now }
    {
        match (self.fault_before(value), self) {
            (Some(_), _) => &value[..0],
            (None, ValueForm::Mysql) => &value[value.len().min(1)..],
            (None, _) => value,
        }
    }

    // How many bytes of text what was decrypted has, if it ends with the padding.
    fn size_in(self, plain: &[u8]) -> Option<usize>
        requires { length plain.now % 8 ≡ 0 }
        ensures size { result ≡ size_in self plain.now }
    {
        let last = match plain.last() {
            Some(byte) => *byte as usize,
            None => 0,
        };
        match self {
            ValueForm::Mysql if last <= 8 => Some(plain.len() - last),
            ValueForm::Mysql => None,
            ValueForm::Pkcs7 => pkcs7_size(last, plain),
            ValueForm::Unpadded => Some(plain.len()),
        }
    }
}

// How many bytes stand before the padding of PKCS#7, n bytes with the value n.
fn pkcs7_size(n: usize, plain: &[u8]) -> Option<usize>
    ensures { result ≡ pkcs7_size n plain.now }
{
    if n < 1 || n > 8 || n > plain.len() {
        return None;
    }
    let size = plain.len() - n;
    if are_all(n, &plain[size..]) {
        Some(size)
    } else {
        None
    }
}

// Whether each byte has this value.
fn are_all(value: usize, bytes: &[u8]) -> bool
    ensures { result ≡ list_all (λ byte. byte == value) bytes.now }
{
    bytes.iter().all(|byte| *byte as usize == value)
}

// Takes blocks out of the chain from a vector, once each was decrypted.
fn xor_previous(iv: &[u8; 8], blocks: &[[u8; 8]], answers: &mut [[u8; 8]])
    requires { length answers.old ≡ length blocks.now }
    ensures { answers.new ≡ zip2 xor_blocks answers.old (iv.now ∷ blocks.now) }
{
    let mut before = *iv;
    'steps: for k in 0..answers.len() {
        cbc::xor(&mut answers[k], &before);
        before = blocks[k];
    }
}

/// Makes of what was decrypted of a value, at the front of its place, the text and zeros; or zeros
/// alone, if the value could not be decrypted.
pub(crate) fn finish(form: ValueForm, fault: Option<i32>, count: usize, place: &mut [u8]) -> Reading
    requires whole { count % 8 ≡ 0 }
    requires count { count ≤ length place.old }
    ensures status { result.status ≡ status_after fault (size_in form (take count place.old)) }
    ensures length { result.length
        ≡ length (text_after fault (size_in form (take count place.old)) (take count place.old)) }
    ensures text { place.new ≡ filled_to (length place.old)
        (text_after fault (size_in form (take count place.old)) (take count place.old)) }
{
    let reading = match fault {
        Some(status) => Reading { status, length: 0 },
        None => match form.size_in(&place[..count]) {
            Some(length) => Reading { status: OK, length },
            None => Reading {
                status: ERR_PADDING,
                length: 0,
            },
        },
    };
    place[reading.length..].fill(0);
    reading
}
