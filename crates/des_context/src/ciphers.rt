//! The cipher of a context, made anew for each call. Which one it is, and whether it may read
//! tables, is known only at run time: the number of words and the mark say so.

ghost use Rattle.std.specs.Prelude.{◌≡◌, ◌↔◌, ◌≤◌, ◌<◌, ◌*◌, ℕ, List, length, map, IsSome, IfSome};
ghost use Rattle.des.specs.Blocks.{part};
ghost use Rattle.des_fast.specs.Des.{IsDesMadeFrom};
ghost use Rattle.des_context.specs.declared.ciphers.CipherType.{CipherType as CipherTypeOfKeys};
ghost use Rattle.des_context.specs.declared.ciphers.CipherType.TheVariants as cipher_types;
ghost use Rattle.des_context.specs.Contexts.{HasCipherType, HasMark, IsContextOf, IsMarked, mark_of};
ghost use Rattle.des_context.specs.CipherTypes.{cipher_type_of_length, decryption_of, encryption_of, parts_of};
ghost use Rattle.des_context.specs.Keys.{IsKeyLength, keys_of};
ghost use Rattle.des_context.specs.CipherTypeLaws.{RelatesByLength, RelatesByLength-cipher_type, by_length-cipher_type};

use des::cipher::Relating;
use des::tdes::{self, Ede2, Ede3};
use des_fast::box_lookup::BoxLookup;
use des_fast::round_keys::from_words;
use des_fast::single::Des;

/// What each mark begins with: no round key has a word that does.
pub const MARK: u64 = 0xc0de000000000000;

/// The number of no algorithm of a MAC, in the marks of ciphers.
pub const NO_MAC: u32 = 0;

/// A type of cipher: DES, or triple DES in the EDE form.
#[derive(Clone, Copy)]
pub enum CipherType {
    /// DES, with a key of 8 bytes.
    Des,
    /// Triple DES in the EDE form, with a key of 16 bytes, two parts.
    Ede2,
    /// Triple DES in the EDE form, with a key of 24 bytes, three parts.
    Ede3,
}

impl CipherType {
    /// The type of cipher whose keys have this many bytes: 8, 16 or 24.
    #[inline(always)]
    pub(crate) fn of_key_size(bytes: usize) -> CipherType
        ensures by_length { result ≡ cipher_type_of_length bytes }
        ensures size { IsKeyLength bytes → bytes ≡ 8 * parts_of result }
    {
        match bytes {
            8 => CipherType::Des,
            16 => CipherType::Ede2,
            _ => CipherType::Ede3,
        }
    }
}

/// The mark of contexts with this number of words.
pub(crate) fn mark(algorithm: u32, no_tables: bool, words: usize) -> u64
    ensures { result ≡ mark_of algorithm no_tables words }
{
    MARK + 0x10000 * algorithm as u64 + (if no_tables { 0x100 } else { 0 }) + (words / 16) as u64
}

/// The type of cipher of a context, and whether its calls are to read no table. `None` if the words
/// do not end with a mark of the algorithm.
pub(crate) fn opened(algorithm: u32, context: &[u64]) -> Option<(CipherType, bool)>
    ensures marked { IsSome result ↔ HasMark algorithm context.now }
    ensures cipher_type { IfSome result (λ opened. (key : List ℕ) → IsContextOf context.now key
        → HasCipherType opened.0 context.now) }
    ensures no_tables { IfSome result (λ opened. IsMarked algorithm opened.1 context.now) }
{
    let last = *context.last()?;
    let no_tables = last == mark(algorithm, true, context.len());
    if no_tables || last == mark(algorithm, false, context.len()) {
        Some((CipherType::of_key_size(context.len() / 2), no_tables))
    } else {
        None
    }
}

/// A cipher that the contexts of its type make.
pub trait ContextCipher: Relating + Drop {
    ghost CIPHER_TYPE: { CipherTypeOfKeys };

    /// The cipher of a context.
    fn of(context: &[u64]) -> Self
        requires cipher_type { HasCipherType CIPHER_TYPE context.now }
        requires made { (key : List ℕ) × IsContextOf context.now key }
        ensures { (key : List ℕ) → IsContextOf context.now key → Self.is_made_from result key };

    /// The keys in a list of bytes, one after another.
    fn keys_in(bytes: &[u8]) -> &[Self::Key]
        ensures { map Self.Key.bytes_of result.now ≡ keys_of Self.KEY_SIZE bytes.now };

    // What the cipher makes of blocks is what `encryption_of` and `relation_of` say of its key.
    ghost relates_by_length: { (cipher : Self) (key : List ℕ) → Self.is_made_from cipher key
        → RelatesByLength Self.KEY_SIZE Self.encryption Self.relation key };

    // A key of this size says the same by its length, if no cipher was made of it.
    ghost by_length: { (key : List ℕ) → length key ≡ Self.KEY_SIZE
        → (Self.encryption key ≡ encryption_of key) × (Self.decryption key ≡ decryption_of key) };
}

impl<W: BoxLookup> ContextCipher for Des<W> {
    ghost CIPHER_TYPE = { cipher_types.Des };

    #[inline(always)]
    fn of(context: &[u64]) -> Des<W> {
        from_words(context, 1)
    }

    ghost relates_by_length = { λ _ key made. RelatesByLength-cipher_type cipher_types.Des key made.0.0 };

    ghost by_length = { by_length-cipher_type cipher_types.Des };

    fn keys_in(bytes: &[u8]) -> &[[u8; 8]] {
        bytes.as_chunks().0
    }
}

impl<W: BoxLookup> ContextCipher for Ede2<Des<W>> {
    ghost CIPHER_TYPE = { cipher_types.Ede2 };

    #[inline(always)]
    fn of(context: &[u64]) -> Ede2<Des<W>> {
        tdes::of_two(from_words(context, 1), from_words(context, 2))
    }

    ghost relates_by_length = { λ _ key made. RelatesByLength-cipher_type cipher_types.Ede2 key made.0.0 };

    ghost by_length = { by_length-cipher_type cipher_types.Ede2 };

    fn keys_in(bytes: &[u8]) -> &[[u8; 16]] {
        bytes.as_chunks().0
    }
}

impl<W: BoxLookup> ContextCipher for Ede3<Des<W>> {
    ghost CIPHER_TYPE = { cipher_types.Ede3 };

    #[inline(always)]
    fn of(context: &[u64]) -> Ede3<Des<W>> {
        tdes::of_three(
            from_words(context, 1),
            from_words(context, 2),
            from_words(context, 3),
        )
    }

    ghost relates_by_length = { λ _ key made. RelatesByLength-cipher_type cipher_types.Ede3 key made.0.0 };

    ghost by_length = { by_length-cipher_type cipher_types.Ede3 };

    fn keys_in(bytes: &[u8]) -> &[[u8; 24]] {
        bytes.as_chunks().0
    }
}

/// Calls a generic function with the cipher of a type, by tables or by the lookup that is named.
/// What it calls is not inlined: otherwise each call would take the stack of the largest cipher.
macro_rules! dispatch_cipher {
    ($cipher:expr, $call:ident $(::<$slice:ident>)?($($argument:expr),*)) => {
        $crate::ciphers::dispatch_cipher!(
            $cipher, des_fast::box_lookup::Tables, $call $(::<$slice>)?($($argument),*)
        )
    };
    ($cipher:expr, $($lookup:ident)::+, $call:ident $(::<$slice:ident>)?($($argument:expr),*)) => {
        match $cipher {
            $crate::ciphers::CipherType::Des => {
                $call::<des_fast::single::Des<$($lookup)::+> $(, $slice)?>($($argument),*)
            }
            $crate::ciphers::CipherType::Ede2 => {
                $call::<des::tdes::Ede2<des_fast::single::Des<$($lookup)::+>> $(, $slice)?>($($argument),*)
            }
            $crate::ciphers::CipherType::Ede3 => {
                $call::<des::tdes::Ede3<des_fast::single::Des<$($lookup)::+>> $(, $slice)?>($($argument),*)
            }
        }
    };
}

pub(crate) use dispatch_cipher;
