//! MACs of a message that comes in pieces, over contexts, by the number that ISO/IEC 9797-1:2011
//! gives the algorithm: 1 is CBC-MAC, 3 the retail MAC over DES, 5 CMAC. The words of a MAC are a
//! context of its key with a mark of its own; those of the retail MAC are 34, of two keys of DES.

ghost use Rattle.std.specs.Prelude.{◌≡◌, ◌≢◌, ◌↔◌, ℕ, List, [], ◌++◌, length, take, drop, IsTrue};
ghost use Rattle.des.specs.Blocks.{IsKey};
ghost use Rattle.des_mac.specs.IsProgress.{HoldsOneBlock, IsProgressOf};
ghost use Rattle.des_mac.specs.Padding.{padded};
ghost use Rattle.des_mac.specs.RetailMac.{retail_mac_of};
ghost use Rattle.des_mac.specs.Tags.{IsTruncated};
ghost use Rattle.des_context.specs.Contexts.{HasCipherType, IsContextOf, IsMarked};
ghost use Rattle.des_context.specs.CipherTypes.{encryption_of};
ghost use Rattle.des_context.specs.MacAlgorithms.{IsAlgorithm, mac_by};
ghost use Rattle.des_context.specs.MacContexts.{AreMacWordsOf, HasMacCipherType, HasMacMark, IsAMac, IsMacOf, IsSoundMacIfMarked, key_size_of, words_of_cbc};
ghost use Rattle.des_context.specs.PaddingMethods.{padding_by, status_of};

use crate::ciphers::{CipherType, ContextCipher, dispatch_cipher, opened};
use crate::contexts::init_for;
use crate::status::{ERR_CONTEXT, ERR_KEY_LENGTH, ERR_PADDING_METHOD, ERR_TAG, OK};
use des::cipher::KeyedCipher;
use des_fast::box_lookup::{BoxLookup, NoTables, Tables};
use des_fast::single::Des;
use des_mac::mac::verify_truncated_left;
use des_mac::{CbcMac, Cmac, Mac, Method1, Method2, Progress, RetailMac};

/// How far a MAC has come in its message, and the number of the padding method.
#[repr(C)]
#[derive(Clone, Copy)]
pub struct MessageState {
    pub(crate) progress: Progress,
    pub(crate) padding: u32,
}

impl MessageState {
    // The message of no bytes.
    fn new(padding: u32) -> MessageState
        ensures progress { (encryption : List ℕ → List ℕ)
            → IsProgressOf encryption result.progress [] }
        ensures padding { result.padding ≡ padding }
    {
        MessageState {
            progress: Progress::new(),
            padding,
        }
    }
}

// Adds bytes to a message, under the cipher of a context: all MACs take bytes in the same way, by
// CBC.
#[inline(never)]
fn extend<C: ContextCipher>(context: &[u64], message: &mut MessageState, bytes: &[u8])
    requires cipher_type { HasCipherType C.CIPHER_TYPE context.now }
    requires made { (key : List ℕ) × IsContextOf context.now key }
    requires progress { HoldsOneBlock message.old.progress }
    ensures progress { (key m : List ℕ) → IsContextOf context.now key
        → IsProgressOf (encryption_of key) message.old.progress m
        → IsProgressOf (encryption_of key) message.new.progress (m ++ bytes.now) }
    ensures padding { message.new.padding ≡ message.old.padding }
{
    let mut mac = CbcMac::<C, Method1>::resume(C::of(context), &message.progress);
    mac.update(bytes);
    message.progress = mac.progress();
}

// Adds bytes by the cipher of a type, which reads tables or not, as its lookup does.
fn extend_with<W: BoxLookup>(
    cipher: CipherType,
    context: &[u64],
    message: &mut MessageState,
    bytes: &[u8],
)
    requires cipher_type { HasCipherType cipher context.now }
    requires made { (key : List ℕ) × IsContextOf context.now key }
    requires progress { HoldsOneBlock message.old.progress }
    ensures progress { (key m : List ℕ) → IsContextOf context.now key
        → IsProgressOf (encryption_of key) message.old.progress m
        → IsProgressOf (encryption_of key) message.new.progress (m ++ bytes.now) }
    ensures padding { message.new.padding ≡ message.old.padding }
{
    dispatch_cipher!(cipher, W, extend(context, message, bytes))
}

// Adds bytes by the cipher of a context, which reads tables or none.
fn extend_by(
    cipher: CipherType,
    no_tables: bool,
    context: &[u64],
    message: &mut MessageState,
    bytes: &[u8],
)
    requires cipher_type { HasCipherType cipher context.now }
    requires made { (key : List ℕ) × IsContextOf context.now key }
    requires progress { HoldsOneBlock message.old.progress }
    ensures progress { (key m : List ℕ) → IsContextOf context.now key
        → IsProgressOf (encryption_of key) message.old.progress m
        → IsProgressOf (encryption_of key) message.new.progress (m ++ bytes.now) }
    ensures padding { message.new.padding ≡ message.old.padding }
{
    if no_tables {
        extend_with::<NoTables>(cipher, context, message, bytes);
    } else {
        extend_with::<Tables>(cipher, context, message, bytes);
    }
}

// Writes the words of a key.
fn write_words(algorithm: u32, context: &mut [u64], key: &[u8], no_tables: bool)
    requires by { IsAlgorithm algorithm }
    requires cipher_type { HasMacCipherType algorithm context.old }
    requires key { length key.now ≡ key_size_of context.old }
    ensures made { AreMacWordsOf algorithm context.new key.now }
    ensures no_tables { IsMarked algorithm no_tables (words_of_cbc algorithm context.new) }
    ensures second_no_tables { algorithm ≡ 3 → IsMarked algorithm no_tables (drop 17 context.new) }
{
    if algorithm == 3 {
        let (first, second) = context.split_at_mut(17);
        let (first_key, second_key) = key.split_at(8);
        init_for(algorithm, first, first_key, no_tables);
        init_for(algorithm, second, second_key, no_tables);
    } else {
        init_for(algorithm, context, key, no_tables);
    }
}

/// Makes the words of a MAC of the bytes of a key, without tables, so that its calls read none, or
/// with them, and of the message of no bytes, with padding method 1 or 2. The status for a key of a
/// length that the words cannot hold is `ERR_KEY_LENGTH`, and for any other padding
/// `ERR_PADDING_METHOD`; the words and the message are then unchanged.
pub fn init(
    algorithm: u32,
    context: &mut [u64],
    message: &mut MessageState,
    key: &[u8],
    padding: u32,
    no_tables: bool,
) -> i32
    requires by { IsAlgorithm algorithm }
    requires cipher_type { HasMacCipherType algorithm context.old }
    ensures status { result ≡ status_of (key_size_of context.old) (length key.now) padding }
    ensures made { result ≡ OK → IsMacOf algorithm context.new message.new padding key.now [] }
    ensures no_tables { result ≡ OK → IsMarked algorithm no_tables (words_of_cbc algorithm context.new) }
    ensures second_no_tables { result ≡ OK → algorithm ≡ 3
        → IsMarked algorithm no_tables (drop 17 context.new) }
    ensures kept { result ≢ OK → (context.new ≡ context.old) × (message.new ≡ message.old) }
{
    if key.len() != context.len() / 16 * 8 {
        return ERR_KEY_LENGTH;
    }
    if padding != 1 && padding != 2 {
        return ERR_PADDING_METHOD;
    }
    write_words(algorithm, context, key, no_tables);
    *message = MessageState::new(padding);
    OK
}

// The words of the cipher that goes by CBC.
fn cbc_words(algorithm: u32, context: &[u64]) -> &[u64]
    requires { HasMacCipherType algorithm context.now }
    ensures { result.now ≡ words_of_cbc algorithm context.now }
{
    if algorithm == 3 {
        &context[..17]
    } else {
        context
    }
}

/// Adds bytes to the message, after those that it has. The status for words that `init` did not
/// make for the algorithm is `ERR_CONTEXT`; the message is then unchanged.
pub fn update(algorithm: u32, context: &[u64], message: &mut MessageState, bytes: &[u8]) -> i32
    requires cipher_type { HasMacCipherType algorithm context.now }
    requires sound { IsSoundMacIfMarked algorithm context.now message.old }
    ensures accepted { (result ≡ OK) ↔ HasMacMark algorithm context.now }
    ensures unmarked { (result ≡ ERR_CONTEXT) ↔ ¬ (HasMacMark algorithm context.now) }
    ensures added { result ≡ OK → (padding : ℕ) (key m : List ℕ)
        → IsMacOf algorithm context.now message.old padding key m
        → IsMacOf algorithm context.now message.new padding key (m ++ bytes.now) }
    ensures kept { result ≢ OK → message.new ≡ message.old }
{
    let cbc = cbc_words(algorithm, context);
    let Some((cipher, no_tables)) = opened(algorithm, cbc) else {
        return ERR_CONTEXT;
    };
    extend_by(cipher, no_tables, cbc, message, bytes);
    OK
}

// The tag of CBC-MAC, or of CMAC, of a message, under the cipher of a context.
#[inline(never)]
fn one_cipher_tag<C: ContextCipher>(
    context: &[u64],
    algorithm: u32,
    message: &MessageState,
) -> [u8; 8]
    requires cipher_type { HasCipherType C.CIPHER_TYPE context.now }
    requires made { (key : List ℕ) × IsContextOf context.now key }
    requires progress { HoldsOneBlock message.now.progress }
    requires one_key { algorithm ≢ 3 }
    ensures { (key m : List ℕ) → IsContextOf context.now key
        → IsProgressOf (encryption_of key) message.now.progress m
        → result ≡ mac_by algorithm message.now.padding key m }
{
    let cipher = C::of(context);
    if algorithm != 1 {
        Cmac::<C>::resume(cipher, &message.progress).finalize()
    } else if message.padding == 2 {
        CbcMac::<C, Method2>::resume(cipher, &message.progress).finalize()
    } else {
        CbcMac::<C, Method1>::resume(cipher, &message.progress).finalize()
    }
}

// The tag by a cipher that reads tables or not, as its lookup does.
fn one_cipher_tag_by<W: BoxLookup>(
    context: &[u64],
    algorithm: u32,
    message: &MessageState,
) -> [u8; 8]
    requires made { (key : List ℕ) × IsContextOf context.now key }
    requires progress { HoldsOneBlock message.now.progress }
    requires one_key { algorithm ≢ 3 }
    ensures { (key m : List ℕ) → IsContextOf context.now key
        → IsProgressOf (encryption_of key) message.now.progress m
        → result ≡ mac_by algorithm message.now.padding key m }
{
    let cipher = CipherType::of_key_size(context.len() / 2);
    dispatch_cipher!(cipher, W, one_cipher_tag(context, algorithm, message))
}

// The tag of the retail MAC of a message, under two ciphers.
fn retail_tag<C: KeyedCipher + Drop>(first: C, second: C, message: &MessageState) -> [u8; 8]
    requires { HoldsOneBlock message.now.progress }
    ensures { (key m : List ℕ)
        → IsKey C.KEY_SIZE (take C.KEY_SIZE key) → C.is_made_from first (take C.KEY_SIZE key)
        → IsKey C.KEY_SIZE (drop C.KEY_SIZE key) → C.is_made_from second (drop C.KEY_SIZE key)
        → IsProgressOf (C.encryption (take C.KEY_SIZE key)) message.now.progress m
        → result ≡ retail_mac_of C.KEY_SIZE C.encryption C.decryption key
        (padded (padding_by message.now.padding) m) }
{
    if message.padding == 2 {
        RetailMac::<C, Method2>::resume(first, second, &message.progress).finalize()
    } else {
        RetailMac::<C, Method1>::resume(first, second, &message.progress).finalize()
    }
}

// The tag of a message, by ciphers that read tables or not, as their lookup does.
fn tag_by<W: BoxLookup>(algorithm: u32, context: &[u64], message: &MessageState) -> [u8; 8]
    requires { IsAMac algorithm context.now message.now }
    ensures { (padding : ℕ) (key m : List ℕ)
        → IsMacOf algorithm context.now message.now padding key m
        → result ≡ mac_by algorithm padding key m }
{
    if algorithm == 3 {
        let (first, second) = context.split_at(17);
        retail_tag::<Des<W>>(Des::of(first), Des::of(second), message)
    } else {
        one_cipher_tag_by::<W>(context, algorithm, message)
    }
}

// The tag of the message.
fn tag(algorithm: u32, no_tables: bool, context: &[u64], message: &MessageState) -> [u8; 8]
    requires { IsAMac algorithm context.now message.now }
    ensures { (padding : ℕ) (key m : List ℕ)
        → IsMacOf algorithm context.now message.now padding key m
        → result ≡ mac_by algorithm padding key m }
{
    if no_tables {
        tag_by::<NoTables>(algorithm, context, message)
    } else {
        tag_by::<Tables>(algorithm, context, message)
    }
}

/// Writes the tag of the message, which may go on. The status is as for `update`, and the tag of
/// words that it refuses is unchanged.
pub fn write_tag(
    algorithm: u32,
    context: &[u64],
    message: &MessageState,
    place: &mut [u8; 8],
) -> i32
    requires cipher_type { HasMacCipherType algorithm context.now }
    requires sound { IsSoundMacIfMarked algorithm context.now message.now }
    ensures accepted { (result ≡ OK) ↔ HasMacMark algorithm context.now }
    ensures unmarked { (result ≡ ERR_CONTEXT) ↔ ¬ (HasMacMark algorithm context.now) }
    ensures tag { result ≡ OK → (padding : ℕ) (key m : List ℕ)
        → IsMacOf algorithm context.now message.now padding key m
        → place.new ≡ mac_by algorithm padding key m }
    ensures kept { result ≢ OK → place.new ≡ place.old }
{
    let Some((_, no_tables)) = opened(algorithm, cbc_words(algorithm, context)) else {
        return ERR_CONTEXT;
    };
    *place = tag(algorithm, no_tables, context, message);
    OK
}

/// Accepts the first 4 to 8 bytes of the tag of the message: the status of all others is `ERR_TAG`.
/// That of words that `init` did not make for the algorithm is `ERR_CONTEXT`.
pub fn verify(algorithm: u32, context: &[u64], message: &MessageState, tag_bytes: &[u8]) -> i32
    requires cipher_type { HasMacCipherType algorithm context.now }
    requires sound { IsSoundMacIfMarked algorithm context.now message.now }
    ensures unmarked { (result ≡ ERR_CONTEXT) ↔ ¬ (HasMacMark algorithm context.now) }
    ensures accepted { (padding : ℕ) (key m : List ℕ)
        → IsMacOf algorithm context.now message.now padding key m
        → (result ≡ OK) ↔ (HasMacMark algorithm context.now
        × IsTruncated tag_bytes.now (mac_by algorithm padding key m)) }
    ensures refused { (padding : ℕ) (key m : List ℕ)
        → IsMacOf algorithm context.now message.now padding key m
        → (result ≡ ERR_TAG) ↔ (HasMacMark algorithm context.now
        × ¬ (IsTruncated tag_bytes.now (mac_by algorithm padding key m))) }
{
    let Some((_, no_tables)) = opened(algorithm, cbc_words(algorithm, context)) else {
        return ERR_CONTEXT;
    };
    match verify_truncated_left(tag_bytes, &tag(algorithm, no_tables, context, message)) {
        Ok(()) => OK,
        Err(_) => ERR_TAG,
    }
}
