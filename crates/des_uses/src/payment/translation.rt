//! What the clauses of translation and of blocks for cards give to a caller.

ghost use Rattle.std.specs.Prelude.{◌≡◌, IfOk};
ghost use Rattle.des.specs.TripleCiphers.{ede2_encryption, ede2_decryption};

use des_payment::pin_blocks::{decode_format_2, encode_format_2};
use des_payment::translation::{Format, translate, translate_format_1};
use des_payment::{Pin, TranslationError};

/// A block of format 0 under another pair of keys: it is the block in clear, encrypted anew.
pub fn under_another_pair(
    incoming: &[u8; 16],
    outgoing: &[u8; 16],
    account: &[u8],
    block: &[u8; 8],
) -> Result<[u8; 8], TranslationError>
    ensures { IfOk result (λ translated.
        translated ≡ ede2_encryption outgoing.now (ede2_decryption incoming.now block.now)) }
{
    translate(
        incoming,
        Format::Format0,
        outgoing,
        Format::Format0,
        account,
        &[0; 10],
        block,
    )
}

/// A block of format 1 that goes under another pair of keys and comes back is the same. What was
/// translated once is not refused.
pub fn there_and_back(
    incoming: &[u8; 16],
    outgoing: &[u8; 16],
    block: &[u8; 8],
) -> Result<[u8; 8], TranslationError>
    ensures { IfOk result (λ back. back ≡ block.now) }
{
    let sent = translate_format_1(incoming, outgoing, block)?;
    Ok(translate_format_1(outgoing, incoming, &sent).unwrap())
}

/// A PIN that goes to a card and comes back is the same.
pub fn kept_by_card(pin: &Pin) -> Pin
    ensures { result ≡ pin.now }
{
    decode_format_2(&encode_format_2(pin)).unwrap()
}
