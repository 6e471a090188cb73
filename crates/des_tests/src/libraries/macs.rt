//! The MACs through the bound that they share, over `Des` of `des`. The tests for C, Python and
//! Rust take those over `des_fast` through many more messages.

use des::Des;
use des_mac::{CbcMac, Cmac, Mac, Method1, Method2, RetailMac};

const KEY: [u8; 16] = *b"\x01\x23\x45\x67\x89\xab\xcd\xef\xfe\xdc\xba\x98\x76\x54\x32\x10";

const MESSAGE: [u8; 22] = *b"Now is the time for it";

// With the bytes of the padded message, K the digits of the first eight bytes of KEY three times,
// and an IV of sixteen digits 0, the CBC-MAC is OpenSSL's, the last block of
// openssl enc -des-ede3-cbc -nopad -K K -iv IV
// The retail MAC is the same block through openssl enc -d -des-ede3 -nopad -K L and then
// openssl enc -des-ede3 -nopad -K K, with L the digits of the last eight bytes of KEY three times.
// And that of CMAC under the first eight bytes is OpenSSL's too:
// printf '%s' MESSAGE | openssl mac -cipher DES-EDE3-CBC -macopt hexkey:K CMAC
// Of the message of no bytes they are made alike; padded it is one block.
const CBC_MAC: [u8; 8] = *b"\xa9\x24\xc7\x21\x36\x14\x92\x11";

const RETAIL_MAC: [u8; 8] = *b"\x2e\x2b\x14\x28\xcc\x78\x25\x4f";

const CMAC: [u8; 8] = *b"\x67\x54\x05\x9c\x96\x14\xae\x95";

const CBC_MAC_OF_NONE: [u8; 8] = *b"\xca\xee\x53\x4c\x52\x3e\x1e\x79";

const RETAIL_MAC_OF_NONE: [u8; 8] = *b"\x08\xd7\xb4\xfb\x62\x9d\x08\x85";

const CMAC_OF_NONE: [u8; 8] = *b"\x86\xf7\x9c\x13\xfd\x30\x6e\x67";

// The tag of the message in two pieces.
fn tag_of_pieces<M: Mac + Drop>(key: &[u8], head: &[u8], tail: &[u8]) -> Option<[u8; 8]> {
    let mut state = M::new_from_slice(key).ok()?;
    state.update(head);
    state.update(tail);
    Some(state.finalize())
}

// Whether the message has the tag in two pieces, cut at every place, and the one of no bytes has
// its own.
fn has_tag<M: Mac + Drop>(key: &[u8], tag: [u8; 8], of_none: [u8; 8]) -> bool {
    for cut in 0..23usize {
        let (head, tail) = MESSAGE.split_at(cut);
        if tag_of_pieces::<M>(key, head, tail) != Some(tag) {
            return false;
        }
    }
    M::mac(key, b"") == Ok(of_none)
}

fn macs_have_tags() -> bool {
    has_tag::<CbcMac<Des, Method2>>(&KEY[..8], CBC_MAC, CBC_MAC_OF_NONE)
        && has_tag::<RetailMac<Des, Method1>>(&KEY, RETAIL_MAC, RETAIL_MAC_OF_NONE)
        && has_tag::<Cmac<Des>>(&KEY[..8], CMAC, CMAC_OF_NONE)
}

#[test]
fn macs_over_des(rt: HostRuntime) {
    assert!(rt; macs_have_tags());
}
