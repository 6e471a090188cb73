//! Clones of each cipher, also if memory is refused (`tests/run`).

use des::cipher::{BlockCipherEncrypt, KeyInit};
use des_fast::{TdesEde2, TdesEde3, TdesEee2, TdesEee3};

// NIST Special Publication 800-67, appendix B: the first block, and what it is under the first part
// of the key, and under that part three times in the EEE forms: OpenSSL's answers, of `des-ecb` and
// of three runs of it. The EDE forms under equal parts are single DES.
const BLOCK: [u8; 8] = *b"The qufc";

const DES: [u8; 8] = *b"\xa2\x8e\x91\x72\x4c\x4b\xba\x31";

const EEE: [u8; 8] = *b"\x58\x7a\xbf\xcc\x0b\xd0\x6c\x36";

const ONE: [u8; 8] = *b"\x01\x23\x45\x67\x89\xab\xcd\xef";

const TWO: [u8; 16] = *b"\x01\x23\x45\x67\x89\xab\xcd\xef\x01\x23\x45\x67\x89\xab\xcd\xef";

const THREE: [u8; 24] =
    *b"\x01\x23\x45\x67\x89\xab\xcd\xef\x01\x23\x45\x67\x89\xab\xcd\xef\x01\x23\x45\x67\x89\xab\xcd\xef";

// Whether a clone of the cipher encrypts so.
fn is_cloned<C: BlockCipherEncrypt + Clone + Drop>(cipher: &C, encrypted: [u8; 8]) -> bool {
    let Ok(clone) = cipher.clone() else {
        return false;
    };
    let mut block = BLOCK;
    clone.encrypt_block(&mut block);
    block == encrypted
}

// The triple ciphers of both libraries have one body, over their single DES.
fn single_ciphers_are_cloned() -> bool {
    is_cloned(&des::Des::new(&ONE), DES) && is_cloned(&des_fast::Des::new(&ONE), DES)
}

fn triple_ciphers_are_cloned() -> bool {
    is_cloned(&TdesEde3::new(&THREE), DES)
        && is_cloned(&TdesEee3::new(&THREE), EEE)
        && is_cloned(&TdesEde2::new(&TWO), DES)
        && is_cloned(&TdesEee2::new(&TWO), EEE)
}

// These tests ask for no memory but in `clone`, so they hold whichever request is refused only if a
// clone asks for none.
#[test]
fn clones_without_memory(rt: HostRuntime) {
    assert!(rt; single_ciphers_are_cloned());
}

#[test]
fn triple_clones_without_memory(rt: HostRuntime) {
    assert!(rt; triple_ciphers_are_cloned());
}
