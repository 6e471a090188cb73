//! The five ciphers of `des`, each of which must pass all tests of a cipher.

use crate::tests::known::{DES, EDE2, EDE3, EEE2, EEE3, Known, PARTS};
use crate::tests::{blocks, generic};
use des::cipher::{AlgorithmName, KeyInit, KeyedCipher, ParBlocksSizeUser};

// Whether a type has its sizes and its name.
fn has_constants<C: KeyInit + ParBlocksSizeUser + AlgorithmName>(known: &Known) -> bool {
    C::KEY_SIZE == 8 * known.parts
        && C::BLOCK_SIZE == 8
        && C::PAR_BLOCKS == 1
        && C::NAME == known.name
}

// Whether a cipher of the first parts of a key gives what is known of it.
fn gives_known<C: KeyedCipher + Clone + Drop>(known: &Known) -> bool {
    match C::new_from_slice(known.key(&PARTS)) {
        Ok(cipher) => blocks::passes(&cipher, known) && generic::passes(&cipher, known),
        Err(_) => false,
    }
}

// Whether a cipher of which so much is known passes.
fn passes<C>(known: &Known) -> bool
where
    C: KeyedCipher + ParBlocksSizeUser + AlgorithmName + Clone + Drop,
{
    has_constants::<C>(known) && gives_known::<C>(known)
}

fn ede_forms_pass() -> bool {
    passes::<des::TdesEde3>(&EDE3) && passes::<des::TdesEde2>(&EDE2)
}

fn eee_forms_pass() -> bool {
    passes::<des::TdesEee3>(&EEE3) && passes::<des::TdesEee2>(&EEE2)
}

#[test]
fn ciphers_pass(rt: HostRuntime) {
    assert!(rt; passes::<des::Des>(&DES) && ede_forms_pass() && eee_forms_pass());
}
