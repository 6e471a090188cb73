//! Blocks and lists, by every call of `BlockCipher`.

use crate::tests::known::{Known, PLAINTEXT, blocks};
use des::cipher::BlockCipher;

type List = [[u8; 8]; 3];

// Whether the first block of a list becomes that of the ciphertext by encryption, and itself again
// by decryption, in place and from block to block.
fn block_goes_there_and_back<C: BlockCipher>(cipher: &C, list: &List, ciphertext: &List) -> bool {
    let (mut there, mut back, mut place) = ([0xa5; 8], [0xa5; 8], list[0]);
    cipher.encrypt_block_b2b(&list[0], &mut there);
    cipher.decrypt_block_b2b(&ciphertext[0], &mut back);
    cipher.encrypt_block(&mut place);
    let encrypted = place;
    cipher.decrypt_block(&mut place);
    [there, encrypted, back, place] == [ciphertext[0], ciphertext[0], list[0], list[0]]
}

// Whether the whole list does.
fn list_goes_there_and_back<C: BlockCipher>(cipher: &C, list: &List, ciphertext: &List) -> bool {
    let (mut there, mut back, mut place) = ([[0xa5; 8]; 3], [[0xa5; 8]; 3], *list);
    let are_of_one_length = cipher.encrypt_blocks_b2b(list, &mut there).is_ok()
        && cipher.decrypt_blocks_b2b(ciphertext, &mut back).is_ok();
    cipher.encrypt_blocks(&mut place);
    let encrypted = place;
    cipher.decrypt_blocks(&mut place);
    are_of_one_length && [there, encrypted, back, place] == [*ciphertext, *ciphertext, *list, *list]
}

// Both.
fn go_there_and_back<C: BlockCipher>(cipher: &C, list: &List, ciphertext: &List) -> bool {
    block_goes_there_and_back(cipher, list, ciphertext)
        && list_goes_there_and_back(cipher, list, ciphertext)
}

// Whether a cipher and its clone give what is known.
pub fn passes<C: BlockCipher + Clone + Drop>(cipher: &C, known: &Known) -> bool {
    let Ok(clone) = cipher.clone() else {
        return false;
    };
    let ciphertext = blocks(known.ciphertext);
    go_there_and_back(cipher, &PLAINTEXT, &ciphertext)
        && go_there_and_back(&clone, &PLAINTEXT, &ciphertext)
}
