//! MACs by the relations that the standard's tables define: what a caller of `des_mac` can promise
//! of a cipher that it names.

ghost use Rattle.des.specs.Relations.{IsTheOne};
ghost use Rattle.des.specs.Enciphering.{Enciphers};
ghost use Rattle.des.specs.Triple.{EnciphersEde3};
ghost use Rattle.des_mac.specs.Padding.{zeros_after, one_bit_after, padded};
ghost use Rattle.des_mac.specs.MacRelations.{IsCbcMac, IsRetailMac, IsCmac};

use des::{Des, TdesEde3};
use des_mac::{CbcMac, Cmac, Mac, Method1, Method2, RetailMac};

/// The tag of a message by CBC-MAC under `Des`, with padding method 1: the one in which the blocks
/// of the padded message end that CBC by DES under the key makes from a block of zeros.
pub fn cbc_mac_of_des(key: &[u8; 8], message: &[u8]) -> [u8; 8]
    ensures { IsTheOne (IsCbcMac (λ x y. Enciphers key.now x y) (padded zeros_after message.now))
        result }
{
    let mut state = CbcMac::<Des, Method1>::new(key);
    state.update(message);
    state.finalize()
}

/// The tag of a message by the retail MAC under `Des`, with padding method 2: DES under the second
/// key takes some block to the end of the CBC under the first, and DES under the first takes this
/// block to the tag.
pub fn retail_mac_of_des(first: &[u8; 8], second: &[u8; 8], message: &[u8]) -> [u8; 8]
    ensures { IsTheOne
        (IsRetailMac (λ x y. Enciphers first.now x y) (λ x y. Enciphers second.now x y)
        (padded one_bit_after message.now)) result }
{
    let mut state = RetailMac::<Des, Method2>::new(first, second);
    state.update(message);
    state.finalize()
}

/// The tag of a message by CMAC under `TdesEde3`, by the relation of triple DES under the key.
pub fn cmac_of_ede3(key: &[u8; 24], message: &[u8]) -> [u8; 8]
    ensures { IsTheOne (IsCmac (λ x y. EnciphersEde3 key.now x y) message.now) result }
{
    let mut state = Cmac::<TdesEde3>::new(key);
    state.update(message);
    state.finalize()
}
