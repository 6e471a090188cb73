//! The list of weak keys beside the test: what the clauses of `weak_key_test` give to a caller.

ghost use Rattle.std.specs.Prelude.{◌↔◌, IsTrue};
ghost use Rattle.des.specs.Parity.{ContainsAgreeing};
ghost use Rattle.des.specs.WeakKeys.{listed_keys, IsRefused, IsRefusedByList};

use des::weak_key::{WEAK_KEYS, equal_but_parity, weak_key_test};

// Whether one of the keys agrees with `key` outside parity. It takes the keys, since of the list
// itself, a constant, a proof by computation would go through all 64.
fn contains_agreeing(keys: &[[u8; 8]], key: &[u8; 8]) -> bool
    ensures { IsTrue result ↔ ContainsAgreeing keys.now key.now }
{
    keys.iter().any(|other| equal_but_parity(other, key))
}

/// Whether the test refuses a key of 8 bytes, and whether a listed key agrees with it outside
/// parity.
pub fn verdicts(key: &[u8; 8]) -> (bool, bool)
    ensures refused { IsTrue result.0 ↔ IsRefused key.now }
    ensures refused_by_list { IsTrue result.0 ↔ IsRefusedByList key.now }
    ensures listed { IsTrue result.1 ↔ ContainsAgreeing listed_keys key.now }
{
    (
        weak_key_test(key).is_err(),
        contains_agreeing(&WEAK_KEYS, key),
    )
}
