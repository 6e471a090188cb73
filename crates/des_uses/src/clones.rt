//! Clones without an error to handle: what the clones of the ciphers give to a caller.

ghost use Rattle.std.specs.Prelude.{◌≡◌};

// A clone of a value whose clone never fails.
fn clone_of<C: Clone>(cipher: &C) -> C
    requires { C.is_infallible cipher.now }
    ensures { C.is_clone cipher.now result }
{
    cipher.clone().unwrap()
}

/// A clone of `des::Des`, the same cipher.
pub fn clone_of_des(cipher: &des::Des) -> des::Des
    ensures { result ≡ cipher.now }
{
    clone_of(cipher)
}

/// A clone of `des::TdesEde3`, the same cipher.
pub fn clone_of_ede3(cipher: &des::TdesEde3) -> des::TdesEde3
    ensures { result ≡ cipher.now }
{
    clone_of(cipher)
}

/// A clone of `des::TdesEee3`, the same cipher.
pub fn clone_of_eee3(cipher: &des::TdesEee3) -> des::TdesEee3
    ensures { result ≡ cipher.now }
{
    clone_of(cipher)
}

/// A clone of `des::TdesEde2`, the same cipher.
pub fn clone_of_ede2(cipher: &des::TdesEde2) -> des::TdesEde2
    ensures { result ≡ cipher.now }
{
    clone_of(cipher)
}

/// A clone of `des::TdesEee2`, the same cipher.
pub fn clone_of_eee2(cipher: &des::TdesEee2) -> des::TdesEee2
    ensures { result ≡ cipher.now }
{
    clone_of(cipher)
}

/// A clone of `des_fast::Des`, the same cipher.
pub fn clone_of_fast_des(cipher: &des_fast::Des) -> des_fast::Des
    ensures { result ≡ cipher.now }
{
    clone_of(cipher)
}

/// A clone of `des_fast::TdesEde3`, the same cipher.
pub fn clone_of_fast_ede3(cipher: &des_fast::TdesEde3) -> des_fast::TdesEde3
    ensures { result ≡ cipher.now }
{
    clone_of(cipher)
}

/// A clone of `des_fast::TdesEee3`, the same cipher.
pub fn clone_of_fast_eee3(cipher: &des_fast::TdesEee3) -> des_fast::TdesEee3
    ensures { result ≡ cipher.now }
{
    clone_of(cipher)
}

/// A clone of `des_fast::TdesEde2`, the same cipher.
pub fn clone_of_fast_ede2(cipher: &des_fast::TdesEde2) -> des_fast::TdesEde2
    ensures { result ≡ cipher.now }
{
    clone_of(cipher)
}

/// A clone of `des_fast::TdesEee2`, the same cipher.
pub fn clone_of_fast_eee2(cipher: &des_fast::TdesEee2) -> des_fast::TdesEee2
    ensures { result ≡ cipher.now }
{
    clone_of(cipher)
}
