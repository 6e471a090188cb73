//! The faults of options that don't go together.

ghost use Rattle.std.specs.Prelude.{◌≡◌, true, false, IfOk, IfErr};
ghost use Rattle.des_lines.specs.declared.fault.FaultKind.TheVariants.{Usage};

use des_lines::fault::{Fault, FaultKind, Misuse};

/// Options that don't go together.
pub fn misuse<'a>(misuse: Misuse, about: &'a str) -> Fault<'a>
    ensures { result.kind ≡ Usage misuse }
{
    Fault {
        kind: FaultKind::Usage(misuse),
        about,
    }
}

/// The fault, if the options don't go together.
pub fn refuse<'a>(is_misuse: bool, fault: Misuse) -> Result<(), Fault<'a>>
    ensures passed { IfOk result (λ _. is_misuse ≡ false) }
    ensures fault { IfErr result (λ refused. (is_misuse ≡ true) × (refused.kind ≡ Usage fault)) }
{
    if is_misuse {
        return Err(misuse(fault, ""));
    }
    Ok(())
}
