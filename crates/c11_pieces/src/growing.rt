//! Code that grows, and sizes that are added up.

ghost use Rattle.std.specs.Prelude.{◌≡◌, ◌+◌, [], ◌∷◌, IfOk, OnOk};
ghost use Rattle.c11_flat.specs.Pieces.{plain};
ghost use Rattle.c11_pieces.specs.Growth.{Grows};

use c11_flat::Instr;
use c11_num::NoMemory;

/// One more instruction.
pub(crate) fn put(code: &mut Vec<Instr>, instr: Instr) -> Result<(), NoMemory>
    ensures { OnOk result (Grows code.old.items code.new.items (plain (instr ∷ []))) }
{
    code.push(instr)?;
    Ok(())
}

/// The sum of two sizes; no memory holds code of a size that passes `usize`.
pub(crate) fn plus(one: usize, other: usize) -> Result<usize, NoMemory>
    ensures { IfOk result (λ sum. sum ≡ one + other) }
{
    one.checked_add(other).ok_or(NoMemory)
}
