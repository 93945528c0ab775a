//! What stands in a code.

ghost use Rattle.std.specs.Prelude.{◌≡◌, ◌+◌, ◌<◌, ◌^◌, MatchOption, IfSome, Some, None, slice_get};

use c11_flat::{Code, Instr, Start};

// The instruction at this place.
pub(crate) fn instr_at(code: &Code, place: usize) -> Option<&Instr>
    ensures instr { MatchOption result (slice_get code.now.instrs place ≡ None) (λ instr. slice_get code.now.instrs place ≡ Some instr.now) }
    ensures within { IfSome result (λ _. place + 1 < 2 ^ 64) }
{
    code.instrs.get(place)
}

// Where the function with this number begins.
pub(crate) fn start_of(code: &Code, function: u32) -> Option<&Start>
    ensures { MatchOption result (slice_get code.now.starts function ≡ None) (λ start. slice_get code.now.starts function ≡ Some start.now) }
{
    code.starts.get(function as usize)
}
