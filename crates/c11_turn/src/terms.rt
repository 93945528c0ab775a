ghost use Rattle.std.specs.Prelude.{◌≡◌};

use c11_check::Checked;
use std::snapshot::Snapshot;

/// What a session is about: its program, the seed of its draws, and the bound on its steps. Contracts alone see the program.
#[derive(Drop)]
pub struct Terms {
    pub program: Snapshot<Checked>,
    pub seed: u64,
    pub bound: u32,
}

impl Terms {
    /// The session of this program, with this seed and this bound.
    pub fn of(checked: &Checked, seed: u64, bound: u32) -> Terms
        ensures program { result.program.value ≡ checked.now }
        ensures seed { result.seed ≡ seed }
        ensures bound { result.bound ≡ bound }
    {
        Terms {
            program: Snapshot::of(checked),
            seed,
            bound,
        }
    }
}
