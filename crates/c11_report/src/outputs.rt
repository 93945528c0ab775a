ghost use Rattle.std.specs.Prelude.{◌≡◌};
ghost use Rattle.c11_report.specs.Outputs.{AreInOrder};

use c11_num::Bytes;
use std::marker::Model;

/// What the runs of a campaign printed, and how often, which contracts see as a list of pairs.
///
/// It is in the order of the bytes, and has each output once.
#[derive(Debug, Drop)]
pub struct OutputList {
    pairs: Vec<(Bytes, u64)>,
}

impl Model for OutputList {
    ghost use Rattle.std.specs.Prelude.{List, ℕ};
    ghost use Rattle.c11_report.specs.Outputs.{AreInOrder};

    ghost Value = { List (List ℕ × ℕ) };

    ghost view = { λ o. o.pairs.items };

    ghost invariant = { λ o. AreInOrder o.pairs.items };
}

impl OutputList {
    /// The list of these pairs, which ascend by their bytes. It takes no memory.
    pub fn new(pairs: Vec<(Bytes, u64)>) -> OutputList
        requires { AreInOrder pairs.items }
        ensures { result ≡ pairs.items }
    {
        OutputList { pairs }
    }

    /// The pairs, in the order of the bytes.
    pub fn pairs(&self) -> &[(Bytes, u64)]
        ensures pairs { result.now ≡ self.now }
        ensures ordered { AreInOrder self.now }
    {
        self.pairs.as_slice()
    }
}
