ghost use Rattle.std.specs.Prelude.{◌≡◌, IfOk};
ghost use Rattle.c11_run.specs.Output.{output_of};

use c11_events::{Entry, Op, Verdict};
use c11_num::{Bytes, NoMemory};

/// A whole run: what happened, in order, and how it ended.
#[derive(Debug, Drop)]
pub struct Run {
    pub entries: Vec<Entry>,
    pub verdict: Verdict,
}

impl Run {
    /// What the run wrote by its `printf`, in order.
    pub fn output(&self) -> Result<Bytes, NoMemory>
        ensures { IfOk result (λ bytes. bytes ≡ output_of self.now.entries.items) }
    {
        let mut bytes = Vec::new(*self.entries.allocator());
        for entry in &self.entries {
            if let Op::Out { bytes: more } = &entry.op {
                bytes.extend_from_slice(more.as_slice())?;
            }
        }
        Ok(Bytes::new(bytes))
    }
}
