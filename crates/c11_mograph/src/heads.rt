ghost use Rattle.std.specs.Prelude.{◌≡◌, ◌<◌, ◌≤◌, ◌++◌, [], ◌∷◌, length, slice_index, vec_len, vec_capacity};
ghost use Rattle.c11_mograph.specs.Heads.{AreLinked};

use crate::kept::Kept;
use crate::lists::put;

/// Keeps a further store, which leads to the last head of its cell, and is that itself from now on if it begins a chain.
pub(crate) fn push_kept(kept: &mut Vec<Kept>, newest: &mut [u32], store: Kept)
    requires room { vec_len kept.old < vec_capacity kept.old }
    requires small { length kept.old.items < 4294967295 }
    requires cell { store.cell < length newest.old }
    requires linked { AreLinked kept.old.items newest.old }
    ensures items { kept.new.items ≡ kept.old.items ++ record store { older = slice_index newest.old store.cell } ∷ [] }
    ensures capacity { vec_capacity kept.old ≤ vec_capacity kept.new }
    ensures linked { AreLinked kept.new.items newest.new }
{
    let cell = store.cell as usize;
    let place = kept.len() as u32;
    let older = newest[cell];
    if store.head == place {
        newest[cell] = place + 1;
    }
    put(kept, Kept { older, ..store });
}
