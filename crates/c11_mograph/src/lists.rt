ghost use Rattle.std.specs.Prelude.{◌≡◌, ◌<◌, ◌≤◌, ◌++◌, ℕ, [], ◌∷◌, IfOk, OnOk, All, Some, length, slice_get, vec_len, vec_capacity};
ghost use Rattle.std.specs.Global.{Vec};
ghost use Rattle.c11_mograph.specs.Lists.{HaveGrown, HasPushed, HaveRoomBut};

use c11_num::NoMemory;
use std::alloc::Global;

/// So many empty lists.
pub(crate) fn empty_lists(alloc: Global, count: u32) -> Result<Vec<Vec<u32>>, NoMemory>
    ensures count { IfOk result (λ lists. length lists.items ≡ count) }
    ensures empty { IfOk result (λ lists. All (λ list. list.items ≡ []) lists.items) }
{
    let mut lists = Vec::with_capacity(alloc, count as usize)?;
    for _ in 0..count {
        lists.push(Vec::new(alloc))?;
    }
    Ok(lists)
}

/// Room for one more in each list, of which only that of the cell may be full, or any.
pub(crate) fn make_room(lists: &mut Vec<Vec<u32>>, full: Option<u32>) -> Result<(), NoMemory>
    requires { (cell : ℕ) → full ≡ Some cell → HaveRoomBut cell lists.old.items }
    ensures count { length lists.new.items ≡ length lists.old.items }
    ensures grown { HaveGrown lists.old.items lists.new.items }
    ensures room { OnOk result (All (λ list. vec_len list < vec_capacity list) lists.new.items) }
{
    match full {
        Some(cell) => make_room_in(lists, cell as usize),
        None => make_room_everywhere(lists),
    }
}

// Room for one more in the list of the cell. The others have room.
fn make_room_in(lists: &mut Vec<Vec<u32>>, cell: usize) -> Result<(), NoMemory>
    requires { HaveRoomBut cell lists.old.items }
    ensures count { length lists.new.items ≡ length lists.old.items }
    ensures grown { HaveGrown lists.old.items lists.new.items }
    ensures room { OnOk result (All (λ list. vec_len list < vec_capacity list) lists.new.items) }
{
    lists[cell].reserve(1)?;
    Ok(())
}

// Room for one more in each list.
fn make_room_everywhere(lists: &mut Vec<Vec<u32>>) -> Result<(), NoMemory>
    ensures count { length lists.new.items ≡ length lists.old.items }
    ensures grown { HaveGrown lists.old.items lists.new.items }
    ensures room { OnOk result (All (λ list. vec_len list < vec_capacity list) lists.new.items) }
{
    for place in 0..lists.len() {
        lists[place].reserve(1)?;
    }
    Ok(())
}

/// Adds the item. There is room for it.
pub(crate) fn put<T: Drop>(list: &mut Vec<T>, item: T)
    requires { vec_len list.old < vec_capacity list.old }
    ensures items { list.new.items ≡ list.old.items ++ item ∷ [] }
    ensures capacity { vec_capacity list.old ≤ vec_capacity list.new }
{
    let _ = list.push(item);
}

/// The number behind the others of the list of a cell.
pub(crate) fn push_into(lists: &mut Vec<Vec<u32>>, cell: usize, number: u32)
    requires cell { cell < length lists.old.items }
    requires room { (list : Vec ℕ) → slice_get lists.old.items cell ≡ Some list → vec_len list < vec_capacity list }
    ensures pushed { HasPushed lists.old.items lists.new.items cell number }
{
    put(&mut lists[cell], number);
}
