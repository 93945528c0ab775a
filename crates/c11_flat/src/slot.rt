use c11_num::CValue;

/// What lies on the stack of a thread: a value, or where an object is.
#[derive(Clone, Copy, Debug)]
pub enum Slot {
    Value(CValue),
    Place(u32),
}
