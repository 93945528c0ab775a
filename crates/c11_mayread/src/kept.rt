use c11_num::CValue;

/// What is kept of an event: the store that it read, whether it is seq_cst, and the value that it wrote.
#[derive(Clone, Copy, Debug)]
pub(crate) struct Kept {
    pub(crate) from: u32,
    pub(crate) seq_cst: bool,
    pub(crate) value: CValue,
}
