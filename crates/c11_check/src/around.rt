use c11_num::CType;

/// What is around a statement.
#[derive(Clone, Copy, Debug)]
pub struct Around {
    /// The type of what the function answers; none stands for `void`.
    pub answers: Option<CType>,
    /// Whether it stands in a loop.
    pub in_loop: bool,
}
