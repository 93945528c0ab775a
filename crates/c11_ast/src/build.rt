ghost use Rattle.std.specs.Prelude.{◌≡◌, IfOk};

use crate::expr::Expr;
use crate::stmt::Stmt;
use c11_num::NoMemory;
use sqlite_items::Boxed;
use std::alloc::Global;

/// The expression as a part of another.
pub fn boxed_expr(alloc: Global, part: Expr) -> Result<Boxed<Expr>, NoMemory>
    ensures { IfOk result (λ boxed. boxed ≡ part) }
{
    Ok(Boxed::new(alloc, part)?)
}

/// The statement as a part of another.
pub fn boxed_stmt(alloc: Global, part: Stmt) -> Result<Boxed<Stmt>, NoMemory>
    ensures { IfOk result (λ boxed. boxed ≡ part) }
{
    Ok(Boxed::new(alloc, part)?)
}
