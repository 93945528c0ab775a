//! Replies in words, and whether they fit what is asked for.
ghost use Rattle.std.specs.Prelude.{◌≡◌, IsTrue, length};
ghost use Rattle.c11_ast.specs.declared.item.Program.{Program};
ghost use Rattle.c11_check.specs.Lies.{signatures_in};
ghost use Rattle.c11_meaning.specs.Progress.{IsReplyTo};

use super::words::value_of;
use c11_events::{Op, Reply};
use std::alloc::{AllocError, Global};

/// The reply of words: `done`, `value NUMBER TYPE`, `exchanged NUMBER TYPE WROTE`, `locked MINE`, `created THREAD`,
/// `began FUNCTION ARGUMENT` or `joined NUMBER`.
pub fn reply_of(alloc: Global, told: &str) -> Result<Option<Reply>, AllocError> {
    let words: Vec<&str> = told.split(' ').collect(alloc)?;
    Ok(reply(words.as_slice()))
}

fn reply(words: &[&str]) -> Option<Reply> {
    match words {
        ["done"] => Some(Reply::Done),
        ["value", number, ctype] => Some(Reply::Value(value_of(number, ctype)?)),
        ["exchanged", number, ctype, success] => Some(Reply::Exchanged {
            old: value_of(number, ctype)?,
            success: success.parse::<bool>().ok()?,
        }),
        ["locked", mine] => Some(Reply::Locked(mine.parse::<bool>().ok()?)),
        ["created", thread] => Some(Reply::Created(thread.parse::<u32>().ok()?)),
        ["began", function, argument] => Some(Reply::Began {
            function: function.parse::<u32>().ok()?,
            argument: argument.parse::<i64>().ok()?,
        }),
        ["joined", value] => Some(Reply::Joined(value.parse::<i32>().ok()?)),
        _ => None,
    }
}

/// Whether the reply is of the kind of the operation, and names one of so many functions.
pub fn fits(op: &Op, reply: &Reply, functions: u32) -> bool
    ensures { IsTrue result → (program : Program) → functions ≡ length (signatures_in program.items) → IsReplyTo (signatures_in program.items) op.now reply.now }
{
    match op {
        Op::Begin => match reply {
            Reply::Began { function, .. } => *function < functions,
            _ => false,
        },
        Op::AtomicLoad { .. } | Op::Rmw { .. } | Op::PlainRead { .. } => {
            matches!(reply, Reply::Value(_))
        }
        Op::CompareExchange { .. } => matches!(reply, Reply::Exchanged { .. }),
        Op::AtomicStore { .. }
        | Op::Fence { .. }
        | Op::PlainWrite { .. }
        | Op::MutexInit { .. }
        | Op::Unlock { .. }
        | Op::Out { .. } => matches!(reply, Reply::Done),
        Op::Lock { .. } => matches!(reply, Reply::Locked(true)),
        Op::TryLock { .. } => matches!(reply, Reply::Locked(_)),
        Op::Create { .. } => matches!(reply, Reply::Created(_)),
        Op::Join { .. } => matches!(reply, Reply::Joined(_)),
        Op::Init { .. } | Op::End { .. } | Op::Stop { .. } => false,
    }
}
