//! The names of the library.

ghost use Rattle.std.specs.Prelude.{◌≡◌, is_some};
ghost use Rattle.c11_num.specs.declared.value.CType.{CType};
ghost use Rattle.c11_check.specs.Library as spec;

use crate::entity::Entity;
use c11_events::{Order, OrderUse};
use c11_num::RmwKind;

/// A function of the library (ISO/IEC 9899:2011, 7.2.1.1, 7.17.4.1, 7.17.7, 7.21.6.3, 7.26.4 and 7.26.5). An `explicit` one
/// takes memory orders.
#[derive(Clone, Copy, Debug)]
pub enum Library {
    Load { explicit: bool },
    Store { explicit: bool },
    /// `atomic_exchange` and the `atomic_fetch` functions.
    ReadWrite { kind: RmwKind, explicit: bool },
    CompareExchange { weak: bool, explicit: bool },
    Fence,
    MutexInit,
    MutexLock,
    MutexTryLock,
    MutexUnlock,
    MutexDestroy,
    Yield,
    Create,
    Join,
    Assert,
    Print,
}

/// A constant of the library (ISO/IEC 9899:2011, 7.19 and 7.26.1).
#[derive(Clone, Copy, Debug)]
pub enum LibraryConstant {
    /// `thrd_success`
    Success,
    /// `thrd_busy`
    Busy,
    /// `thrd_error`
    Error,
    /// `mtx_plain`
    PlainMutex,
    /// `NULL`
    Null,
}

/// What a function of the library wants in the place of an argument.
#[derive(Clone, Copy, Debug)]
pub enum Want {
    /// The value of an expression.
    Value,
    /// `&` and an atomic object.
    Atomic,
    /// `&` and a local, for the value that a compare-exchange expects.
    Expected,
    /// `&` and a mutex.
    Mutex,
    /// `&` and a handle.
    NewHandle,
    /// A handle.
    Handle,
    /// A function that a thread can run.
    ThreadFunction,
    /// `mtx_plain`
    MutexKind,
    /// `NULL`, `0`, or `&` and a local of type `int`.
    Answer,
    /// The memory order of an operation.
    Order(OrderUse),
    /// The memory order of a compare-exchange that fails.
    FailureOrder,
    /// A text, and the values that it asks for behind it.
    Format,
}

/// What a name of the library denotes; none for another name.
#[tactic(auto, unfolding(crate::specs::Library::library_entity))]
pub fn library_entity(name: &[u8]) -> Option<Entity>
    ensures { result ≡ spec.library_entity name.now }
{
    transfers(name)
        .or_else(|| fetches(name))
        .or_else(|| exchanges(name))
        .or_else(|| threads(name))
        .or_else(|| constants(name))
        .or_else(|| orders(name))
}

// Loads, stores and exchanges.
fn transfers(name: &[u8]) -> Option<Entity>
    ensures { result ≡ spec.look_up spec.transfers name.now }
{
    if name == b"atomic_load".as_slice() {
        Some(Entity::Library(Library::Load { explicit: false }))
    } else if name == b"atomic_load_explicit".as_slice() {
        Some(Entity::Library(Library::Load { explicit: true }))
    } else if name == b"atomic_store".as_slice() {
        Some(Entity::Library(Library::Store { explicit: false }))
    } else if name == b"atomic_store_explicit".as_slice() {
        Some(Entity::Library(Library::Store { explicit: true }))
    } else if name == b"atomic_exchange".as_slice() {
        Some(Entity::Library(Library::ReadWrite {
            kind: RmwKind::Exchange,
            explicit: false,
        }))
    } else if name == b"atomic_exchange_explicit".as_slice() {
        Some(Entity::Library(Library::ReadWrite {
            kind: RmwKind::Exchange,
            explicit: true,
        }))
    } else {
        None
    }
}

// The `atomic_fetch` functions.
fn fetches(name: &[u8]) -> Option<Entity>
    ensures { result ≡ spec.look_up spec.fetches name.now }
{
    if name == b"atomic_fetch_add".as_slice() {
        Some(Entity::Library(Library::ReadWrite {
            kind: RmwKind::Add,
            explicit: false,
        }))
    } else if name == b"atomic_fetch_add_explicit".as_slice() {
        Some(Entity::Library(Library::ReadWrite {
            kind: RmwKind::Add,
            explicit: true,
        }))
    } else if name == b"atomic_fetch_sub".as_slice() {
        Some(Entity::Library(Library::ReadWrite {
            kind: RmwKind::Sub,
            explicit: false,
        }))
    } else if name == b"atomic_fetch_sub_explicit".as_slice() {
        Some(Entity::Library(Library::ReadWrite {
            kind: RmwKind::Sub,
            explicit: true,
        }))
    } else if name == b"atomic_fetch_and".as_slice() {
        Some(Entity::Library(Library::ReadWrite {
            kind: RmwKind::And,
            explicit: false,
        }))
    } else if name == b"atomic_fetch_and_explicit".as_slice() {
        Some(Entity::Library(Library::ReadWrite {
            kind: RmwKind::And,
            explicit: true,
        }))
    } else if name == b"atomic_fetch_or".as_slice() {
        Some(Entity::Library(Library::ReadWrite {
            kind: RmwKind::Or,
            explicit: false,
        }))
    } else if name == b"atomic_fetch_or_explicit".as_slice() {
        Some(Entity::Library(Library::ReadWrite {
            kind: RmwKind::Or,
            explicit: true,
        }))
    } else if name == b"atomic_fetch_xor".as_slice() {
        Some(Entity::Library(Library::ReadWrite {
            kind: RmwKind::Xor,
            explicit: false,
        }))
    } else if name == b"atomic_fetch_xor_explicit".as_slice() {
        Some(Entity::Library(Library::ReadWrite {
            kind: RmwKind::Xor,
            explicit: true,
        }))
    } else {
        None
    }
}

// Compare-exchanges, and the fence.
fn exchanges(name: &[u8]) -> Option<Entity>
    ensures { result ≡ spec.look_up spec.exchanges name.now }
{
    if name == b"atomic_compare_exchange_strong".as_slice() {
        Some(Entity::Library(Library::CompareExchange {
            weak: false,
            explicit: false,
        }))
    } else if name == b"atomic_compare_exchange_strong_explicit".as_slice() {
        Some(Entity::Library(Library::CompareExchange {
            weak: false,
            explicit: true,
        }))
    } else if name == b"atomic_compare_exchange_weak".as_slice() {
        Some(Entity::Library(Library::CompareExchange {
            weak: true,
            explicit: false,
        }))
    } else if name == b"atomic_compare_exchange_weak_explicit".as_slice() {
        Some(Entity::Library(Library::CompareExchange {
            weak: true,
            explicit: true,
        }))
    } else if name == b"atomic_thread_fence".as_slice() {
        Some(Entity::Library(Library::Fence))
    } else {
        None
    }
}

// Mutexes, threads, `assert` and `printf`.
fn threads(name: &[u8]) -> Option<Entity>
    ensures { result ≡ spec.look_up spec.threads name.now }
{
    if name == b"mtx_init".as_slice() {
        Some(Entity::Library(Library::MutexInit))
    } else if name == b"mtx_lock".as_slice() {
        Some(Entity::Library(Library::MutexLock))
    } else if name == b"mtx_trylock".as_slice() {
        Some(Entity::Library(Library::MutexTryLock))
    } else if name == b"mtx_unlock".as_slice() {
        Some(Entity::Library(Library::MutexUnlock))
    } else if name == b"mtx_destroy".as_slice() {
        Some(Entity::Library(Library::MutexDestroy))
    } else if name == b"thrd_yield".as_slice() {
        Some(Entity::Library(Library::Yield))
    } else if name == b"thrd_create".as_slice() {
        Some(Entity::Library(Library::Create))
    } else if name == b"thrd_join".as_slice() {
        Some(Entity::Library(Library::Join))
    } else if name == b"assert".as_slice() {
        Some(Entity::Library(Library::Assert))
    } else if name == b"printf".as_slice() {
        Some(Entity::Library(Library::Print))
    } else {
        None
    }
}

// Constants.
fn constants(name: &[u8]) -> Option<Entity>
    ensures { result ≡ spec.look_up spec.constants name.now }
{
    if name == b"thrd_success".as_slice() {
        Some(Entity::Constant(LibraryConstant::Success))
    } else if name == b"thrd_busy".as_slice() {
        Some(Entity::Constant(LibraryConstant::Busy))
    } else if name == b"thrd_error".as_slice() {
        Some(Entity::Constant(LibraryConstant::Error))
    } else if name == b"mtx_plain".as_slice() {
        Some(Entity::Constant(LibraryConstant::PlainMutex))
    } else if name == b"NULL".as_slice() {
        Some(Entity::Constant(LibraryConstant::Null))
    } else {
        None
    }
}

// Memory orders.
fn orders(name: &[u8]) -> Option<Entity>
    ensures { result ≡ spec.look_up spec.orders name.now }
{
    if name == b"memory_order_relaxed".as_slice() {
        Some(Entity::Order(Order::Relaxed))
    } else if name == b"memory_order_consume".as_slice() {
        Some(Entity::Order(Order::Consume))
    } else if name == b"memory_order_acquire".as_slice() {
        Some(Entity::Order(Order::Acquire))
    } else if name == b"memory_order_release".as_slice() {
        Some(Entity::Order(Order::Release))
    } else if name == b"memory_order_acq_rel".as_slice() {
        Some(Entity::Order(Order::AcqRel))
    } else if name == b"memory_order_seq_cst".as_slice() {
        Some(Entity::Order(Order::SeqCst))
    } else {
        None
    }
}

impl Library {
    /// What the function wants as its arguments; behind a format come the values that it asks for.
    pub fn wants(self) -> &'static [Want]
        ensures { result.now ≡ spec.wants_of self }
    {
        match self {
            Library::Load { explicit: false } => &[Want::Atomic],
            Library::Load { explicit: true } => &[Want::Atomic, Want::Order(OrderUse::Load)],
            Library::Store { explicit: false } => &[Want::Atomic, Want::Value],
            Library::Store { explicit: true } => {
                &[Want::Atomic, Want::Value, Want::Order(OrderUse::Store)]
            }
            Library::ReadWrite {
                explicit: false,
                ..
            } => &[Want::Atomic, Want::Value],
            Library::ReadWrite { explicit: true, .. } => {
                &[Want::Atomic, Want::Value, Want::Order(OrderUse::ReadWrite)]
            }
            Library::CompareExchange {
                explicit: false,
                ..
            } => &[Want::Atomic, Want::Expected, Want::Value],
            Library::CompareExchange { explicit: true, .. } => &[
                Want::Atomic,
                Want::Expected,
                Want::Value,
                Want::Order(OrderUse::ReadWrite),
                Want::FailureOrder,
            ],
            Library::Fence => &[Want::Order(OrderUse::Fence)],
            Library::MutexInit => &[Want::Mutex, Want::MutexKind],
            Library::MutexLock
            | Library::MutexTryLock
            | Library::MutexUnlock
            | Library::MutexDestroy => &[Want::Mutex],
            Library::Yield => &[],
            Library::Create => &[Want::NewHandle, Want::ThreadFunction, Want::Value],
            Library::Join => &[Want::Handle, Want::Answer],
            Library::Assert => &[Want::Value],
            Library::Print => &[Want::Format],
        }
    }

    /// Whether a call of the function has a value.
    pub fn has_value(self) -> bool
        ensures { (object : CType) → result ≡ is_some (spec.library_answers self object) }
    {
        !matches!(
            self,
            Library::Store { .. }
                | Library::Fence
                | Library::MutexDestroy
                | Library::Yield
                | Library::Assert
        )
    }
}
