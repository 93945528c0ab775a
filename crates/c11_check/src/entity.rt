use crate::library::{Library, LibraryConstant};
use c11_events::Order;
use c11_num::{CType, CValue};

/// What a caller has to know of a function.
#[derive(Clone, Copy, Debug)]
pub struct Signature {
    /// The type of what it answers; none stands for `void`.
    pub answers: Option<CType>,
    /// How many parameters it has.
    pub params: usize,
    /// Whether it has one parameter, and that is a `void *`.
    pub pointer: bool,
}

/// What a name denotes (ISO/IEC 9899:2011, 6.2.1). Of an object `size` is the number of elements where it is an array, and
/// none where it is a variable; it may be larger than an array may be, and is 0 where no size is known.
#[derive(Clone, Copy, Debug)]
pub enum Entity {
    /// A local of an integer type, or a parameter: it takes the places of its function from this one on.
    Local {
        ctype: CType,
        place: u32,
        size: Option<u64>,
    },
    /// A local of type `thrd_t`.
    Handle {
        place: u32,
        size: Option<u64>,
    },
    /// An atomic object: it takes the atomic cells from this one on.
    Atomic {
        ctype: CType,
        cell: u32,
        size: Option<u64>,
    },
    /// A plain object of file scope: it takes the plain cells from this one on.
    Plain {
        ctype: CType,
        cell: u32,
        size: Option<u64>,
    },
    /// An object of type `mtx_t`: it takes the mutexes from this one on.
    Mutex {
        mutex: u32,
        size: Option<u64>,
    },
    /// A function of the program, with its number.
    Function {
        function: u32,
        signature: Signature,
    },
    /// The name of a `#define`.
    Defined(CValue),
    /// A function of the library.
    Library(Library),
    /// A constant of the library other than a memory order.
    Constant(LibraryConstant),
    /// A memory order.
    Order(Order),
}

/// How many of each have been declared. An array counts as its elements; places are those of the function that is read.
#[derive(Clone, Copy, Debug)]
pub struct Counts {
    pub atomics: u32,
    pub plains: u32,
    pub mutexes: u32,
    pub functions: u32,
    pub places: u32,
}
