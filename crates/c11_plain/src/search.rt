ghost use Rattle.c11_plain.specs.Pairs.{FindsBelow};

/// Whether the test holds for some number below the bound.
pub(crate) fn some_below<F: Fn(u32) -> bool>(bound: u32, test: F) -> bool
    requires { F.IsAlwaysCallable test }
    ensures { FindsBelow bound (F.post test) result }
{
    for k in 0..bound {
        if test(k) {
            return true;
        }
    }
    false
}

/// Whether the test holds for some place below the bound.
pub(crate) fn some_place<F: Fn(usize) -> bool>(bound: usize, test: F) -> bool
    requires { F.IsAlwaysCallable test }
    ensures { FindsBelow bound (F.post test) result }
{
    for k in 0..bound {
        if test(k) {
            return true;
        }
    }
    false
}
