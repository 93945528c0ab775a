use crate::Clock;
use std::test::Fail;

#[test]
fn a_join_has_the_larger_number_of_each_thread(rt: HostRuntime) -> Result<(), Fail> {
    for threads in [3, 16, 17, 64] {
        let mut mine = Clock::new(rt.alloc(), threads)?;
        let mut theirs = Clock::new(rt.alloc(), threads)?;
        mine.raise(0, 5);
        mine.raise(0, 4);
        mine.raise(threads - 1, 7);
        theirs.raise(1, 6);
        theirs.raise(threads - 1, 9);
        mine.join(&theirs);
        assert!(rt;
            mine.get(0) == 5 && mine.get(1) == 6 && mine.get(threads - 1) == 9,
            "{mine:?}"
        );
        assert!(rt; mine.covers(1, 6) && !mine.covers(1, 7), "{mine:?}");
        assert!(rt; theirs.get(0) == 0 && theirs.get(1) == 6, "{theirs:?}");
    }
    Ok(())
}

#[test]
fn growth_is_told_where_a_number_rose(rt: HostRuntime) -> Result<(), Fail> {
    let mut mine = Clock::new(rt.alloc(), 2)?;
    let mut theirs = Clock::new(rt.alloc(), 2)?;
    mine.raise(1, 3);
    theirs.raise(0, 2);
    theirs.raise(1, 1);
    assert!(rt; mine.grow_to(&theirs), "{mine:?}");
    assert!(rt; mine.get(0) == 2 && mine.get(1) == 3, "{mine:?}");
    assert!(rt; !mine.grow_to(&theirs), "{mine:?}");
    Ok(())
}
