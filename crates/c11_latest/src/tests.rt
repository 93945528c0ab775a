use crate::Latest;
use rand_core::utils::NextWord;
use rand_pcg::Pcg32;
use std::alloc::Global;
use std::process::Abort;
use std::test::Fail;

const EVENTS: u32 = 48;

const PAIRS: [(u32, u32); 4] = [(0, 0), (0, u32::MAX), (u32::MAX, 0), (1, 1)];

// The last of these numbers of the pair up to the bound, by a scan of all.
fn scan(noted: &[(u32, u32, u32)], cell: u32, thread: u32, bound: u32) -> Option<u32> {
    let mut last = None;
    for (its_cell, its_thread, number) in noted {
        if *its_cell == cell && *its_thread == thread && *number <= bound {
            last = Some(*number);
        }
    }
    last
}

fn drawn_pair(words: &mut Pcg32) -> (u32, u32) {
    PAIRS[(words.next_word() % 4) as usize]
}

// Each number is noted of one of four pairs; then all is asked.
fn play(rt: &impl Abort, alloc: Global, words: &mut Pcg32) -> Result<(), Fail> {
    let mut latest = Latest::open(alloc, EVENTS)?;
    let mut noted = Vec::new(alloc);
    for number in 0..EVENTS {
        let pair = drawn_pair(words);
        latest.note(pair.0, pair.1, number);
        noted.push((pair.0, pair.1, number))?;
    }
    for (cell, thread) in PAIRS {
        for bound in 0..EVENTS {
            assert_eq!(rt;
                latest.last_up_to(cell, thread, bound),
                scan(noted.as_slice(), cell, thread, bound)
            );
        }
        assert_eq!(rt;
            latest.last_up_to(cell, thread, u32::MAX),
            scan(noted.as_slice(), cell, thread, u32::MAX)
        );
    }
    Ok(())
}

#[test]
fn a_search_answers_as_a_scan_of_all_notes(rt: HostRuntime) -> Result<(), Fail> {
    let mut words = Pcg32::new(3, 9);
    for _ in 0..200u32 {
        play(&rt, rt.alloc(), &mut words)?;
    }
    Ok(())
}
