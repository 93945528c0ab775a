use crate::Draws;
use std::test::Fail;

// The first words of seeds, computed apart from this program by PCG's published step (64 bits of state, XSH RR), with the multiplier
// 6364136223846793005 and the stream 1442695040888963407.
const WORDS: [(u64, [u32; 4]); 4] = [
    (0, [881477183, 1327520283, 692503688, 2153658078]),
    (7, [1352667803, 3706616521, 2188350268, 3036842621]),
    (42, [492690617, 1919685028, 3561993920, 683038915]),
    (u64::MAX, [3188254867, 2145477612, 307487198, 1603862789]),
];

#[test]
fn a_choice_is_the_next_word_modulo_the_choices(rt: HostRuntime) -> Result<(), Fail> {
    for (seed, words) in WORDS {
        for choices in [2, 3, 16, 10_000, u32::MAX] {
            let mut draws = Draws::new(seed);
            for word in words {
                let copy = draws.copy()?.draw(choices);
                let choice = draws.draw(choices);
                assert!(rt;
                    choice == word % choices && copy == choice,
                    "seed {seed}, {choices} choices"
                );
            }
        }
    }
    Ok(())
}

#[test]
fn a_single_choice_takes_no_word(rt: HostRuntime) {
    for (seed, words) in WORDS {
        let mut draws = Draws::new(seed);
        assert_eq!(rt; draws.draw(1), 0);
        assert_eq!(rt; draws.draw(1), 0);
        assert_eq!(rt; draws.draw(1000), words[0] % 1000);
    }
}
