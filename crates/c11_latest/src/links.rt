//! The ways back from a note.
ghost use Rattle.std.specs.Prelude.{◌≡◌, ◌<◌, ◌≤◌, ◌+◌, ◌*◌, ◌^◌, ◌↔◌, ℕ, Some, None, IsTrue, length, slice_get};
ghost use Rattle.c11_latest.specs.declared.links.Link.{Link};
ghost use Rattle.c11_latest.specs.Linked.{JumpsBack, IsBehind, IsInside, IsLinkAfter, IsStep, HasLikeJumps};

use crate::latest::Note;

/// The ways back from a note to earlier ones of its pair, by their places.
#[derive(Clone, Copy, Debug)]
pub(crate) struct Link {
    // How many notes of the pair stand before it.
    depth: u32,
    before: Option<u32>,
    jump: Option<u32>,
}

// Where the note after this one jumps to: over two jumps of one length as by one, else to this one.
fn jump_after(links: &[Link], before: u32) -> u32
    requires inside { before < length links.now }
    requires back { JumpsBack links.now }
    ensures behind { IsBehind links.now before result }
    ensures far { (far : ℕ) → HasLikeJumps links.now before far → result ≡ far }
{
    let first = links[before as usize];
    match first.jump {
        Some(middle) => {
            let second = links[middle as usize];
            match second.jump {
                Some(far) => {
                    let third = links[far as usize];
                    if is_midway(first.depth, second.depth, third.depth) {
                        far
                    } else {
                        before
                    }
                }
                None => before,
            }
        }
        None => before,
    }
}

// Whether the second stands in the middle of the first and the third.
fn is_midway(first: u32, second: u32, third: u32) -> bool
    ensures { IsTrue result ↔ (first + third ≡ 2 * second) }
{
    u64::from(first) + u64::from(third) == 2 * u64::from(second)
}

/// The link of a further note, of whose pair this note is the last.
pub(crate) fn link_after(links: &[Link], before: Option<u32>) -> Link
    requires inside { IsInside (length links.now) before }
    requires back { JumpsBack links.now }
    ensures link { IsLinkAfter links.now before result }
    ensures first { before ≡ None → result.depth ≡ 0 }
    ensures deeper { (place : ℕ) (last : Link) → before ≡ Some place → slice_get links.now place ≡ Some last → last.depth + 1 < 2 ^ 32 → result.depth ≡ last.depth + 1 }
    ensures over { (place far : ℕ) → before ≡ Some place → HasLikeJumps links.now place far → result.jump ≡ Some far }
{
    match before {
        Some(place) => Link {
            depth: links[place as usize].depth.saturating_add(1),
            before,
            jump: Some(jump_after(links, place)),
        },
        None => Link {
            depth: 0,
            before,
            jump: None,
        },
    }
}

/// Where to look next, where the note at this place has a larger number: by the jump where the number there is larger too, else at
/// the note before it of its pair.
pub(crate) fn earlier(notes: &[Note], links: &[Link], place: u32, number: u32) -> Option<u32>
    requires inside { place < length links.now }
    requires count { length links.now ≡ length notes.now }
    requires back { JumpsBack links.now }
    ensures { IsStep notes.now links.now place number result }
{
    let link = links[place as usize];
    match link.jump {
        Some(far) => {
            if notes[far as usize].number > number {
                Some(far)
            } else {
                link.before
            }
        }
        None => link.before,
    }
}
