// The lines of a tree, given one after the other as long as they can be: those of a link and those of a folder, which call on each
// other. The levels that are left fall, and in a folder the links that are left.
//
// The links of a folder are gone through in a loop, so that the calls are never deeper than the levels.
// Call: `folder`; the crate tree makes it once it knows that every line can be given.
#![tactic(auto)]

ghost use Rattle.std.specs.Prelude.{◌≡◌, ◌+◌, ◌*◌, ◌<◌, ◌≤◌, length};
ghost use Rattle.refusal.specs.Faults.{number_of};
ghost use Rattle.refusal.specs.Refusal.{refusal_of};
ghost use Rattle.folders.specs.Lines.{levels, each, entry_lines};
ghost use Rattle.folders.specs.inner.Folders.{siblings};
ghost use Rattle.lines.specs.inner.Giving.{with_line, sound, give_all, given_in, given_of};

use folders::Index;
use refusal::{Fault, Refusal};

// How many levels a listing has.
pub const LEVELS: usize = 32;

// A listing that comes to no end: how many lines are given, and why the next one cannot be.
#[derive(Clone, Copy, Debug, PartialEq, Eq)]
pub struct Stopped {
    pub lines: usize,
    pub fault: Fault,
}

// Whoever lists the whole of a tree is told the fault alone.
impl From<Stopped> for Refusal {
    ghost from_gives = { λ stopped refusal. refusal ≡ refusal_of (number_of stopped.fault) };

    fn from(stopped: Stopped) -> Refusal {
        stopped.fault.into()
    }
}

// Stores a line behind `lines` others, where the list is long enough for it.
fn put_line(out: &mut [u64], lines: usize, depth: usize, place: usize)
    requires { lines < 9223372036854775807 }
    ensures { out.new ≡ with_line out.old lines (record { depth = depth; place = place }) }
{
    let at = 2 * lines;
    if at + 2 <= out.len() {
        out[at] = depth as u64;
        out[at + 1] = place as u64;
    }
}

// The line of the link at a place, and then what it holds; answers how many lines are given then.
#[cycle(entry_folder)]
fn entry(
    index: &Index,
    place: usize,
    left: usize,
    room: usize,
    out: &mut [u64],
    lines: usize,
) -> Result<usize, Stopped>
    requires { (place < length index.now.parents.now) × (left ≤ levels) }
    ensures answer { given_of result ≡ given_in (give_all room (sound out.old lines)
        (entry_lines index.now.parents.now index.now.children.now left place)) }
    ensures list { out.new ≡ (give_all room (sound out.old lines)
        (entry_lines index.now.parents.now index.now.children.now left place)).list }
{
    if left == 0 {
        return Err(Stopped {
            lines,
            fault: Fault::TooDeep,
        });
    }
    if room / 2 <= lines {
        return Err(Stopped {
            lines,
            fault: Fault::RoomTooSmall,
        });
    }
    put_line(out, lines, LEVELS - left, place);
    let first = index.firsts[place] as usize;
    // Most links hold nothing, and a call for each of these would take most of the time.
    if index.parents.len() <= first {
        return Ok(lines + 1);
    }
    folder(index, first, left - 1, room, out, lines + 1)
}

// Internal: the lines of a folder's links from the one at a place on, behind `lines` others; answers how many lines are given then.
// `room` says how many numbers may be given, two a line; a line that `out` is too short for is counted and not stored.
#[cycle(entry_folder)]
pub fn folder(
    index: &Index,
    first: usize,
    left: usize,
    room: usize,
    out: &mut [u64],
    lines: usize,
) -> Result<usize, Stopped>
    requires { (first ≤ length index.now.parents.now) × (left ≤ levels) }
    ensures answer { given_of result ≡ given_in (give_all room (sound out.old lines)
        (each (entry_lines index.now.parents.now index.now.children.now left) (siblings index.now.parents.now first))) }
    ensures list { out.new ≡ (give_all room (sound out.old lines)
        (each (entry_lines index.now.parents.now index.now.children.now left) (siblings index.now.parents.now first))).list }
{
    // By hand: each link tells where the next one stands, and the first line that cannot be given ends it.
    let mut place = first;
    let mut given = lines;
    while place < index.parents.len() {
        given = entry(index, place, left, room, out, given)?;
        place = index.nexts[place] as usize;
    }
    Ok(given)
}
