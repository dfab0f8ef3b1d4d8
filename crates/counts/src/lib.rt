// How many lines a listing has, and whether one of them is too deep, without going through them: links that share a folder would
// have it gone through again and again.
//
// The lines are counted level by level instead. With so many levels left, `counts` has for each link the tally of the lines from it on
// to the end of its folder, and behind those of all links a 0. A link's count with a level more follows from the count of what it holds
// and from that of the next link, which stands behind it: so a level is counted from the last link to the first.
// Call: `count_lines`; the crate tree makes it before a line is stored.
#![tactic(auto)]

ghost use Rattle.std.specs.Prelude.{◌≡◌, [], ◌+◌, ◌<◌, ◌≤◌, length};
ghost use Rattle.folders.specs.Lines.{levels, each, entry_lines};
ghost use Rattle.folders.specs.inner.Folders.{siblings};
ghost use Rattle.lines.specs.inner.Giving.{sound, give_all, given_in, given_of};
ghost use Rattle.counts.specs.inner.Counting.{most, joined, Counted, Follows, Small, Bottom, given_at};

use folders::Index;
use lines::{LEVELS, Stopped};
use refusal::Fault;

// Counts above this one are not told apart: it is above every room, and the sum of two of them fits.
const MOST: u64 = 1 << 62;

// The count of a link's line, of what it holds and of what stands behind it. Nothing is given behind a line that is too deep.
// A count is twice the number of lines, and odd where a line is too deep: a pair would take sixteen bytes for eight, in
// arrays that are gone through again for each level.
fn join_counts(inside: u64, behind: u64) -> u64
    requires { (inside ≤ most) × (behind ≤ most) }
    ensures { result ≡ joined inside behind }
{
    if inside % 2 == 1 {
        return (inside + 2).min(MOST);
    }
    (inside + 2 + behind).min(MOST)
}

// The counts where no level is left: the line of every link is too deep.
fn count_none(counts: &mut [u64], links: usize)
    requires { links < length counts.old }
    ensures { Bottom counts.new links links }
{
    counts[..links].fill(1);
    counts[links] = 0;
}

// The counts with one level more than those of `below`.
fn count_level(index: &Index, below: &[u64], counts: &mut [u64])
    requires links_in_bounds { (length index.now.parents.now < length below.now) × (length index.now.parents.now < length counts.old) }
    requires small { Small below.now (length index.now.parents.now) 0 }
    ensures { Follows index.now.nexts.now index.now.firsts.now below.now counts.new (length index.now.parents.now) 0 }
{
    let links = index.parents.len();
    counts[links] = 0;
    for i in (0..links).rev() {
        let inside = below[index.firsts[i] as usize];
        let behind = counts[index.nexts[i] as usize];
        counts[i] = join_counts(inside, behind);
    }
}

// The counts with all levels left, from those with none. Each level follows from the one below it alone, so where two levels have the
// same counts, all levels above them have: then it ends early.
fn count_levels(index: &Index, counts: &mut [u64], others: &mut [u64])
    requires parents_in_bounds { (length index.now.parents.now < length counts.old) × (length index.now.parents.now < length others.old) }
    requires counted { Counted index.now.parents.now index.now.children.now counts.old 0 }
    ensures { Counted index.now.parents.now index.now.children.now counts.new levels }
{
    let links = index.parents.len();
    for _pair in 0..LEVELS / 2 {
        count_level(index, counts, others);
        if &counts[..=links] == &others[..=links] {
            return;
        }
        count_level(index, others, counts);
    }
}

// What is answered of a count.
fn answer_of(count: u64, room: usize) -> Result<usize, Stopped>
    ensures { given_of result ≡ given_at room count }
{
    let lines = (count / 2) as usize;
    if room / 2 < lines {
        return Err(Stopped {
            lines: room / 2,
            fault: Fault::RoomTooSmall,
        });
    }
    if count % 2 == 1 {
        return Err(Stopped {
            lines,
            fault: Fault::TooDeep,
        });
    }
    Ok(lines)
}

// Internal: what giving the lines of a folder's links from the one at a place on answers. `counts` and `others` are lent to count in,
// with an entry for each link and one more. The room is the length of a list of numbers, so that it is below `most`.
pub fn count_lines(
    index: &Index,
    first: usize,
    room: usize,
    counts: &mut [u64],
    others: &mut [u64],
) -> Result<usize, Stopped>
    requires parents_in_bounds { (length index.now.parents.now < length counts.old) × (length index.now.parents.now < length others.old) }
    requires first_in_bounds { (first ≤ length index.now.parents.now) × (room < most) }
    ensures { given_of result ≡ given_in (give_all room (sound [] 0)
        (each (entry_lines index.now.parents.now index.now.children.now levels) (siblings index.now.parents.now first))) }
{
    count_none(counts, index.parents.len());
    count_levels(index, counts, others);
    answer_of(counts[first], room)
}
