// Positions and runs of a file, over its list of extents.
//
// `locate` says where a position is stored, and `range` stores the runs of a range of positions in a list that the caller
// lends. Both are internal: the crate lookup calls them once it has checked the extents. A range query costs about as much as
// sorting the extents, and after that the same for each run, however long the runs are and however many copies a block has.
#![tactic(auto)]

mod walk;

ghost use Rattle.std.specs.Prelude.{◌≡◌, true, false, ◌+◌, ◌*◌, ◌<◌, ◌≤◌, min, length, take};
ghost use Rattle.number.specs.Number.{put};
ghost use Rattle.format.specs.Extents.{top};
ghost use Rattle.extent.specs.Extents.{extent_at, extent_count};
ghost use Rattle.extent.specs.inner.Tests.{is_sound, some_broken, some_overlap};
ghost use Rattle.runs.specs.Positions.{keeps};
ghost use Rattle.runs.specs.inner.Stored.{stored_at};
ghost use Rattle.runs.specs.inner.Computed.{range_numbers};
ghost use Rattle.runs.specs.inner.Answers.{IsKeeper, place_of, range_answer};

use extent::Extents;
use extent::counters::Counter;
use format::{Extent, Logical, Physical};
use walk::Sorted;

// Whether an extent keeps a position.
fn is_kept(extents: &Extents<'_>, index: usize, position: Logical) -> bool
    requires { index < extent_count extents.now.list.now }
    ensures { result ≡ keeps (extent_at extents.now.list.now index) position.0 }
{
    extents.start_of(index) <= position && position < extents.end_of(index)
}

// Where an extent stores a position that it keeps. The raw byte is taken modulo F for both multiplicities: one of 67 is
// below F, so that it stays what it is.
fn stored_at(e: Extent, position: Logical) -> Physical
    requires { (is_sound e ≡ true) × (keeps e position.0 ≡ true) }
    ensures { result.0 ≡ stored_at e position.0 }
{
    let raw = e.pre + e.logical.distance_to(position);
    let footprint = extent::footprint_len(e, e.size * e.count);
    e.start.advance(raw % footprint)
}

// The number of the extent that keeps a position.
fn keeper_of(extents: &Extents<'_>, position: Logical) -> Option<usize>
    ensures { IsKeeper extents.now.list.now position.0 result }
{
    (0..extents.len()).find(|index| is_kept(extents, *index, position))
}

// Internal: where a position is stored, the volume and the offset in it, or that no extent keeps it. This call and the next take the
// list and make the value of it here, since the definitions of a lookup speak of lists.
pub fn locate(list: &[u8], position: Logical) -> Option<(u64, Physical)>
    requires { (some_broken list.now ≡ false) × (length list.now ≤ 58368) }
    ensures { result ≡ place_of list.now position.0 }
{
    let extents = Extents { list };
    let index = keeper_of(&extents, position)?;
    let e = extents.get(index);
    Some((e.volume, stored_at(e, position)))
}

// Internal: stores the runs of a range, clipped to the size of the file, the position at which it ends, and answers how many
// there are. They are counted before any number is stored, and no further than the room goes; where it is too small for all,
// there is no answer, and nothing is stored.
pub fn range(list: &[u8], size: Logical, from: Logical, to: Logical, out: &mut [u64]) -> Option<u64>
    requires { (some_broken list.now ≡ false) × ((some_overlap list.now ≡ false) × (length list.now ≤ 58368)) }
    ensures answer { result ≡ range_answer list.now size.0 from.0 to.0 (length out.old) }
    ensures room { out.new ≡ put out.old 0 (range_numbers list.now size.0 from.0 to.0) }
{
    let end = to.min(size);
    let most = (out.len() / 5) as u64;
    let extents = Extents { list };
    let mut array = [0u32; 1024];
    let count = walk::sort_ids(&extents, &mut array);
    let sorted = Sorted {
        extents,
        ids: &array[..count],
    };
    let place = sorted.first_place(from);
    let runs = sorted.count_runs(place, from, end, most);
    if most < runs {
        return None;
    }
    sorted.fill_runs(place, from, end, out);
    Some(runs)
}
