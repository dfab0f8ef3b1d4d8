// The listing of the table at an offset: its links in arrays, their index, the count of the lines, and the lines.
ghost use Rattle.std.specs.Prelude.{◌≡◌, [], ◌+◌, ◌<◌, ◌≤◌, length};
ghost use Rattle.links.specs.Links.{links_from};
ghost use Rattle.folders.specs.Lines.{levels, each, entry_lines, tree_lines};
ghost use Rattle.folders.specs.inner.Folders.{siblings};
ghost use Rattle.lines.specs.inner.Giving.{sound, give_all, given_in, given_of};
ghost use Rattle.counts.specs.inner.Counting.{most};
ghost use Rattle.format.specs.Blocks.{link_table};
ghost use Rattle.block.specs.Fields.{field_at};
ghost use Rattle.tree.specs.Listing.{lines_at};
ghost use Rattle.tree.specs.inner.Listed.{Listed};

use counts::count_lines;
use folders::{Index, index_all};
use lines::{LEVELS, Stopped, folder};

// The links for which small arrays are used are below this: most tables are short, and to clear the arrays of a long one would take
// longer than to list them.
const FEW: usize = 65;
// One more than the most links of a table.
const MANY: usize = 4097;

// How many lines the links of a folder give from the one at `first` on, or why not every one can be given.
fn count_all<const N: usize>(index: &Index, first: usize, room: usize) -> Result<usize, Stopped>
    requires { (first ≤ length index.now.parents.now) × (length index.now.parents.now < N) × (N ≤ 4097) × (room < most) }
    ensures { given_of result ≡ given_in (give_all room (sound [] 0)
        (each (entry_lines index.now.parents.now index.now.children.now levels) (siblings index.now.parents.now first))) }
{
    let mut counts = [0u64; N];
    let mut others = [0u64; N];
    count_lines(index, first, room, &mut counts, &mut others)
}

// Lists the links of a folder from the one at `first` on. Nothing is stored before it is known that every line can be given.
fn list_from<const N: usize>(index: &Index, first: usize, out: &mut [u64]) -> Result<usize, Stopped>
    requires { (first ≤ length index.now.parents.now) × ((length index.now.parents.now < N) × (N ≤ 4097)) }
    ensures { Listed (each (entry_lines index.now.parents.now index.now.children.now levels) (siblings index.now.parents.now first))
        out.old (given_of result) out.new }
{
    count_all::<N>(index, first, out.len())?;
    folder(index, first, LEVELS, out.len(), out, 0)
}

// Lists the tree of the first `count` links in the bytes, with arrays for more than that many.
fn list<const N: usize>(
    links: &[u8],
    count: usize,
    root: u64,
    out: &mut [u64],
) -> Result<usize, Stopped>
    requires { (count < N) × (N ≤ 4097) }
    ensures { Listed (tree_lines (links_from links.now 0 count) root) out.old (given_of result) out.new }
{
    let mut parents = [0u64; N];
    let mut children = [0u64; N];
    links::load(links, count, &mut parents, &mut children);
    let mut heads = [0u32; N];
    let mut nexts = [0u32; N];
    let mut firsts = [0u32; N];
    let index = index_all(
        &parents[..count],
        &children[..count],
        &mut heads,
        &mut nexts,
        &mut firsts,
    );
    list_from::<N>(&index, index.first_of(root), out)
}

// Lists the tree of the table at `offset`, which was read without a fault.
pub(crate) fn list_table(
    volume: &[u8],
    offset: usize,
    root: u64,
    out: &mut [u64],
) -> Result<usize, Stopped>
    requires { (offset + 9 ≤ length volume.now) × (field_at link_table "link count" volume.now offset ≤ 4096) }
    ensures { Listed (lines_at volume.now offset root) out.old (given_of result) out.new }
{
    let count = number::read_u64(volume, offset + 1) as usize;
    let links = &volume[offset + 9..];
    if count < FEW {
        return list::<FEW>(links, count, root, out);
    }
    list::<MANY>(links, count, root, out)
}
