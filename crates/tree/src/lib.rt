// The tree of a link table, as a listing: for each link of a folder its depth and its place among the table's links, and then at once
// what it holds.
//
// Public call: `tree`. Callers: exchange, for mirrors that show or compare what an archive holds.
// `table` lends the arrays for the links: crate folders makes an index of them, counts finds out whether every line can be given, and
// lines gives them.
#![tactic(auto)]

mod table;

ghost use Rattle.std.specs.Prelude.{◌≡◌, length};
ghost use Rattle.tree.specs.Listing.{table_due, tree_answer, tree_room};

use refusal::{Fault, Refusal};
use table::list_table;
use volume::Bookmark;

// The bookmark with a table due, whatever it says itself.
fn table_due(mark: Bookmark) -> Bookmark
    ensures { result ≡ table_due mark }
{
    Bookmark { due: true, ..mark }
}

// Lists the tree below `root` of the table at the bookmark: two numbers a line go to the start of `out`, and the answer is how many
// lines there are. A refusal leaves `out` as it was.
pub fn tree(volume: &[u8], mark: Bookmark, root: u64, out: &mut [u64]) -> Result<u64, Refusal>
    ensures answer { result ≡ tree_answer volume.now mark root (length out.old) }
    ensures list { out.new ≡ tree_room volume.now mark root out.old }
{
    // Where a table is due, no reading ends.
    table_due(mark).read(volume)?.ok_or(Fault::CutShort)?;
    let lines = list_table(volume, mark.offset, root, out)?;
    Ok(lines as u64)
}
