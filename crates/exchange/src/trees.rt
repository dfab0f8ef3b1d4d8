// The listing of the tree of a link table, as numbers.
ghost use Rattle.std.specs.Prelude.{◌≡◌, length};
ghost use Rattle.tree.specs.Listing.{tree_answer, tree_room};
ghost use Rattle.exchange.specs.Marks.{bookmark_of};
ghost use Rattle.exchange.specs.Trees.{line_numbers};

use crate::LineNumbers;
use crate::marks::bookmark_of;
use refusal::Refusal;
use tree::tree;

#[tactic(auto, unfolding(crate::specs::Trees::line_numbers))]
impl From<Result<u64, Refusal>> for LineNumbers {
    ghost from_gives = { λ answer numbers. numbers ≡ line_numbers answer };

    fn from(answer: Result<u64, Refusal>) -> LineNumbers {
        match answer {
            Ok(lines) => LineNumbers {
                lines,
                ..Default::default()
            },
            Err(refusal) => LineNumbers {
                refusal: refusal.fault().into(),
                text: refusal.text(),
                start: refusal.start(),
                ..Default::default()
            },
        }
    }
}

// The tree below `root` of the table at the bookmark that the four numbers give. A table is due there, whatever else: so no number says it.
#[unsafe(no_mangle)]
pub extern "C" fn hdrfs_tree(
    volume: &[u8],
    offset: u64,
    timed: u64,
    time: u64,
    number: u64,
    root: u64,
    out: &mut [u64],
) -> LineNumbers
    ensures numbers { result ≡ line_numbers (tree_answer volume.now (bookmark_of offset 1 timed time number) root
        (length out.old)) }
    ensures list { out.new ≡ tree_room volume.now (bookmark_of offset 1 timed time number) root out.old }
{
    let mark = bookmark_of(offset, 1, timed, time, number);
    tree(volume, mark, root, out).into()
}
