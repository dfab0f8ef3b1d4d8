// The texts of a block where it stands in a volume. Nothing is known of the block here: its fields are read and its texts are taken as
// far as the volume goes.
ghost use Rattle.std.specs.Prelude.{◌≡◌, [], ◌∷◌, ◌<◌, length};
ghost use Rattle.number.specs.Number.{part};
ghost use Rattle.format.specs.Blocks.{inode_block, rename_block, link_table};
ghost use Rattle.block.specs.Shown.{shown};
ghost use Rattle.block.specs.inner.Decoded.{block_of};
ghost use Rattle.refusal.specs.inner.FirstBad.{first_bad};
ghost use Rattle.texts.specs.Texts.{texts, texts_at};

use crate::{bad_target, no_text};
use format::kind::Kind;
use number::part_of;
use refusal::{BadText, bad_of_two, bad_text};

// The first text of the block at `offset` that is not UTF-8.
pub(crate) fn bad_at(volume: &[u8], offset: usize) -> BadText
    ensures { result ≡ first_bad (texts_at volume.now offset) }
{
    // Past the end there is nothing, and the offset of a field might not fit.
    if volume.len() <= offset {
        return no_text();
    }
    bad_in_block(volume, offset)
}

// The same within the volume, by the block's kind.
fn bad_in_block(volume: &[u8], offset: usize) -> BadText
    requires { offset < length volume.now }
    ensures { result ≡ first_bad (texts_at volume.now offset) }
{
    // Link and unlink stand apart: of one arm for both the proof knows only "either kind", which it would have to take apart again.
    match block::kind_at(volume, offset) {
        Kind::Inode => bad_in_inode(volume, offset),
        Kind::Link => bad_name(
            volume,
            offset + 27,
            number::read_u16(volume, offset + 25) as usize,
        ),
        Kind::Unlink => bad_name(
            volume,
            offset + 27,
            number::read_u16(volume, offset + 25) as usize,
        ),
        Kind::Xattr => bad_name(
            volume,
            offset + 20,
            number::read_u8(volume, offset + 17) as usize,
        ),
        Kind::RemovedXattr => bad_name(
            volume,
            offset + 18,
            number::read_u8(volume, offset + 17) as usize,
        ),
        Kind::Data => no_text(),
        Kind::Rename => bad_path(volume, offset),
        Kind::Table => bad_in_table(volume, offset),
    }
}

// What is bad in a name of `len` bytes from `from` on.
fn bad_name(volume: &[u8], from: usize, len: usize) -> BadText
    ensures { result ≡ first_bad (part volume.now from len ∷ []) }
{
    bad_text(part_of(volume, from, len))
}

// What is bad in the n bytes of an inode.
fn bad_in_inode(volume: &[u8], offset: usize) -> BadText
    requires { offset < length volume.now }
    ensures { result ≡ first_bad (texts (shown volume.now (block_of inode_block volume.now offset))) }
{
    let mode = number::read_u16(volume, offset + 17);
    let n = number::read_u64(volume, offset + 63) as usize;
    bad_target(mode, part_of(volume, offset + 71, n))
}

// What is bad in the paths of a rename.
fn bad_path(volume: &[u8], offset: usize) -> BadText
    requires { offset < length volume.now }
    ensures { result ≡ first_bad (texts (shown volume.now (block_of rename_block volume.now offset))) }
{
    let n = number::read_u16(volume, offset + 9) as usize;
    let m = number::read_u16(volume, offset + 11) as usize;
    let old = part_of(volume, offset + 13, n);
    let new = part_of(volume, offset + 13 + n, m);
    bad_of_two(old, new)
}

// What is bad in the names of a table.
fn bad_in_table(volume: &[u8], offset: usize) -> BadText
    requires { offset < length volume.now }
    ensures { result ≡ first_bad (texts (shown volume.now (block_of link_table volume.now offset))) }
{
    let count = number::read_u64(volume, offset + 1);
    links::first_bad_name(part_of(volume, offset + 9, volume.len()), count)
}
