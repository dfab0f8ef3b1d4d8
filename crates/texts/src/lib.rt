// The refusal of a block, once its fault is known: where that is a text that is not UTF-8, which of the block's texts is the first such,
// and where in it.
//
// Both calls are internal: `refusal_at` for the block at an offset of a volume, which the reader and the lookups call, and `refusal_of`
// for a block that an append is asked for. The texts are looked at only for that fault, so a sound block costs nothing here.
#![tactic(auto)]

mod standing;

ghost use Rattle.std.specs.Prelude.{◌≡◌, []};
ghost use Rattle.format.specs.Blocks.{file_type};
ghost use Rattle.format.specs.Asked.{asked};
ghost use Rattle.refusal.specs.Faults.{number_of};
ghost use Rattle.refusal.specs.Refusal.{refusal_with};
ghost use Rattle.refusal.specs.inner.FirstBad.{first_bad};
ghost use Rattle.texts.specs.Texts.{targets, texts, texts_at};

use format::kind::FileType;
use format::new_block::NewBlock;
use refusal::{BadText, Fault, Refusal, bad_of_two, bad_text};

// Internal: the refusal for the fault of a call on the block at `offset`.
pub fn refusal_at(volume: &[u8], offset: usize, fault: Fault) -> Refusal
    ensures { result ≡ refusal_with (number_of fault) (texts_at volume.now offset) }
{
    match fault {
        Fault::NotText => standing::bad_at(volume, offset).into(),
        _ => fault.into(),
    }
}

// Internal: the refusal for the fault of a block that an append is asked for.
pub fn refusal_of(block: NewBlock<'_>, fault: Fault) -> Refusal
    ensures { result ≡ refusal_with (number_of fault) (texts (asked block.entry)) }
{
    match fault {
        Fault::NotText => bad_in(block).into(),
        _ => fault.into(),
    }
}

// What is bad in the texts of a block.
fn bad_in(block: NewBlock<'_>) -> BadText
    ensures { result ≡ first_bad (texts (asked block.entry)) }
{
    match block {
        NewBlock::Inode(b) => bad_target(b.mode, b.rest),
        NewBlock::Link(b) | NewBlock::Unlink(b) => bad_text(b.name),
        NewBlock::Xattr(b) => bad_text(b.name),
        NewBlock::RemovedXattr(b) => bad_text(b.name),
        NewBlock::Data(_) => no_text(),
        NewBlock::Rename(b) => bad_of_two(b.old, b.new),
        NewBlock::Table(b) => links::first_bad_name(b.links, b.count),
    }
}

// What is bad in an inode's n bytes, which are a text only where they are a target.
fn bad_target(mode: u16, rest: &[u8]) -> BadText
    ensures { result ≡ first_bad (targets (file_type mode) rest.now) }
{
    match FileType::of(mode) {
        FileType::SymbolicLink => bad_text(rest),
        _ => no_text(),
    }
}

// A block without texts has none that is bad.
fn no_text() -> BadText
    ensures { result ≡ first_bad [] }
{
    BadText { text: 0, start: 0 }
}
