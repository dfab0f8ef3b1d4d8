// Appending a block to a volume in a lent buffer, at the bookmark that the call before answered.
//
// Every append goes the same way: the checks of the place, of what is asked for, of the time and of the room, and then
// the image and the bookmark after it. A refusal leaves the buffer as it was, and is made by crate `texts`, which knows where a text
// is at fault.
ghost use Rattle.std.specs.Prelude.{◌≡◌, ◌+◌, ltb, length};
ghost use Rattle.checks.specs.Checks.{first_fault};
ghost use Rattle.refusal.specs.Faults.{fault_number};
ghost use Rattle.format.specs.Asked.{asked};
ghost use Rattle.request.specs.Asking.{Sized};
ghost use Rattle.volume.specs.Writing.{place_order, room_order, append_fault, append_answer, append_buffer};

use crate::Bookmark;
use crate::reading::{count_full, mark_after, may_follow};
use block::limits::{HEADER_LEN, VOLUME_LIMIT};
use format::new_block::NewBlock;
use refusal::{Fault, Refusal};
use request::request_fault;
use texts::refusal_of;

impl Bookmark {
    // Appends a block: the bookmark after it, or the refusal. Its fields are sized, refused or not. Inlined, as what it calls: where the
    // kind is known the block is not laid into memory, and nothing asks for its kind.
    #[inline(always)]
    pub fn append(self, buf: &mut [u8], block: NewBlock<'_>) -> Result<Bookmark, Refusal>
        ensures answer { result ≡ append_answer (length buf.old) self (asked block.entry) }
        ensures buffer { buf.new ≡ append_buffer buf.old self (asked block.entry) }
        ensures sized { Sized (asked block.entry) }
    {
        if let Err(fault) = append_fault(self, block, buf.len()) {
            return Err(refusal_of(block, fault));
        }
        encode::write_block(buf, self.offset, block);
        let end = self.offset + block.fixed_len() + block.body_len();
        Ok(mark_after(self, end, block.time()))
    }
}

// The first fault of an append to a buffer of `room` bytes: that of the place, then that of what is asked for by itself, then that of
// the time and the room. What is asked for is checked wherever it is to stand, since that also says that its fields are sized.
#[inline(always)]
fn append_fault(mark: Bookmark, block: NewBlock<'_>, room: usize) -> Result<(), Fault>
    ensures fault { fault_number result ≡ append_fault room mark (asked block.entry) }
    ensures sized { Sized (asked block.entry) }
{
    let asked = request_fault(block);
    place_fault(mark, block.is_table())?;
    asked?;
    room_fault(
        mark,
        block.time(),
        block.fixed_len(),
        block.body_len(),
        room,
    )
}

// The first fault of the place: it lies in the header, or a table is due and this is none, or this is one and none is due,
// or no block more can be counted there.
fn place_fault(mark: Bookmark, table: bool) -> Result<(), Fault>
    ensures { fault_number result ≡ first_fault (place_order mark table) }
{
    if mark.offset < HEADER_LEN {
        return Err(Fault::OutOfPlace);
    }
    if mark.due != table {
        return Err(Fault::OutOfPlace);
    }
    if count_full(mark) {
        return Err(Fault::OverLimit);
    }
    Ok(())
}

// The first fault of the time and the room, for an image of `fixed + body` bytes.
fn room_fault(
    mark: Bookmark,
    time: Option<u64>,
    fixed: usize,
    body: usize,
    room: usize,
) -> Result<(), Fault>
    ensures { fault_number result ≡ first_fault (room_order mark time (fixed + body) room) }
{
    let offset = mark.offset;
    if !may_follow(mark.last, time) {
        return Err(Fault::TimeLower);
    }
    if runs_past(VOLUME_LIMIT, offset, fixed, body) {
        return Err(Fault::TooLarge);
    }
    if runs_past(room, offset, fixed, body) {
        return Err(Fault::RoomTooSmall);
    }
    Ok(())
}

// Whether `fixed + body` bytes at an offset run past a limit. Nothing is added, since the sum may not fit.
fn runs_past(limit: usize, offset: usize, fixed: usize, body: usize) -> bool
    ensures { result ≡ ltb limit (offset + (fixed + body)) }
{
    if limit < offset {
        return true;
    }
    let left = limit - offset;
    if left < fixed {
        return true;
    }
    left - fixed < body
}
