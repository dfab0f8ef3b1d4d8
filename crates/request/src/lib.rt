// The block that an append is asked for, checked by itself: lengths, link bytes, texts, the rules of an inode and of a table.
//
// There is no bookmark and no buffer here. `request_fault` is handed a block whole, also the numbers that have no check, so that
// its contract can say two things of it: its first fault; and that it is sized, whether it is refused or not, which the types of its
// fields give. Crate `volume` makes the call between the checks of the place and those of time and room.
#![tactic(auto)]

ghost use Rattle.std.specs.Prelude.{◌≡◌, not, [], ◌∷◌, ltb, length};
ghost use Rattle.checks.specs.Checks.{check, first_fault};
ghost use Rattle.refusal.specs.Faults.{fault_number};
ghost use Rattle.format.specs.Blocks.{Inode, Link, Xattr, RemovedXattr, Data, Rename, Table};
ghost use Rattle.format.specs.Asked.{asked};
ghost use Rattle.utf8.specs.inner.Length.{is_text};
ghost use Rattle.request.specs.Requests.{name_order, request_order};
ghost use Rattle.request.specs.Asking.{Sized};

use block::limits::MAX_LINKS;
use format::new_block::NewBlock;
use refusal::Fault;

// The most bytes of the name of an xattr: its length field is one byte wide.
const XATTR_NAME_MOST: usize = 255;

// The most bytes of the name in a link or an unlink, of an xattr's value, or of a path: their length fields are two bytes wide.
const LONG_MOST: usize = 65535;

// That bytes are not longer than a length field can say, whose largest value is `most`.
fn length_fault(bytes: &[u8], most: usize) -> Result<(), Fault>
    ensures { fault_number result ≡ first_fault (check (ltb most (length bytes.now)) 9 ∷ []) }
{
    if most < bytes.len() {
        return Err(Fault::OverLimit);
    }
    Ok(())
}

// That a text is UTF-8.
fn text_fault(text: &[u8]) -> Result<(), Fault>
    ensures { fault_number result ≡ first_fault (check (not (is_text text.now)) 10 ∷ []) }
{
    if !utf8::is_text(text) {
        return Err(Fault::NotText);
    }
    Ok(())
}

// The first fault of a name that is all there is to check. `most` is the largest value of its length field.
fn name_fault(name: &[u8], most: usize) -> Result<(), Fault>
    ensures { fault_number result ≡ first_fault (name_order most name.now) }
{
    length_fault(name, most)?;
    text_fault(name)
}

// The calls below take the fields one by one, not their struct: of a number or of bytes that are handed over by themselves a proof
// knows that they fit their type, which `sized` says, and of a field it does not.

// The first fault of a link, and of an unlink, which has the same fields.
fn link_fault(time: u64, child: u64, parent: u64, name: &[u8]) -> Result<(), Fault>
    ensures fault { fault_number result ≡ first_fault (name_order 65535 name.now) }
    ensures sized { Sized (Link (record { time = time; child = child; parent = parent; name = name.now })) }
{
    name_fault(name, LONG_MOST)
}

// The first fault of an xattr. The value is raw bytes. Both lengths are refused by the same number, so either may be tested first.
fn xattr_fault(time: u64, inode: u64, name: &[u8], value: &[u8]) -> Result<(), Fault>
    ensures fault { fault_number result ≡ first_fault (request_order (Xattr (record { time = time; inode = inode; name = name.now; value = value.now }))) }
    ensures sized { Sized (Xattr (record { time = time; inode = inode; name = name.now; value = value.now })) }
{
    length_fault(value, LONG_MOST)?;
    name_fault(name, XATTR_NAME_MOST)
}

// The first fault of a removed xattr.
fn removed_xattr_fault(time: u64, inode: u64, name: &[u8]) -> Result<(), Fault>
    ensures fault { fault_number result ≡ first_fault (request_order (RemovedXattr (record { time = time; inode = inode; name = name.now }))) }
    ensures sized { Sized (RemovedXattr (record { time = time; inode = inode; name = name.now })) }
{
    name_fault(name, XATTR_NAME_MOST)
}

// A payload has no checks.
fn data_fault(time: u64, payload: &[u8]) -> Result<(), Fault>
    ensures fault { fault_number result ≡ first_fault (request_order (Data (record { time = time; payload = payload.now }))) }
    ensures sized { Sized (Data (record { time = time; payload = payload.now })) }
{
    Ok(())
}

// The first fault of a rename. The lengths of both paths come before either text.
fn rename_fault(time: u64, old: &[u8], new: &[u8]) -> Result<(), Fault>
    ensures fault { fault_number result ≡ first_fault (request_order (Rename (record { time = time; old = old.now; new = new.now }))) }
    ensures sized { Sized (Rename (record { time = time; old = old.now; new = new.now })) }
{
    length_fault(old, LONG_MOST)?;
    length_fault(new, LONG_MOST)?;
    text_fault(old)?;
    text_fault(new)
}

// The first fault of a table. The names are looked at only in bytes that are exactly the stated links.
fn table_fault(count: u64, links: &[u8]) -> Result<(), Fault>
    ensures fault { fault_number result ≡ first_fault (request_order (Table (record { count = count; links = links.now }))) }
    ensures sized { Sized (Table (record { count = count; links = links.now })) }
{
    if MAX_LINKS < count {
        return Err(Fault::OverLimit);
    }
    if links::links_len(links, count) != links.len() {
        return Err(Fault::RuleBroken);
    }
    if links::some_name_not_text(links, count) {
        return Err(Fault::NotText);
    }
    if links::some_link_twice(links, count) {
        return Err(Fault::LinkTwice);
    }
    Ok(())
}

// The first fault of an inode. The rules of its size and its n bytes go by the file type, and so by the mode; no other field has one.
fn inode_fault(
    inode: u64,
    time: u64,
    mode: u16,
    uid: u16,
    gid: u16,
    atime: u64,
    mtime: u64,
    ctime: u64,
    btime: u64,
    size: u64,
    rest: &[u8],
) -> Result<(), Fault>
    ensures fault { fault_number result ≡ first_fault (request_order (Inode (record { inode = inode; time = time; mode = mode; uid = uid; gid = gid; atime = atime; mtime = mtime; ctime = ctime; btime = btime; size = size; rest = rest.now }))) }
    ensures sized { Sized (Inode (record { inode = inode; time = time; mode = mode; uid = uid; gid = gid; atime = atime; mtime = mtime; ctime = ctime; btime = btime; size = size; rest = rest.now })) }
{
    if block::inode::is_too_long(mode, rest.len() as u64) {
        return Err(Fault::OverLimit);
    }
    block::inode::rest_fault(mode, size, rest)
}

// Internal: the first fault of a block. Inlined, so that a kind that is known is not asked for.
#[inline(always)]
pub fn request_fault(block: NewBlock<'_>) -> Result<(), Fault>
    ensures fault { fault_number result ≡ first_fault (request_order (asked block.entry)) }
    ensures sized { Sized (asked block.entry) }
{
    match block {
        NewBlock::Inode(b) => inode_fault(
            b.inode, b.time, b.mode, b.uid, b.gid, b.atime, b.mtime, b.ctime, b.btime, b.size,
            b.rest,
        ),
        NewBlock::Link(b) | NewBlock::Unlink(b) => link_fault(b.time, b.child, b.parent, b.name),
        NewBlock::Xattr(b) => xattr_fault(b.time, b.inode, b.name, b.value),
        NewBlock::RemovedXattr(b) => removed_xattr_fault(b.time, b.inode, b.name),
        NewBlock::Data(b) => data_fault(b.time, b.payload),
        NewBlock::Rename(b) => rename_fault(b.time, b.old, b.new),
        NewBlock::Table(b) => table_fault(b.count, b.links),
    }
}
