// A block that is to be written: its fields, with the variable parts lent.
//
// The lengths of these parts are no fields here, since a slice has its own. specs/Asked.antt says which block each of them is.
ghost use Rattle.std.specs.Prelude.{◌≡◌, ◌+◌, eqb, length};
ghost use Rattle.format.specs.Layout.{total};
ghost use Rattle.format.specs.Blocks.{id_of, kind_of, widths, body};
ghost use Rattle.format.specs.Readings.{time_of};
ghost use Rattle.format.specs.Asked.{asked};

// The n bytes of an inode block are a symbolic link's target or a regular file's list of extents.
#[derive(Clone, Copy)]
pub struct Inode<'a> {
    pub inode: u64,
    pub time: u64,
    pub mode: u16,
    pub uid: u16,
    pub gid: u16,
    pub atime: u64,
    pub mtime: u64,
    pub ctime: u64,
    pub btime: u64,
    pub size: u64,
    pub rest: &'a [u8],
}

// A link or an unlink.
#[derive(Clone, Copy)]
pub struct Link<'a> {
    pub time: u64,
    pub child: u64,
    pub parent: u64,
    pub name: &'a [u8],
}

#[derive(Clone, Copy)]
pub struct Xattr<'a> {
    pub time: u64,
    pub inode: u64,
    pub name: &'a [u8],
    pub value: &'a [u8],
}

#[derive(Clone, Copy)]
pub struct RemovedXattr<'a> {
    pub time: u64,
    pub inode: u64,
    pub name: &'a [u8],
}

#[derive(Clone, Copy)]
pub struct Data<'a> {
    pub time: u64,
    pub payload: &'a [u8],
}

#[derive(Clone, Copy)]
pub struct Rename<'a> {
    pub time: u64,
    pub old: &'a [u8],
    pub new: &'a [u8],
}

// The bytes of `count` links, one after the other.
#[derive(Clone, Copy)]
pub struct Table<'a> {
    pub count: u64,
    pub links: &'a [u8],
}

#[derive(Clone, Copy)]
pub enum NewBlock<'a> {
    Inode(Inode<'a>),
    Link(Link<'a>),
    Unlink(Link<'a>),
    Xattr(Xattr<'a>),
    RemovedXattr(RemovedXattr<'a>),
    Data(Data<'a>),
    Rename(Rename<'a>),
    Table(Table<'a>),
}

// What every append asks of a block, whatever its kind.
impl NewBlock<'_> {
    // Internal: the time of the block. A table has none.
    pub fn time(&self) -> Option<u64>
        ensures { result ≡ time_of (asked self.now) }
    {
        match self {
            NewBlock::Inode(b) => Some(b.time),
            NewBlock::Link(b) | NewBlock::Unlink(b) => Some(b.time),
            NewBlock::Xattr(b) => Some(b.time),
            NewBlock::RemovedXattr(b) => Some(b.time),
            NewBlock::Data(b) => Some(b.time),
            NewBlock::Rename(b) => Some(b.time),
            NewBlock::Table(_) => None,
        }
    }

    // Internal: whether it is a table.
    pub fn is_table(&self) -> bool
        ensures { result ≡ eqb (id_of (kind_of (asked self.now))) 8 }
    {
        matches!(self, NewBlock::Table(_))
    }

    // Internal: how many bytes the image has besides those of the variable parts: the ID, the fixed fields and the checksum.
    pub fn fixed_len(&self) -> usize
        ensures { result ≡ 1 + total (widths (kind_of (asked self.now))) + 4 }
    {
        match self {
            NewBlock::Inode(_) => 75,
            NewBlock::Link(_) | NewBlock::Unlink(_) => 31,
            NewBlock::Xattr(_) => 24,
            NewBlock::RemovedXattr(_) => 22,
            NewBlock::Data(_) => 21,
            NewBlock::Rename(_) => 17,
            NewBlock::Table(_) => 13,
        }
    }

    // Internal: how many bytes the variable parts have.
    pub fn body_len(&self) -> usize
        ensures { result ≡ length (body (asked self.now)) }
    {
        match self {
            NewBlock::Inode(b) => b.rest.len(),
            NewBlock::Link(b) | NewBlock::Unlink(b) => b.name.len(),
            NewBlock::Xattr(b) => b.name.len() + b.value.len(),
            NewBlock::RemovedXattr(b) => b.name.len(),
            NewBlock::Data(b) => b.payload.len(),
            NewBlock::Rename(b) => b.old.len() + b.new.len(),
            NewBlock::Table(b) => b.links.len(),
        }
    }
}
