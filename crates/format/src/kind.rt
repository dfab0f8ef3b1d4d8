// The kinds of block, found by their IDs, and the types of file that an inode's mode tells apart. specs/Kinds.antt says which is which.
ghost use Rattle.std.specs.Prelude.{◌≡◌, MatchOption};
ghost use Rattle.format.specs.Blocks.{id_of, file_type};
ghost use Rattle.format.specs.Kinds.{kind_named, type_named, NoKind};

// Each kind's number is its ID: encode writes it, and no image is proved with another.
#[derive(Clone, Copy, Debug, PartialEq, Eq)]
pub enum Kind {
    Inode = 1,
    Link = 2,
    Unlink = 3,
    Xattr = 4,
    RemovedXattr = 5,
    Data = 6,
    Rename = 7,
    Table = 8,
}

impl Kind {
    // Internal: the kind that has the ID, if there is one. No TryFrom: its error would have nothing to tell, and what follows from an
    // ID without a kind is for each caller to say.
    pub fn of(id: u8) -> Option<Kind>
        ensures { MatchOption result (NoKind id) (λ kind. id_of (kind_named kind) ≡ id) }
    {
        match id {
            1 => Some(Kind::Inode),
            2 => Some(Kind::Link),
            3 => Some(Kind::Unlink),
            4 => Some(Kind::Xattr),
            5 => Some(Kind::RemovedXattr),
            6 => Some(Kind::Data),
            7 => Some(Kind::Rename),
            8 => Some(Kind::Table),
            _ => None,
        }
    }
}

#[derive(Clone, Copy, Debug, PartialEq, Eq)]
pub enum FileType {
    Regular,
    SymbolicLink,
    Other,
}

impl FileType {
    // Internal: the type of the file that has the mode. No From: a mode says more than the type, so it is not converted.
    pub fn of(mode: u16) -> FileType
        ensures { type_named result ≡ file_type mode }
    {
        match mode / 4096 {
            8 => FileType::Regular,
            10 => FileType::SymbolicLink,
            _ => FileType::Other,
        }
    }
}
