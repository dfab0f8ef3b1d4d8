// A refusal: the fault that says why a call refuses, by the list of numbers, and for a text that is not UTF-8 which text it is and
// where in it the fault begins.
//
// Every crate whose calls can refuse takes the faults from here. A refusal is made from a fault or from a bad text, by `From`, and
// nowhere else. `bad_text` and `bad_of_two` find the first fault in texts; links does so in the names of a table.
#![tactic(auto)]

ghost use Rattle.std.specs.Prelude.{◌≡◌, [], ◌∷◌};
ghost use Rattle.std.proofs.Common.{ap};
ghost use Rattle.refusal.specs.Faults.{number_of};
ghost use Rattle.refusal.specs.inner.Numbered.{fault_of, fault_of-number};
ghost use Rattle.refusal.specs.Refusal.{Refusal, refusal_of, refusal_at};
ghost use Rattle.refusal.specs.inner.FirstBad.{first_bad};

use std::error::Error;
use std::fmt;
use std::marker::Model;

// A fault, by the list of refusals.
#[derive(Clone, Copy, Debug, PartialEq, Eq)]
pub enum Fault {
    // The volume has more bytes than are allowed.
    TooLarge = 1,
    // The bytes end before the header or the block does, or before the offset.
    CutShort = 2,
    MagicWrong = 3,
    // The version, the CRC algorithm or the hash algorithm is not 0.
    VersionUnknown = 4,
    ChecksumWrong = 5,
    // Volume 0 has a previous hash.
    HashNotZero = 6,
    IdUnknown = 7,
    // The offset lies in the header, or a table is missing where it is due, or stands where it is not.
    OutOfPlace = 8,
    // More extents, links or volume lengths than are allowed, or more blocks than a bookmark can count; in writing, a name, value
    // or path too long for its length field.
    OverLimit = 9,
    // A name, a path or a link target is not UTF-8.
    NotText = 10,
    // Another rule on an inode's fields is broken; in writing, an ID or a hash of another length, or link bytes that are not
    // exactly the stated links.
    RuleBroken = 11,
    // Two extents of a file keep the same position.
    RangesOverlap = 12,
    // Two links of a table have the same parent and the same name.
    LinkTwice = 13,
    // The time is lower than the last one before it; an equal one is allowed.
    TimeLower = 14,
    // The block is not the inode of a regular file.
    NotRegularFile = 15,
    // A volume or a range that is asked for is not there.
    NotThere = 16,
    // The result is longer than the lent room.
    RoomTooSmall = 17,
    // An extent keeps a byte of a block of size 0. No call gives it: such an extent keeps nothing.
    Stray = 18,
    // Of two volumes that are both accepted the second does not follow the first: another file system ID, a number that is not one
    // above the first volume's, or a previous hash that is not its digest.
    DoesNotFollow = 23,
    // A listing of a tree goes deeper than its levels, as in a loop.
    TooDeep = 24,
}

impl fmt::Display for Fault {
    fn fmt<W: fmt::Write>(&self, f: &mut fmt::Formatter<W>) -> fmt::Result {
        f.write_str(match self {
            Fault::TooLarge => "the volume is too large",
            Fault::CutShort => "the bytes end too early",
            Fault::MagicWrong => "the magic is wrong",
            Fault::VersionUnknown => "the version or an algorithm is unknown",
            Fault::ChecksumWrong => "the checksum is wrong",
            Fault::HashNotZero => "volume 0 has a previous hash",
            Fault::IdUnknown => "no kind of block has this ID",
            Fault::OutOfPlace => "the block is out of place",
            Fault::OverLimit => "a limit is passed",
            Fault::NotText => "a text is not UTF-8",
            Fault::RuleBroken => "a rule on the fields is broken",
            Fault::RangesOverlap => "two extents keep the same position",
            Fault::LinkTwice => "a link stands twice",
            Fault::TimeLower => "the time is lower than the one before",
            Fault::NotRegularFile => "the block is not the inode of a regular file",
            Fault::NotThere => "the volume or the range is not there",
            Fault::RoomTooSmall => "the room is too small",
            Fault::Stray => "an extent keeps a byte of a block of size 0",
            Fault::DoesNotFollow => "the second volume does not follow the first",
            Fault::TooDeep => "the tree is too deep",
        })
    }
}

impl Error for Fault {}

impl From<Fault> for u64 {
    ghost from_gives = { λ fault number. number ≡ number_of fault };

    fn from(fault: Fault) -> u64 {
        fault as u64
    }
}

// Why a call refuses. Where the fault is that a text is not UTF-8, `text` says which text of the block is the first, counted from 0,
// and `start` where in that text the first ill-formed sequence starts; else both are 0.
//
// A struct, and no enum with a case for each: a clause sees its three numbers, as they cross to C, and an enum has no model.
#[derive(Clone, Copy, Debug)]
pub struct Refusal {
    fault: Fault,
    text: u64,
    start: u64,
}

// A clause sees the number in place of the fault.
impl Model for Refusal {
    ghost Value = { Refusal };

    ghost view = { λ r. record { number = number_of r.fault; text = r.text; start = r.start } };

    ghost inverse = { λ v. record { fault = fault_of v.number; text = v.text; start = v.start } };

    ghost inverse_ok = { λ r _. ap (λ fault. record { fault = fault; text = r.text; start = r.start }) (fault_of-number r.fault) };
}

impl Refusal {
    pub fn fault(&self) -> Fault
        ensures { number_of result ≡ self.now.number }
    {
        self.fault
    }

    pub fn text(&self) -> u64
        ensures { result ≡ self.now.text }
    {
        self.text
    }

    pub fn start(&self) -> u64
        ensures { result ≡ self.now.start }
    {
        self.start
    }
}

// Among several texts: the first that is not UTF-8, and where in it the first ill-formed sequence starts. Where there is none, `text`
// is the number of the texts and `start` is 0.
//
// No Option of a place: what is promised of a refusal's text holds of every fault, also where no text is bad, and then tells the number
// of the texts. That an Option is there would have to be shown at each call.
#[derive(Clone, Copy, Debug, PartialEq, Eq)]
pub struct BadText {
    pub text: u64,
    pub start: u64,
}

// The number, and of a text that is not UTF-8 which one it is and where.
impl fmt::Display for Refusal {
    fn fmt<W: fmt::Write>(&self, f: &mut fmt::Formatter<W>) -> fmt::Result {
        write!(f, "refused {}", u64::from(self.fault))?;
        if self.fault == Fault::NotText {
            write!(f, " text {} start {}", self.text, self.start)?;
        }
        Ok(())
    }
}

impl Error for Refusal {}

// A fault alone has nothing to say of a text, so `text` and `start` are 0. Whoever knows which text is bad makes the refusal from a
// BadText instead.
impl From<Fault> for Refusal {
    ghost from_gives = { λ fault refusal. refusal ≡ refusal_of (number_of fault) };

    fn from(fault: Fault) -> Refusal {
        Refusal {
            fault,
            text: 0,
            start: 0,
        }
    }
}

// A text that is bad is refused as NotText, and told.
impl From<BadText> for Refusal {
    ghost from_gives = { λ bad refusal. refusal ≡ refusal_at bad };

    fn from(bad: BadText) -> Refusal {
        Refusal {
            fault: Fault::NotText,
            text: bad.text,
            start: bad.start,
        }
    }
}

// Internal: what is bad in a single text.
pub fn bad_text(text: &[u8]) -> BadText
    ensures { result ≡ first_bad (text.now ∷ []) }
{
    let start = utf8::well_formed_len(text);
    if start == text.len() {
        return BadText { text: 1, start: 0 };
    }
    BadText {
        text: 0,
        start: start as u64,
    }
}

// Internal: what is bad in two texts. The second is looked at only where the first is UTF-8.
pub fn bad_of_two(first: &[u8], second: &[u8]) -> BadText
    ensures { result ≡ first_bad (first.now ∷ second.now ∷ []) }
{
    let bad = bad_text(first);
    if bad.text == 0 {
        return bad;
    }
    let later = bad_text(second);
    BadText {
        text: 1 + later.text,
        start: later.start,
    }
}
