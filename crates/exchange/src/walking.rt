// Walking a volume: the header, the blocks by bookmark, the links of a table and the extents of a file, as numbers.
ghost use Rattle.std.specs.Prelude.{◌≡◌};
ghost use Rattle.extent.specs.Extents.{extent_at};
ghost use Rattle.links.specs.Links.{link_from};
ghost use Rattle.volume.specs.Heading.{header_answer};
ghost use Rattle.volume.specs.Reading.{read_answer};
ghost use Rattle.exchange.specs.Marks.{bookmark_of};
ghost use Rattle.exchange.specs.Walking.{heading_numbers, block_numbers, link_numbers, extent_numbers};

use crate::blocks::block_numbers;
use crate::marks::bookmark_of;
use crate::{BlockNumbers, ExtentNumbers, HeadingNumbers, LinkNumbers};
use extent::extent_at;
use format::Extent;
use links::link_from;
use refusal::Refusal;
use volume::heading::read_header;
use volume::{Found, HeaderRead};

// Where the file system ID and the hash of the previous volume begin in a volume.
const ID_OFFSET: u64 = 18;

const PREVIOUS_OFFSET: u64 = 44;

#[tactic(auto, unfolding(crate::specs::Walking::heading_numbers))]
impl From<Result<HeaderRead, Refusal>> for HeadingNumbers {
    ghost from_gives = { λ answer numbers. numbers ≡ heading_numbers answer };

    fn from(answer: Result<HeaderRead, Refusal>) -> HeadingNumbers {
        match answer {
            Ok(header) => HeadingNumbers {
                sequence: header.sequence,
                next: header.next.offset as u64,
                due: header.next.due.into(),
                id: ID_OFFSET,
                previous: PREVIOUS_OFFSET,
                ..Default::default()
            },
            Err(refusal) => HeadingNumbers {
                refusal: refusal.fault().into(),
                text: refusal.text(),
                start: refusal.start(),
                ..Default::default()
            },
        }
    }
}

#[tactic(auto, unfolding(crate::specs::Walking::block_numbers, crate::specs::Blocks::found_numbers))]
impl From<Result<Option<Found>, Refusal>> for BlockNumbers {
    ghost from_gives = { λ answer numbers. numbers ≡ block_numbers answer };

    fn from(answer: Result<Option<Found>, Refusal>) -> BlockNumbers {
        match answer {
            Ok(Some(found)) => BlockNumbers {
                number: found.number,
                ..block_numbers(found.block, found.next)
            },
            Ok(None) => BlockNumbers {
                end: 1,
                ..Default::default()
            },
            Err(refusal) => BlockNumbers {
                refusal: refusal.fault().into(),
                text: refusal.text(),
                start: refusal.start(),
                ..Default::default()
            },
        }
    }
}

#[tactic(auto, unfolding(crate::specs::Walking::extent_numbers))]
impl From<Extent> for ExtentNumbers {
    ghost from_gives = { λ extent numbers. numbers ≡ extent_numbers extent };

    fn from(extent: Extent) -> ExtentNumbers {
        ExtentNumbers {
            volume: extent.volume,
            start: extent.start.0,
            size: extent.size,
            multiplicity: extent.multiplicity.into(),
            count: extent.count,
            pre: extent.pre,
            post: extent.post,
            logical: extent.logical.0,
        }
    }
}

// The header, the bookmark after it, which has no last time, and the places of what else it hands out.
#[unsafe(no_mangle)]
pub extern "C" fn hdrfs_header(volume: &[u8]) -> HeadingNumbers
    ensures { result ≡ heading_numbers (header_answer volume.now) }
{
    read_header(volume).into()
}

// The block at the bookmark that the five numbers give, as the C interface passes one.
#[unsafe(no_mangle)]
pub extern "C" fn hdrfs_read(
    volume: &[u8],
    offset: u64,
    due: u64,
    timed: u64,
    time: u64,
    number: u64,
) -> BlockNumbers
    ensures { result ≡ block_numbers (read_answer volume.now (bookmark_of offset due timed time number)) }
{
    let mark = bookmark_of(offset, due, timed, time, number);
    mark.read(volume).into()
}

// The link that begins `at` bytes into the links of a table.
#[tactic(auto, unfolding(crate::specs::Walking::link_numbers))]
#[unsafe(no_mangle)]
pub extern "C" fn hdrfs_link(links: &[u8], at: u64) -> LinkNumbers
    ensures { result ≡ link_numbers (link_from links.now at) }
{
    // No From: where the next link begins fits a number because this one was found in the bytes, which holds of no link as such.
    match link_from(links, at as usize) {
        Some(link) => LinkNumbers {
            child: link.child,
            parent: link.parent,
            name: link.name as u64,
            namelen: link.len as u64,
            next: (link.name + link.len) as u64,
            ..Default::default()
        },
        None => LinkNumbers {
            missing: 1,
            ..Default::default()
        },
    }
}

// The extent with the given number, counted from 0, in the list of extents of a file. What lies past the end of the list is 0.
#[unsafe(no_mangle)]
pub extern "C" fn hdrfs_extent(list: &[u8], index: u64) -> ExtentNumbers
    ensures { result ≡ extent_numbers (extent_at list.now index) }
{
    extent_at(list, index as usize).into()
}
