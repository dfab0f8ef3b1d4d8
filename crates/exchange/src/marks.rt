// A bookmark as numbers, numbers as a bookmark, and the number of a fault. Each stands for a definition of the boundary, which calls cite.
ghost use Rattle.std.specs.Prelude.{◌≡◌};
ghost use Rattle.refusal.specs.Faults.{fault_number};
ghost use Rattle.exchange.specs.Marks.{timed_number, time_number, bookmark_of};

use refusal::Fault;
use volume::Bookmark;

// Whether there is a last time.
pub(crate) fn timed_number(last: Option<u64>) -> u64
    ensures { result ≡ timed_number last }
{
    last.is_some().into()
}

// The last time, or 0 where there is none.
pub(crate) fn time_number(last: Option<u64>) -> u64
    ensures { result ≡ time_number last }
{
    last.unwrap_or(0)
}

// The bookmark that five numbers give. In `due` and `timed` any number but 0 is a yes.
pub(crate) fn bookmark_of(offset: u64, due: u64, timed: u64, time: u64, number: u64) -> Bookmark
    ensures { result ≡ bookmark_of offset due timed time number }
{
    Bookmark {
        offset: offset as usize,
        due: due != 0,
        last: (timed != 0).then_some(time),
        number,
    }
}

// The number of a fault, or 0 where there is none.
pub(crate) fn fault_number(found: Result<(), Fault>) -> u64
    ensures { result ≡ fault_number found }
{
    match found {
        Ok(()) => 0,
        Err(fault) => fault.into(),
    }
}
