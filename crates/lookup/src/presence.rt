// Whether what the extents of a file name is there. Each test of one extent stands in one function, and the scans ask it of
// every extent of a list.
ghost use Rattle.std.specs.Prelude.{◌≡◌, true};
ghost use Rattle.format.specs.Extents.{kept_length};
ghost use Rattle.extent.specs.inner.Tests.{is_sound};
ghost use Rattle.lookup.specs.Lookup.{is_absent, some_absent, is_stray, some_stray};

use extent::Extents;
use extent::counters::Counter;
use format::{Extent, Physical};

// How many bytes a volume's length takes among the lengths.
pub(crate) const ENTRY_LEN: usize = 8;

// L, the kept length.
#[tactic(auto, using(extent::proofs::Sound::sound_bounded))]
fn kept_len(e: Extent) -> u64
    requires { is_sound e ≡ true }
    ensures { result ≡ kept_length e }
{
    e.size * e.count - (e.pre + e.post)
}

// Whether a sound extent keeps something, and names no entry or a place that reaches beyond that volume's length.
#[tactic(auto, using(extent::proofs::Sound::sound_bounded), unfolding(crate::specs::Lookup::is_absent))]
fn is_absent(lengths: &[u8], e: Extent) -> bool
    requires { is_sound e ≡ true }
    ensures { result ≡ is_absent lengths.now e }
{
    if kept_len(e) == 0 {
        return false;
    }
    if (lengths.len() / ENTRY_LEN) as u64 <= e.volume {
        return true;
    }
    let volume_end = Physical(number::read_u64(lengths, ENTRY_LEN * e.volume as usize));
    let block_end = e.start.advance(extent::footprint_len(e, e.size * e.count));
    volume_end < block_end
}

// Whether a sound extent keeps a byte of a block of size 0.
#[tactic(auto, unfolding(crate::specs::Lookup::is_stray))]
fn is_stray(e: Extent) -> bool
    requires { is_sound e ≡ true }
    ensures { result ≡ is_stray e }
{
    e.size == 0 && 0 < kept_len(e)
}

// Whether what some extent of the list names is absent.
pub(crate) fn some_absent(lengths: &[u8], extents: &Extents<'_>) -> bool
    ensures { result ≡ some_absent lengths.now extents.now.list.now }
{
    (0..extents.len()).any(|index| is_absent(lengths, extents.get(index)))
}

// Whether some extent of the list is stray.
pub(crate) fn some_stray(extents: &Extents<'_>) -> bool
    ensures { result ≡ some_stray extents.now.list.now }
{
    (0..extents.len()).any(|index| is_stray(extents.get(index)))
}
