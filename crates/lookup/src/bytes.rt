// Fetching stored bytes: the very part of one of two lent volumes.
ghost use Rattle.std.specs.Prelude.{◌≡◌, ◌+◌, ◌≤◌, ltb, length};
ghost use Rattle.refusal.specs.Faults.{fault_number};
ghost use Rattle.number.specs.Number.{part};
ghost use Rattle.number.specs.Address.{address_in};
ghost use Rattle.lookup.specs.Fetch.{out_of, chosen, fetch_fault};
ghost use Rattle.lookup.specs.inner.Part.{fetch_part, fetch_address};

use format::Physical;
use refusal::Fault;

// Whether `len` bytes from `offset` on reach beyond `end`. The rest is compared and nothing is added: the sum may not fit.
fn reaches_beyond(end: usize, offset: Physical, len: u64) -> bool
    ensures { result ≡ ltb end (offset.0 + len) }
{
    let from = offset.0;
    let left = end as u64;
    if left < from {
        return true;
    }
    left - from < len
}

// Whether neither volume has the number, or the range reaches beyond the one that has it.
#[tactic(auto, unfolding(crate::specs::Fetch::chosen))]
fn is_out_of(first: &[u8], second: &[u8], number: u64, offset: Physical, len: u64) -> bool
    ensures { result ≡ out_of offset.0 len (chosen first.now second.now number) }
{
    if number::read_u64(first, 36) == number {
        return reaches_beyond(first.len(), offset, len);
    }
    if number::read_u64(second, 36) == number {
        return reaches_beyond(second.len(), offset, len);
    }
    true
}

// Whether these bytes can be fetched, or why not.
pub fn fetch_refusal(
    first: &[u8],
    second: &[u8],
    number: u64,
    offset: Physical,
    len: u64,
) -> Result<(), Fault>
    ensures { fault_number result ≡ fetch_fault first.now second.now number offset.0 len }
{
    volume::heading::header_fault(None, first)?;
    volume::heading::header_fault(None, second)?;
    if is_out_of(first, second, number, offset, len) {
        return Err(Fault::NotThere);
    }
    Ok(())
}

// `len` bytes of a volume from `offset` on.
fn part_at(volume: &[u8], offset: Physical, len: u64) -> &[u8]
    requires { offset.0 + len ≤ length volume.now }
    ensures bytes { result.now ≡ part volume.now offset.0 len }
    ensures address { result.ref_ptr ≡ address_in volume.entry.ref_ptr offset.0 }
{
    let from = offset.0;
    let start = from as usize;
    let end = (from + len) as usize;
    &volume[start..end]
}

// The bytes themselves, as a part of the volume that has the number, the first if both do; empty on refusal.
pub fn fetch<'a>(
    first: &'a [u8],
    second: &'a [u8],
    number: u64,
    offset: Physical,
    len: u64,
) -> &'a [u8]
    ensures bytes { result.now ≡ fetch_part first.now second.now number offset.0 len }
    ensures address { result.ref_ptr ≡ fetch_address first.now second.now first.entry.ref_ptr second.entry.ref_ptr
        number offset.0 len }
{
    if fetch_refusal(first, second, number, offset, len).is_err() {
        return &first[0..0];
    }
    if number::read_u64(first, 36) == number {
        return part_at(first, offset, len);
    }
    part_at(second, offset, len)
}
