// Long lists of bytes made short: a list is divided by a polynomial with few terms, and 300 bytes are left over
// (specs/inner/Folding.antt). The CRC-32 polynomial divides that one, so a checksum can be taken of the 300 bytes; that this is
// so is for its callers to prove, here is the division alone. It needs no table, and a byte waits only for bytes 145
// places and more before it, so the compiler takes 16 bytes at a time.
// Internal: `fold` writes the 300 bytes into a lent array. No public call.
#![tactic(auto)]

ghost use Rattle.std.specs.Prelude.{◌≡◌, ◌≤◌, length, take, drop, replicate};
ghost use mathlib.Core.List.{foldl};
ghost use Rattle.folding.specs.inner.Buffer.{Holds};
ghost use Rattle.folding.specs.inner.Folding.{taken, start, added, delayed, spread, folded};

// Internal: the 300 bytes that are left over from the bytes. The array is lent, since one that is returned is copied.
pub fn fold(bytes: &[u8], rest: &mut [u8; 300])
    ensures { rest.new ≡ folded bytes.now }
{
    let mut buffer = [0u8; 2348];
    begin(&mut buffer);
    let (chunks, last) = bytes.as_chunks::<2048>();
    for chunk in chunks {
        take_chunk(&mut buffer, chunk);
        move_window(&mut buffer);
    }
    take_chunk(&mut buffer, last);
    // The window stays a slice: to make it an array is to show that there are so many bytes, and a None that cannot be is one case more.
    write_rest(rest, &buffer[last.len()..last.len() + 300]);
}

// The window before the first byte stands at the beginning of the buffer.
fn begin(buffer: &mut [u8; 2348])
    requires { buffer.old ≡ replicate 2348 0 }
    ensures { Holds buffer.new 0 start }
{
    buffer[296..300].copy_from_slice(&[0x62, 0xF5, 0x26, 0x92]);
}

// The quotient's bytes for the chunk are written after the window, which so ends up as many places further. The bytes
// read stand 145 to 300 places before the one written: the compiler sees that 16 turns do not wait for one another.
// By an index: the bytes read and written are parts of one buffer, which no iterator lends twice.
fn take_chunk(buffer: &mut [u8; 2348], chunk: &[u8])
    requires { length chunk.now ≤ 2048 }
    ensures { Holds buffer.new (length chunk.now)
        (foldl taken (take 300 buffer.old) chunk.now) }
{
    for (j, byte) in chunk.iter().enumerate() {
        buffer[300 + j] = *byte ^ buffer[155 + j] ^ buffer[117 + j] ^ buffer[89 + j] ^ buffer[j];
    }
}

// The window after a full chunk is moved to the beginning of the buffer.
fn move_window(buffer: &mut [u8; 2348])
    ensures { Holds buffer.new 0 (take 300 (drop 2048 buffer.old)) }
{
    let (front, window) = buffer.split_at_mut(2048);
    front[..300].copy_from_slice(window);
}

// The bytes left over from a window: the window, and three times the window later by some places.
fn write_rest(rest: &mut [u8; 300], window: &[u8])
    requires { length window.now ≡ 300 }
    ensures { rest.new ≡ spread window.now }
{
    rest.copy_from_slice(window);
    add_delayed(rest, window, 145);
    add_delayed(rest, window, 183);
    add_delayed(rest, window, 211);
}

// The window is added to the rest, later by some places. By an index, as the places are counted: by `zip` over the two, what the rest
// holds would have to be put together again from the borrows of its bytes.
fn add_delayed(rest: &mut [u8; 300], window: &[u8], places: usize)
    requires { (length window.now ≡ 300) × (places ≤ 300) }
    ensures { rest.new ≡ added rest.old (delayed places window.now) }
{
    for t in places..300 {
        rest[t] ^= window[t - places];
    }
}
