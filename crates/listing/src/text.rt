// The pieces of the text. A writer takes the offset at which its piece begins in the room and answers the offset after
// it. It answers the same where the room is too short for the piece, so the text can be measured without room.
//
// The room and the offset are no struct: where the text is measured there is no room, and the offset lies past its end, so a struct
// could promise nothing of the two, and `Wrote` would speak of each as it does now.
ghost use Rattle.std.specs.Prelude.{◌+◌, ◌≤◌, ◌<◌, [], ◌∷◌, ◌++◌, length};
ghost use Rattle.listing.specs.Decimal.{digit, decimal};
ghost use Rattle.listing.specs.Listing.{list_limit, block_line, end_line, refused_line};
ghost use Rattle.listing.specs.inner.Writing.{Wrote, last_line};

// Writes bytes as they are.
pub(crate) fn put_word(out: &mut [u8], at: usize, word: &[u8]) -> usize
    requires { at + length word.now ≤ list_limit }
    ensures { Wrote out.old at word.now out.new result }
{
    number::write_bytes(out, at, word);
    at + word.len()
}

// Writes a digit.
fn put_digit(out: &mut [u8], at: usize, value: u64) -> usize
    requires { (value < 10) × (at < list_limit) }
    ensures { Wrote out.old at (digit value ∷ []) out.new result }
{
    number::write_u8(out, at, 48 + value as u8);
    at + 1
}

// Writes a number in decimal. By hand and not by `write!`: the text is measured without room, and is proved to be `decimal`.
fn put_decimal(out: &mut [u8], at: usize, value: u64) -> usize
    requires { at + length (decimal value) ≤ list_limit }
    ensures { Wrote out.old at (decimal value) out.new result }
{
    if value < 10 {
        return put_digit(out, at, value);
    }
    let last = put_decimal(out, at, value / 10);
    put_digit(out, last, value % 10)
}

// Writes a number and the word after it.
fn put_number(out: &mut [u8], at: usize, value: u64, word: &[u8]) -> usize
    requires { at + length (decimal value) + length word.now ≤ list_limit }
    ensures { Wrote out.old at (decimal value ++ word.now) out.new result }
{
    let next = put_decimal(out, at, value);
    put_word(out, next, word)
}

// Writes the line of a block.
pub(crate) fn block_line(out: &mut [u8], at: usize, offset: u64, id: u64, len: u64) -> usize
    requires { at + length (block_line offset id len) ≤ list_limit }
    ensures { Wrote out.old at (block_line offset id len) out.new result }
{
    let second = put_number(out, at, offset, b" ");
    let third = put_number(out, second, id, b" ");
    put_number(out, third, len, b"\n")
}

// Writes a line of two words, each with a number after it.
fn last_line(out: &mut [u8], at: usize, first: &[u8], a: u64, second: &[u8], b: u64) -> usize
    requires { at + length (last_line first.now a second.now b) ≤ list_limit }
    ensures { Wrote out.old at (last_line first.now a second.now b) out.new result }
{
    let next = put_word(out, at, first);
    let last = put_number(out, next, a, second);
    put_number(out, last, b, b"\n")
}

// Writes the last line of a volume that is accepted.
pub(crate) fn end_line(out: &mut [u8], at: usize, offset: u64, blocks: u64) -> usize
    requires { at + length (end_line offset blocks) ≤ list_limit }
    ensures { Wrote out.old at (end_line offset blocks) out.new result }
{
    last_line(out, at, b"end ", offset, b" blocks ", blocks)
}

// Writes the last line of a volume that is refused.
pub(crate) fn refused_line(out: &mut [u8], at: usize, number: u64, offset: u64) -> usize
    requires { at + length (refused_line number offset) ≤ list_limit }
    ensures { Wrote out.old at (refused_line number offset) out.new result }
{
    last_line(out, at, b"refused ", number, b" at ", offset)
}
