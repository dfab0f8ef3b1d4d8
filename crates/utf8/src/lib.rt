// Well-formed UTF-8, as RFC 3629 defines it (specs/Grammar.antt).
// `well_formed_len` answers how many octets from the start of a text on are well-formed, which is also where the first
// ill-formed sequence starts. `is_text` answers whether all of the text is well-formed.
// Block readers and writers call them on the names, paths and link targets of a volume, each a part of it.
#![tactic(auto)]

ghost use Rattle.std.specs.Prelude.{◌≡◌, true, cond, [], ◌∷◌, ◌<◌, ◌≤◌, length, drop, get_or};
ghost use Rattle.utf8.specs.Ascii.{AsciiRun};
ghost use Rattle.utf8.specs.Grammar.{◌to◌, tail};
ghost use Rattle.utf8.specs.inner.Length.{begins, char_length, well_formed_length, is_text};

// The length of the text's longest well-formed beginning.
pub fn well_formed_len(text: &[u8]) -> usize
    ensures { result ≡ well_formed_length text.now }
{
    let mut i = 0;
    // A branch for each length, which adds a constant: with one function that answers the length, characters of two and three octets
    // take almost a third more instructions.
    while i < text.len() {
        let lead = text[i];
        if lead < 0x80 {
            i = skip_ascii(text, i);
        } else if lead < 0xE0 {
            if !is_char_of_two(text, i) {
                return i;
            }
            i += 2;
        } else if lead < 0xF0 {
            if !is_char_of_three(text, i) {
                return i;
            }
            i += 3;
        } else {
            if !is_char_of_four(text, i) {
                return i;
            }
            i += 4;
        }
    }
    i
}

// Whether the text is well-formed.
pub fn is_text(text: &[u8]) -> bool
    ensures { result ≡ is_text text.now }
{
    well_formed_len(text) == text.len()
}

// Whether a character of two octets stands at `at`, where the first octet is from 0x80 to 0xDF.
fn is_char_of_two(text: &[u8], at: usize) -> bool
    requires { (at < length text.now) × (0x80 ≤ get_or text.now at 0) × (get_or text.now at 0 < 0xE0) }
    ensures { cond result 2 0 ≡ char_length (drop at text.now) }
{
    match text[at] {
        0xC2..=0xDF => one_follows(text, at + 1, 0x80, 0xBF),
        // 0x80 to 0xBF is UTF8-tail; 0xC0 and 0xC1 would begin a form longer than its number needs.
        _ => false,
    }
}

// Whether a character of three octets stands at `at`, where the first octet is from 0xE0 to 0xEF.
fn is_char_of_three(text: &[u8], at: usize) -> bool
    requires { (at < length text.now) × (0xE0 ≤ get_or text.now at 0) × (get_or text.now at 0 < 0xF0) }
    ensures { cond result 3 0 ≡ char_length (drop at text.now) }
{
    match text[at] {
        // Below 0xA0 the number would need two octets only.
        0xE0 => two_follow(text, at + 1, 0xA0, 0xBF),
        // Above 0x9F the number would be a surrogate.
        0xED => two_follow(text, at + 1, 0x80, 0x9F),
        _ => two_follow(text, at + 1, 0x80, 0xBF),
    }
}

// Whether a character of four octets stands at `at`, where the first octet is from 0xF0 on.
fn is_char_of_four(text: &[u8], at: usize) -> bool
    requires { (at < length text.now) × (0xF0 ≤ get_or text.now at 0) }
    ensures { cond result 4 0 ≡ char_length (drop at text.now) }
{
    match text[at] {
        // Below 0x90 the number would need three octets only.
        0xF0 => three_follow(text, at + 1, 0x90, 0xBF),
        0xF1..=0xF3 => three_follow(text, at + 1, 0x80, 0xBF),
        // Above 0x8F the number would be above 0x10FFFF, and so it would be after a greater first octet.
        0xF4 => three_follow(text, at + 1, 0x80, 0x8F),
        _ => false,
    }
}

// Whether an octet from `low` to `high` stands at `at`.
fn one_follows(text: &[u8], at: usize, low: u8, high: u8) -> bool
    ensures { result ≡ begins (low to high ∷ []) (drop at text.now) }
{
    text.get(at)
        .is_some_and(|octet| (low..=high).contains(octet))
}

// Whether an octet from `low` to `high` stands at `at`, and one of UTF8-tail after it.
fn two_follow(text: &[u8], at: usize, low: u8, high: u8) -> bool
    ensures { result ≡ begins (low to high ∷ tail ∷ []) (drop at text.now) }
{
    one_follows(text, at, low, high) && one_follows(text, at + 1, 0x80, 0xBF)
}

// Whether an octet from `low` to `high` stands at `at`, and two of UTF8-tail after it.
fn three_follow(text: &[u8], at: usize, low: u8, high: u8) -> bool
    ensures { result ≡ begins (low to high ∷ tail ∷ tail ∷ []) (drop at text.now) }
{
    one_follows(text, at, low, high) && two_follow(text, at + 1, 0x80, 0xBF)
}

// A place after `at` with nothing but octets below 0x80 up to it, where the one at `at` is such an octet. How far the
// place is matters to the speed alone.
fn skip_ascii(text: &[u8], at: usize) -> usize
    requires { (at < length text.now) × (get_or text.now at 0 < 0x80) }
    ensures { (at < result) × AsciiRun text.now at result }
{
    // A block with another octet in it is read for nothing, so blocks are tried at every eighth place only.
    if at % 8 != 0 {
        return at + 1;
    }
    let near = skip_blocks(text, at, 64);
    let far = skip_blocks(text, near, 16);
    if far == at {
        return at + 1;
    }
    far
}

// The place after the blocks of `size` octets, all below 0x80, that stand one after the other from `at` on.
fn skip_blocks(text: &[u8], at: usize, size: usize) -> usize
    requires { (at ≤ length text.now) × (0 < size) }
    ensures { AsciiRun text.now at result }
{
    // By a place that moves on, which is what is answered: of chunks it would have to be counted and multiplied again.
    let mut i = at;
    while size <= text.len() - i {
        if !is_ascii(&text[i..i + size]) {
            return i;
        }
        i += size;
    }
    i
}

// Whether all octets of the part are below 0x80. The contract binds the answer true; a false one could only cost time.
// All octets are gone through, and the greatest is kept, so that the compiler can take many at a time.
fn is_ascii(part: &[u8]) -> bool
    ensures { result ≡ true → AsciiRun part.now 0 (length part.now) }
{
    let mut greatest: u8 = 0;
    for octet in part {
        greatest = greatest.max(*octet);
    }
    greatest < 0x80
}
