// UTF-8: texts that are well-formed, and each kind of fault, with the place where the first fault begins.
use std::io;

fn row(rt: &impl Print, name: &str, text: &[u8]) -> io::Result<()> {
    let len = utf8::well_formed_len(text);
    if len == text.len() {
        return println!(rt; "utf8 {name}: well-formed");
    }
    println!(rt; "utf8 {name}: ill-formed at {len}")
}

// The examples of RFC 3629, and texts without a fault.
pub fn well_formed(rt: &impl Print) -> io::Result<()> {
    row(rt, "empty", b"")?;
    row(rt, "ascii", b"1,5")?;
    row(rt, "A, not identical to, Alpha", b"A\xE2\x89\xA2\xCE\x91.")?;
    row(rt, "Korean", b"\xED\x95\x9C\xEA\xB5\xAD\xEC\x96\xB4")?;
    row(rt, "Japanese", b"\xE6\x97\xA5\xE6\x9C\xAC\xE8\xAA\x9E")?;
    row(
        rt,
        "mark and a character above FFFF",
        b"\xEF\xBB\xBF\xF0\xA3\x8E\xB4",
    )?;
    row(rt, "a zero byte", b"a\x00b")
}

// The first and the last character of each length, and those beside the surrogates.
pub fn at_the_edges(rt: &impl Print) -> io::Result<()> {
    row(rt, "7F, 80", b"\x7F\xC2\x80")?;
    row(rt, "7FF, 800", b"\xDF\xBF\xE0\xA0\x80")?;
    row(rt, "D7FF, E000", b"\xED\x9F\xBF\xEE\x80\x80")?;
    row(rt, "FFFF, 10000", b"\xEF\xBF\xBF\xF0\x90\x80\x80")?;
    row(rt, "10FFFF", b"\xF4\x8F\xBF\xBF")
}

// Encodings that are longer than the character needs.
pub fn too_long(rt: &impl Print) -> io::Result<()> {
    row(rt, "two bytes for 0", b"a\xC0\x80")?;
    row(rt, "two bytes for 7F", b"ab\xC1\xBF")?;
    row(rt, "three bytes for 7FF", b"abc\xE0\x9F\xBF")?;
    row(rt, "four bytes for FFFF", b"abcd\xF0\x8F\xBF\xBF")
}

pub fn surrogates_and_above(rt: &impl Print) -> io::Result<()> {
    row(rt, "surrogate D800", b"a\xED\xA0\x80")?;
    row(rt, "surrogate DFFF", b"\xC3\xA9\xED\xBF\xBF")?;
    row(rt, "110000", b"\xF4\x8F\xBF\xBF\xF4\x90\x80\x80")?;
    row(rt, "lead F5", b"a\xF5\x80\x80\x80")?;
    row(rt, "byte FE", b"\xFE")?;
    row(rt, "byte FF", b"ab\xFF")
}

pub fn cut_and_stray(rt: &impl Print) -> io::Result<()> {
    row(rt, "cut after one byte of two", b"a\xC3")?;
    row(rt, "cut after two bytes of three", b"\xC3\xA9\xE2\x82")?;
    row(rt, "cut after three bytes of four", b"\xF0\x9F\x98")?;
    row(rt, "tail byte alone", b"a\x80")?;
    row(rt, "ascii in place of a tail byte", b"\xE2\x28\xA1")?;
    row(
        rt,
        "lead in place of a tail byte",
        b"abc\xE2\x82\xE2\x82\xAC",
    )
}
