// The checksum: its published check value, the CRC of the digits from 1 to 9, and others that any CRC-32 tool confirms.
use std::io;

fn row(rt: &impl Print, name: &str, bytes: &[u8]) -> io::Result<()> {
    let sum = crc32::crc32(bytes);
    println!(rt; "crc32 {name}: {sum:08x}")
}

pub fn all(rt: &impl Print) -> io::Result<()> {
    row(rt, "of nothing", b"")?;
    row(rt, "of 123456789", b"123456789")?;
    row(rt, "of one zero byte", b"\x00")?;
    row(rt, "of four bytes FF", b"\xFF\xFF\xFF\xFF")?;
    row(rt, "of 32 zero bytes", &[0u8; 32])?;
    Ok(())
}
