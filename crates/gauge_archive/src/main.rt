// A small archive of a river gauge: three volumes, made by the library's writers, each with the digest of the one before. With
// three arguments they are written to files of these names. What the volume check answers of each is printed in any case.
//
// The gauge's file is inode 7. Its current version stands in the last volume and is stored in all three.
#![tactic(auto)]

mod first;
mod output;
mod second;
mod steps;
mod third;

use std::io;

fn main(rt: HostRuntime) -> io::Result<()> {
    let of_first = first::make(&rt, &mut [0u8; first::LEN])?;
    let of_second = second::make(&rt, &mut [0u8; second::LEN], &of_first)?;
    third::make(&rt, &mut [0u8; third::LEN], &of_second)?;
    Ok(())
}
