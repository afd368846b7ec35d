// Prints the listing of the region on standard input: a heading, a line for each row, and the counts.
#![tactic(auto)]

use input::read_input;
use std::io;

// Prints the text of a region.
fn print_dump(rt: &impl Print, region: &[u8]) -> io::Result<()> {
    let mut out = [0u8; text::MOST_TEXT];
    let n = text::dump(region, &mut out);
    rt.write_all(&out[..n])
}

// The buffer has one byte more than the longest region.
fn main(rt: HostRuntime) -> io::Result<()> {
    let mut buffer = [0u8; 65536];
    match read_input(&rt, &mut buffer) {
        Ok(count) => print_dump(&rt, &buffer[..count]),
        Err(_) => input::tell_failed(&rt, "dump"),
    }
}
