// Prints the listing of the Crash Log sections of the CPER on standard input: a heading, a line for each row, and the counts.
#![tactic(auto)]

use answers::MOST_BYTES;
use input::read_input;
use std::io;

// One byte more than the longest CPER.
const BUFFER_SIZE: usize = MOST_BYTES + 1;

// Prints the text of a CPER. `dump` has the same for a region; one function that takes the page's size and the call is no shorter.
fn print_dump(rt: &impl Print, cper: &[u8]) -> io::Result<()> {
    let mut out = [0u8; text::MOST_CPER_TEXT];
    let n = text::dump_cper(cper, &mut out);
    rt.write_all(&out[..n])
}

// Reads a CPER into the buffer and prints its text. It is apart from `main` so that its proof is of a buffer of any length.
fn dump_input(rt: &(impl io::Input + Print + Eprint), buffer: &mut [u8]) -> io::Result<()> {
    match read_input(rt, buffer) {
        Ok(count) => print_dump(rt, &buffer[..count]),
        Err(_) => input::tell_failed(rt, "dump_cper"),
    }
}

fn main(rt: HostRuntime) -> io::Result<()> {
    let mut buffer = [0u8; BUFFER_SIZE];
    dump_input(&rt, &mut buffer)
}
