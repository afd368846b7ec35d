// Standard input, read into a lent buffer.
#![tactic(auto)]

ghost use Rattle.std.specs.Prelude.{◌≤◌, length, IfOk};

use std::io;
use std::io::Read;

// Reads until the input ends or the buffer is full, and tells how many bytes came.
// std's own reading to the end fills a Vec, and the dumps use no heap.
pub fn read_input(rt: &impl io::Input, buffer: &mut [u8]) -> io::Result<usize>
    ensures { IfOk result (λ count. count ≤ length buffer.old) }
{
    let mut reader = rt.reader();
    let mut count = 0;
    while count < buffer.len() {
        let more = reader.read(&mut buffer[count..])?;
        if more == 0 {
            break;
        }
        count += more;
    }
    Ok(count)
}

// Says on standard error that a program's input can't be read.
pub fn tell_failed(rt: &impl Eprint, program: &str) -> io::Result<()> {
    eprintln!(rt; "{program}: standard input can't be read")
}
