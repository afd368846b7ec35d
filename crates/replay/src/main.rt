// Runs the library on a fixed list of cases and compares all that each call tells and leaves with what the list says.
// The list is a file for each kind of call, in the folder that the program runs in. case.rt says how a case is laid out.
#![tactic(auto)]

ghost use Rattle.std.specs.Prelude.{◌≤◌, length, IfSome, IfOk};

use crate::case::{Case, ID_BYTES, MOST_CASE, MOST_INPUT, MOST_RULES};
use crate::element::{nth_or_zero, within};
use std::io::Read;
use std::rt::Files;
use std::{fs, io};

mod calls;
mod case;
mod element;
mod header_words;
mod reception;
mod told_rows;

// More cases than any file has.
const MOST_CASES: u64 = 65536;

// A case that differs, and where its answer comes from.
#[derive(Clone, Copy)]
struct Differs {
    source: u32,
}

// How a file went: how many cases agree and how many differ, and the first of these with its number.
#[derive(Clone, Copy)]
struct Count {
    agree: u64,
    differ: u64,
    first: Option<(u64, Differs)>,
}

// Runs the case that some bytes are.
fn run<F: Fn(&Case) -> bool>(check: &F, id: usize, bytes: &[u8]) -> Result<(), Differs>
    requires { F.IsAlwaysCallable check.now }
{
    let mut rules = [0u32; MOST_RULES];
    let mut input = [0u8; MOST_INPUT];
    let case = Case::read(bytes, id, &mut rules, &mut input);
    if case.is_some_and(|case| check(&case)) {
        return Ok(());
    }
    Err(Differs {
        source: nth_or_zero(bytes, 0),
    })
}

// Reads until a buffer is full or the file ends, and tells how many bytes came. A read that fails ends the file
// with what has come, which `read_exact` would not tell.
fn read_full(file: &mut impl Read, buffer: &mut [u8]) -> usize
    ensures { result ≤ length buffer.new }
{
    let mut count = 0;
    while count < buffer.len() {
        match file.read(&mut buffer[count..]) {
            Ok(0) | Err(_) => return count,
            Ok(more) => count += more,
        }
    }
    count
}

// Reads the next case to the start of a buffer, and tells its length. One that is cut off differs; at the end of the file is none.
fn read_case(file: &mut impl Read, buffer: &mut [u8]) -> Option<Result<usize, Differs>>
    ensures { IfSome result (λ case. IfOk case (λ size. size ≤ length buffer.new)) }
{
    let cut = Err(Differs { source: 0 });
    let mut size = [0u8; 4];
    let got = read_full(file, &mut size);
    if got == 0 {
        return None;
    }
    if got < 4 {
        return Some(cut);
    }
    let bytes = u32::from_le_bytes(size) as usize;
    let end = within(bytes, buffer);
    if read_full(file, &mut buffer[..end]) < bytes {
        return Some(cut);
    }
    Some(Ok(end))
}

// Reads the next case and runs it; at the end of the file is none.
fn run_next<F: Fn(&Case) -> bool>(
    check: &F,
    id: usize,
    file: &mut impl Read,
) -> Option<Result<(), Differs>>
    requires { F.IsAlwaysCallable check.now }
{
    let mut buffer = [0u8; MOST_CASE];
    match read_case(file, &mut buffer)? {
        Ok(size) => Some(run(check, id, &buffer[..size])),
        Err(cut) => Some(Err(cut)),
    }
}

// Runs the cases of a file.
fn run_cases<F: Fn(&Case) -> bool>(check: &F, id: usize, file: &mut impl Read) -> Count
    requires { F.IsAlwaysCallable check.now }
{
    let mut count = Count {
        agree: 0,
        differ: 0,
        first: None,
    };
    for turn in 0..MOST_CASES {
        match run_next(check, id, file) {
            None => break,
            Some(Ok(())) => count.agree += 1,
            Some(Err(differs)) => {
                count.differ += 1;
                count.first = count.first.or(Some((turn + 1, differs)));
            }
        }
    }
    count
}

// Where the answer of a case comes from.
fn source_name(source: u32) -> &'static str {
    match source {
        1 => "the Rust",
        2 => "cut from the Rust's whole listing",
        3 => "inverse of what the Rust decoded",
        4 => "a sentence of document 01 or 02",
        _ => "the case is not sound",
    }
}

fn report(rt: &impl Print, name: &str, count: Count) -> io::Result<()> {
    let Count {
        agree,
        differ,
        first,
    } = count;
    println!(rt; "{name}: {agree} agree, {differ} differ")?;
    if let Some((turn, differs)) = first {
        let source = source_name(differs.source);
        println!(rt; "  the first is case {turn} ({source})")?;
    }
    Ok(())
}

// Runs the cases of a file, which have so many bytes of identifier, and prints how it went. A case has over a mebibyte of stack;
// opened into `main`, it would keep that under the cases of every other file.
#[inline(never)]
fn replay<F: Fn(&Case) -> bool>(
    rt: &(impl Files + Print),
    name: &str,
    id: usize,
    check: F,
) -> io::Result<()>
    requires { F.IsAlwaysCallable check }
{
    match fs::open(rt, name) {
        Ok(mut file) => {
            let count = run_cases(&check, id, &mut file);
            report(rt, name, count)
        }
        Err(_) => println!(rt; "{name}: can't be read"),
    }
}

fn main(rt: HostRuntime) -> io::Result<()> {
    replay(&rt, "headers", 0, calls::header)?;
    replay(&rt, "encodes", 0, calls::encode)?;
    replay(&rt, "listings", 0, calls::listing)?;
    replay(&rt, "texts", 0, calls::text)?;
    replay(&rt, "tables", 0, calls::table)?;
    replay(&rt, "sections", 0, calls::section)?;
    replay(&rt, "normal_forms", 0, calls::normal_form)?;
    replay(&rt, "names", 0, calls::name)?;
    replay(&rt, "receptions", 0, reception::reception)?;
    replay(&rt, "cper_listings", ID_BYTES, calls::cper_listing)?;
    replay(&rt, "cper_texts", 0, calls::cper_text)
}
