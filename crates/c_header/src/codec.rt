// Headers decoded and encoded for C, with C's header by value: what is behind its pointers is the exported functions' affair.
ghost use Rattle.std.specs.Prelude.{◌≡◌, ◌<◌};
ghost use Rattle.header_judge.specs.Head.{Complete};
ghost use Rattle.header.specs.Header.{header_of};
ghost use Rattle.c_header.specs.Header.{header_out, taken_of};
ghost use Rattle.c_header.specs.Codec.{told_done, told_refused, encoded_in};

use crate::{CHeader, header_in, header_out};
use header::Judged;
use header_encode::Refusal;

// What is told of a header beside its answer: declared bytes, header size, flags, bad type, ending.
pub fn told_done(judged: Judged) -> [u64; 5]
    ensures { result ≡ told_done judged.declared judged.header_size judged.flags }
{
    [
        judged.declared as u64,
        judged.header_size as u64,
        judged.flags as u64,
        0,
        0,
    ]
}

// What is told of a refusal.
pub fn told_refused(refusal: header::Refusal) -> [u64; 5]
    ensures { result ≡ told_refused refusal }
{
    let bad_type = refusal.type_told();
    let ending = refusal.ending_told();
    [0, 0, 0, bad_type as u64, ending as u64]
}

// The header itself, of bytes that were judged to have one.
pub fn header_at(bytes: &[u8], judged: Judged) -> CHeader
    requires { Complete bytes.now judged.word judged.flags }
    ensures { result ≡ header_out (header_of bytes.now judged.word judged.flags) }
{
    header_out(header::header_of(bytes, judged.word, judged.flags))
}

// A header's bytes into an output: what the encoder answers, which tests the rules itself. A header that is none is a bad field, which bad rules come before.
pub fn encode(header: CHeader, rules: &[u32], out: &mut [u8]) -> Result<usize, Refusal>
    ensures { (out.new, result) ≡ encoded_in rules.now (taken_of header) out.old }
{
    match header_in(header) {
        Some(header) => header_encode::encode(header, rules, out),
        None if rules::valid(rules) => Err(Refusal::BadField),
        None => Err(Refusal::BadRules),
    }
}
