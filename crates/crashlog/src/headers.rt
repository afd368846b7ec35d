// Headers decoded and encoded for C: each function reads, or writes, the struct behind C's pointer, and `c_header` has it by value.
ghost use Rattle.std.specs.Prelude.{◌≡◌};
ghost use Rattle.header.specs.Header.{decoded_of};
ghost use Rattle.c_header.specs.Codec.{decode_out, encode_out};

use c_header::CHeader;
use c_header::codec::{encode, header_at, told_done, told_refused};

// The header at the start of some bytes. What lies behind `header` is written with answer 0 alone.
// `told` gets the declared bytes, the header's size, the flags, the type of answer 4, and how the records end where they do.
#[tactic(auto, unfolding(header::specs::Header::decoded_of, c_header::specs::Codec::decode_out))]
pub fn crashlog_decode(
    bytes: &[u8],
    rules: &[u32],
    header: &mut CHeader,
    told: &mut [u64; 5],
) -> u32
    ensures { (header.new, told.new, result) ≡ decode_out header.old (decoded_of rules.now bytes.now) }
{
    match header::judge(bytes, rules) {
        Ok(judged) => {
            *header = header_at(bytes, judged);
            *told = told_done(judged);
            answers::DONE
        }
        Err(refusal) => {
            *told = told_refused(refusal);
            u32::from(refusal)
        }
    }
}

// A header's bytes into an output, which a refusal leaves as it is, and their length.
#[tactic(auto, unfolding(c_header::specs::Codec::encode_out))]
pub fn crashlog_encode(header: &CHeader, rules: &[u32], out: &mut [u8], length: &mut u64) -> u32
    ensures { (out.new, length.new, result) ≡ encode_out rules.now header.now out.old }
{
    match encode(*header, rules, out) {
        Ok(written) => {
            *length = written as u64;
            answers::DONE
        }
        Err(refusal) => {
            *length = 0;
            u32::from(refusal)
        }
    }
}
