// A case, as bytes. All its numbers are little-endian. In the file the case's size stands before it, in 4 bytes.
//
//     0   source: 1 the Rust; 2 cut from the Rust's whole listing; 3 inverse of what the Rust decoded; 4 a sentence of document 01, or
//         of document 02 on what a receiver refuses. Why a region stops, how records end, `whole`, when a row is told and which
//         sections of a CPER are opened come from document 02 in each of them
//     4   how many numbers of rule table
//     8   the limit of a listing, the row of a section, the record type of a name, a byte for the length of each of eight pieces of a
//         reception; else 0. 8 bytes
//     16  the room: how many elements of the lent buffer the call gets
//     20  length of the input
//     24  how many bytes of the input are stored; the input is these, repeated from their start up to its length
//     28  how many bytes the call leaves at the start of the lent buffer, or of rows the calls of a reception tell; the rest of the
//         buffer is as it was
//     32  what the call tells: six numbers of 8 bytes, its answer, the numbers that come with it in their order, and then zeros
//     80  the rules, the sixteen bytes of identifier that the listing of a CPER asks for, the stored input, the bytes left
use crate::element::{Element, nth_or_zero, part, within};

pub const MOST_CASE: usize = 262144;

pub const MOST_RULES: usize = 256;

pub const MOST_INPUT: usize = 1048577;

const HEAD: usize = 80;

const NUMBER: usize = 8;

const TOLD: usize = 32;

pub const ID_BYTES: usize = 16;

// A case with its rules and its whole input. `lengths` are the bytes of `number`.
#[derive(Clone, Copy)]
pub struct Case<'a> {
    pub number: u64,
    pub lengths: &'a [u8],
    pub room: usize,
    pub told: &'a [u8],
    pub rules: &'a [u32],
    pub id: &'a [u8],
    pub input: &'a [u8],
    pub left: &'a [u8],
}

// Where a case's parts lie: as long as it says, and within the limits.
#[derive(Clone, Copy)]
struct Parts<'a> {
    head: &'a [u8],
    rules: &'a [u8],
    id: &'a [u8],
    stored: &'a [u8],
    left: &'a [u8],
}

// A number of 4 bytes in the head, by its index.
fn size_in(head: &[u8], i: usize) -> usize {
    nth_or_zero::<u32>(head, i) as usize
}

// Parts a case with so many bytes of identifier.
fn parts_of(bytes: &[u8], id: usize) -> Option<Parts<'_>> {
    let (head, body) = bytes.split_at_checked(HEAD)?;
    let rules = size_in(head, 1);
    if MOST_RULES < rules {
        return None;
    }
    let (rules, rest) = body.split_at_checked(4 * rules)?;
    let (id, rest) = rest.split_at_checked(id)?;
    let (stored, left) = rest.split_at_checked(size_in(head, 6))?;
    let length = size_in(head, 5);
    let is_whole = left.len() == size_in(head, 7);
    let is_input = length <= MOST_INPUT && stored.len() <= length;
    let is_filled = !stored.is_empty() || length == 0;
    let parts = Parts {
        head,
        rules,
        id,
        stored,
        left,
    };
    (is_whole && is_input && is_filled).then_some(parts)
}

// The numbers of a rule table at the start of a buffer.
fn fill_rules<'a>(bytes: &[u8], rules: &'a mut [u32]) -> &'a [u32] {
    for (i, rule) in rules.iter_mut().enumerate() {
        *rule = nth_or_zero(bytes, i);
    }
    let end = within(bytes.len() / 4, rules);
    &rules[..end]
}

// So many bytes at the start of a buffer: the stored bytes, and these again after them.
fn fill_input<'a>(stored: &[u8], length: usize, input: &'a mut [u8]) -> &'a [u8] {
    let end = within(length, input);
    let whole = &mut input[..end];
    for (byte, wanted) in whole.iter_mut().zip(stored.iter().cycle()) {
        *byte = *wanted;
    }
    whole
}

impl<'a> Case<'a> {
    // The case that some bytes are, if they are one, with its rules and its input in two buffers.
    pub fn read(
        bytes: &'a [u8],
        id: usize,
        rules: &'a mut [u32; MOST_RULES],
        input: &'a mut [u8; MOST_INPUT],
    ) -> Option<Case<'a>> {
        let parts = parts_of(bytes, id)?;
        let head = parts.head;
        Some(Case {
            number: nth_or_zero(head, 1),
            lengths: part(head, NUMBER, 8),
            room: size_in(head, 4),
            told: part(head, TOLD, HEAD - TOLD),
            rules: fill_rules(parts.rules, rules),
            id: parts.id,
            input: fill_input(parts.stored, size_in(head, 5), input),
            left: parts.left,
        })
    }

    // Whether a call is to tell an answer, these numbers and then zeros.
    pub fn tells(&self, answer: u64, numbers: &[u64]) -> bool {
        u64::nth(self.told, 0) == Some(answer)
            && (0..5).all(|i| u64::nth(self.told, i + 1)
                == Some(numbers.get(i).copied().unwrap_or(0)))
    }
}
