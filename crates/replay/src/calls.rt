// The calls, one for each kind of case. A call gets the case's room of a lent buffer, which is untouched before; each function
// says whether the call tells what the case says and whether the whole buffer then holds what it leaves.
use crate::case::Case;
use crate::element::{Element, left, part, within};
use crate::header_words::{BYTES, header_in, leaves_header};

// The longest lent buffers.
pub const MOST_NUMBERS: usize = 8192;

const MOST_BYTES: usize = 65536;

// A number of 32 bits that a case has in 8 bytes.
fn word_of(number: u64) -> u32 {
    (number % 4294967296) as u32
}

pub(crate) fn header(case: &Case) -> bool {
    let mut header = header_in(&[u8::UNTOUCHED; BYTES]);
    let mut told = [u64::UNTOUCHED; 5];
    let answer = crashlog::headers::crashlog_decode(case.input, case.rules, &mut header, &mut told);
    case.tells(answer as u64, &told) & leaves_header(&header, case.left)
}

// A call that writes to a buffer and tells one number.
fn writes<T: Element, F: FnOnce(&mut [T], &mut u64) -> u32>(
    case: &Case,
    buffer: &mut [T],
    call: F,
) -> bool
    requires { F.IsAlwaysCallable call }
{
    let lent = within(case.room, buffer);
    let mut told = u64::UNTOUCHED;
    let answer = call(&mut buffer[..lent], &mut told);
    case.tells(answer as u64, &[told]) & left(buffer, case.left)
}

pub(crate) fn encode(case: &Case) -> bool {
    let header = header_in(case.input);
    let mut out = [u8::UNTOUCHED; MOST_BYTES];
    writes(case, &mut out, |out, length| {
        crashlog::headers::crashlog_encode(&header, case.rules, out, length)
    })
}

pub(crate) fn table(case: &Case) -> bool {
    let mut rows = [u32::UNTOUCHED; MOST_NUMBERS];
    writes(case, &mut rows, |rows, count| {
        crashlog::containers::crashlog_sections(case.input, rows, count)
    })
}

pub(crate) fn normal_form(case: &Case) -> bool {
    let mut out = [u8::UNTOUCHED; MOST_BYTES];
    writes(case, &mut out, |out, length| {
        crashlog::containers::crashlog_normalise(case.input, out, length)
    })
}

// A call that lists rows.
fn lists<F: FnOnce(&mut [u32], &mut [u64; 5]) -> u32>(case: &Case, call: F) -> bool
    requires { F.IsAlwaysCallable call }
{
    let mut spans = [u32::UNTOUCHED; MOST_NUMBERS];
    let lent = within(case.room, &spans);
    let mut told = [u64::UNTOUCHED; 5];
    let answer = call(&mut spans[..lent], &mut told);
    case.tells(answer as u64, &told) & left(&spans, case.left)
}

// A listing is made by both walks.
pub(crate) fn listing(case: &Case) -> bool {
    let nested = lists(case, |spans, told| {
        crashlog::crashlog_list(case.input, case.rules, case.number, spans, told)
    });
    let flat = lists(case, |spans, told| {
        crashlog::crashlog_list_flat(case.input, case.rules, case.number, spans, told)
    });
    nested & flat
}

// The listing of a CPER's regions.
pub(crate) fn cper_listing(case: &Case) -> bool {
    let Some(id) = case.id.first_chunk() else {
        return false;
    };
    lists(case, |spans, told| {
        crashlog::crashlog_list_cper(case.input, id, case.rules, case.number, spans, told)
    })
}

pub(crate) fn text(case: &Case) -> bool {
    let mut page = [u8::UNTOUCHED; text::MOST_TEXT];
    let length = text::dump(case.input, &mut page);
    case.tells(length as u64, &[]) & left(&page, case.left)
}

// The text of a CPER's listing.
pub(crate) fn cper_text(case: &Case) -> bool {
    let mut page = [u8::UNTOUCHED; text::MOST_CPER_TEXT];
    let length = text::dump_cper(case.input, &mut page);
    case.tells(length as u64, &[]) & left(&page, case.left)
}

// The place of one section, and its body as a part of the input, which lies there.
pub(crate) fn section(case: &Case) -> bool {
    let cper = case.input;
    let row = word_of(case.number);
    let mut place = [u64::UNTOUCHED; 2];
    let answer = crashlog::containers::crashlog_section(cper, row, &mut place);
    let body = cper_sections::section(cper, row);
    case.tells(answer as u64, &place) & (body == part(cper, place[0] as usize, place[1] as usize))
}

pub(crate) fn name(case: &Case) -> bool {
    let mut out = [u8::UNTOUCHED; MOST_BYTES];
    let lent = within(case.room, &out);
    let length = crashlog::crashlog_name(word_of(case.number), &mut out[..lent]);
    case.tells(length as u64, &[]) & left(&out, case.left)
}
