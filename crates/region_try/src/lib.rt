// One try: the header at a place is judged, and a record's row is written where one is free. Where no record is, the region stops.
#![tactic(auto)]

ghost use Rattle.std.specs.Prelude.{◌≡◌, ◌*◌, ◌≤◌, ◌<◌, ◌^◌, length};
ghost use Rattle.region_rows.specs.Rows.{width};
ghost use Rattle.region_try.specs.Tries.{span_of};
ghost use Rattle.region_try.specs.Steps.{nothing_for, try_at, found, RowBounds};

pub mod stop;

use header_judge::version::{NO_WORD, ending_of};
use header_judge::{NoRecord, Summary};
use region_rows::Span;
use stop::{Stop, stop_at};

// What cut a walk off, if anything did: three plain cases, of which an Option would nest two.
#[derive(Clone, Copy, Debug, PartialEq, Eq)]
pub enum Cut {
    Going,
    Full,
    Spent,
}

// How far a walk has come: the rows written, the tries made, and whether all is whole so far; a walk that is cut off is not.
#[derive(Clone, Copy)]
pub struct State {
    pub rows: u32,
    pub tries: u64,
    pub whole: bool,
    pub cut: Cut,
}

// What one try gives: no record, so that the region stops, or one for which no row is free, or one whose row is written.
#[derive(Clone, Copy)]
pub enum Found {
    Nothing {
        stop: Stop,
        bad_type: u32,
    },
    NoRoom,
    Row {
        held: usize,
        declared: usize,
        size: usize,
        boxed: bool,
    },
}

impl From<NoRecord> for Found {
    ghost from_gives = { λ why found. found ≡ nothing_for why };

    fn from(why: NoRecord) -> Found {
        let (stop, bad_type) = stop_at(why);
        Found::Nothing { stop, bad_type }
    }
}

// The row of a record, by its place and what its header says; from its start on its region has so many bytes left.
pub fn span_of(level: u32, parent: u32, offset: usize, left: usize, summary: Summary) -> Span
    requires { (offset < 2 ^ 32) × (summary.declared ≤ 524280) × (summary.size ≤ 536) }
    ensures { result ≡ span_of level parent offset left summary }
{
    let held = summary.declared.min(left);
    Span {
        level,
        parent,
        offset: offset as u32,
        held: held as u32,
        declared: summary.declared as u32,
        size: summary.size as u32,
        word: summary.word,
        socket: summary.socket,
        die: summary.die,
        flags: summary.flags,
    }
}

// One try, where the header's word and flags are known: the header is judged first, then the room for its row. Opened in each walk, it costs
// no call for each record.
#[inline(always)]
pub fn try_at(
    bytes: &[u8],
    word: u32,
    flags: u32,
    level: u32,
    parent: u32,
    offset: usize,
    room: u32,
    rows: u32,
    spans: &mut [u32],
) -> Found
    requires { (offset < 2 ^ 32) × (length bytes.now < 2 ^ 32) × (room * width ≤ length spans.old) }
    ensures result_after { (spans.new, result) ≡ found room rows (try_at level parent offset bytes.now word flags) spans.old }
    ensures row_bounds { RowBounds result }
{
    if word == NO_WORD {
        return NoRecord::Ended(ending_of(bytes)).into();
    }
    let size = match header_judge::size_of(bytes, word, flags) {
        Ok(size) => size,
        Err(why) => return why.into(),
    };
    let declared = header_judge::declared_of(bytes, flags);
    if declared == 0 {
        return Found::Nothing {
            stop: Stop::SizeZero,
            bad_type: 0,
        };
    }
    if room <= rows {
        return Found::NoRoom;
    }
    let summary = header_judge::summary_of(bytes, word, flags, declared, size);
    let span = span_of(level, parent, offset, bytes.len(), summary);
    region_rows::put(spans, rows as usize, span);
    Found::Row {
        held: span.held as usize,
        declared,
        size,
        boxed: header_judge::is_box(word, flags),
    }
}
