// The end of the bytes: the last header is judged, and a record that lacks bytes gets its row.
ghost use Rattle.std.specs.Prelude.{◌≡◌, true, ◌&&◌, ◌+◌, ◌≤◌, ◌<◌, ◌^◌, length};
ghost use Rattle.header_judge.specs.Steps.{HeadBounds};
ghost use Rattle.region_rows.specs.Rows.{width, top};
ghost use Rattle.region_try.specs.Tries.{try_of};
ghost use Rattle.region_try.specs.Whole.{clean_stop};
ghost use Rattle.receiver.specs.Lookups.{rules_of};
ghost use Rattle.receiver.specs.Calls.{rules_at, waiting_of, usable};
ghost use Rattle.receiver.specs.Steps.{bytes_in, listing_at, end_at, last_of};

use crate::lookup::Lookup;
use crate::piece::Moved;
use crate::{KEPT, State};
use header_judge::version::word_of;
use header_judge::{NoRecord, Summary};
use region::{Answer, Listing};
use region_rows::TOP;
use region_try::Cut;
use region_try::stop::{Stop, clean_stop, stop_at};
use rules::columns::NUMBERS;

// The listing of a walk that is not cut off: its rows are those that this call writes, the answer goes by all of them.
fn listing_at(
    all_rows: u32,
    written: u32,
    tries: u64,
    whole: bool,
    stop: Stop,
    bad_type: u32,
) -> Listing
    ensures { result ≡ listing_at all_rows written tries whole stop bad_type }
{
    let answer = region::answer_of(Cut::Going, all_rows, stop, bad_type);
    Listing {
        answer,
        rows: written,
        tries,
        whole: (answer == Answer::Done) & whole,
        stop,
    }
}

// The listing where the walk stops at a header that is no record.
fn at_stop(from: Moved, stop: Stop, bad_type: u32) -> Listing
    requires { from.rows < 2 ^ 32 }
    ensures { result ≡ listing_at from.rows 0 (from.rows + 1) (from.whole && clean_stop stop) stop bad_type }
{
    let tries = (from.rows as u64) + 1;
    listing_at(
        from.rows,
        0,
        tries,
        from.whole & clean_stop(stop),
        stop,
        bad_type,
    )
}

// The listing where the walk stands at a header: a record lacks bytes, or declares none.
fn at_head(head: Result<Summary, NoRecord>, held: usize, from: Moved, spans: &mut [u32]) -> Listing
    requires { HeadBounds head × (bytes_in held head ≡ 0) × (from.offset < 2 ^ 32) × (from.rows + 1 < 2 ^ 32) × (width ≤ length spans.old) }
    ensures { (spans.new, result) ≡ end_at (try_of 0 top from.offset held head) from.rows from.whole spans.old }
{
    match head {
        Err(why) => {
            let (stop, bad_type) = stop_at(why);
            at_stop(from, stop, bad_type)
        }
        Ok(summary) => {
            if summary.declared == 0 {
                return at_stop(from, Stop::SizeZero, 0);
            }
            let span = region_try::span_of(0, TOP, from.offset, held, summary);
            region_rows::put(spans, 0, span);
            let rows = from.rows;
            listing_at(rows + 1, 1, (rows as u64) + 1, false, Stop::EndOfInput, 0)
        }
    }
}

// The listing at the end of the bytes, of which the first are kept. The lookup may know their word already.
pub fn last_with(state: State, lookup: Lookup, kept: &[u8], spans: &mut [u32]) -> Listing
    requires { (usable state lookup.rules.now kept.now ≡ true) × (lookup.blocks ≡ state.rule_blocks) × (length kept.now ≡ 536) × (6000 ≤ length spans.old) }
    ensures { (spans.new, result) ≡ last_of (rules_of lookup.entry) (waiting_of state kept.now) spans.old }
{
    let from = Moved {
        rows: state.rows as u32,
        offset: state.offset as usize,
        whole: state.whole == 1,
    };
    let held = state.held();
    if held == 0 {
        return listing_at(from.rows, 0, state.rows, from.whole, Stop::EndOfInput, 0);
    }
    let front = &kept[..held.min(KEPT)];
    let word = word_of(front);
    let head = header_judge::judge_with(front, word, lookup.flags_of(word));
    at_head(head, held, from, spans)
}

// The same, where no word was looked up.
pub fn last(state: State, rules: &[u32; NUMBERS], kept: &[u8], spans: &mut [u32]) -> Listing
    requires { (usable state rules.now kept.now ≡ true) × (length kept.now ≡ 536) × (6000 ≤ length spans.old) }
    ensures { (spans.new, result) ≡ last_of (rules_at state rules.now) (waiting_of state kept.now) spans.old }
{
    let lookup = Lookup::new(rules, state.rule_blocks as usize);
    last_with(state, lookup, kept, spans)
}
