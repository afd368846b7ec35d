// The nested listing of a region: what is refused, the walk from the top, and its answer.
#![tactic(auto)]

ghost use Rattle.std.specs.Prelude.{◌≡◌, ◌*◌, ◌≤◌, ◌<◌, length};
ghost use Rattle.region_rows.specs.Rows.{width};
ghost use Rattle.region.specs.Listing.{number_of, type_of, answer_without, answer_of, listing_told, refusal, listing_at, listed};

use answers::MOST_BYTES;
use region_rows::TOP;
use region_try::Cut;
use region_try::stop::Stop;
use region_walk::bounds::Bounds;
use region_walk::{DEEPEST, Walked};
use rules::columns::Columns;

// What a listing answers: 'not a CPER' that of a CPER's regions, a bad header or type that of one region. It is no Result: rows and tries are
// told with every answer, so an error would carry what a success does.
#[derive(Clone, Copy, Debug, PartialEq, Eq)]
pub enum Answer {
    Done,
    TooLong,
    BadRules,
    NotCper,
    BadHeader,
    BadType(u32),
    Empty,
    SpansFull,
    TriesSpent,
}

// The answer, the rows written, the tries made, whether all is whole, and why the top region stopped.
#[derive(Clone, Copy)]
pub struct Listing {
    pub answer: Answer,
    pub rows: u32,
    pub tries: u64,
    pub whole: bool,
    pub stop: Stop,
}

// The answer where the region stops without a record.
fn answer_without(stop: Stop, bad_type: u32) -> Answer
    ensures { result ≡ answer_without stop bad_type }
{
    match stop {
        Stop::BadHeader => Answer::BadHeader,
        Stop::BadType => Answer::BadType(bad_type),
        _ => Answer::Empty,
    }
}

// The answer of a walk.
pub fn answer_of(cut: Cut, rows: u32, stop: Stop, bad_type: u32) -> Answer
    ensures { result ≡ answer_of cut rows stop bad_type }
{
    match cut {
        Cut::Full => Answer::SpansFull,
        Cut::Spent => Answer::TriesSpent,
        Cut::Going if rows == 0 => answer_without(stop, bad_type),
        Cut::Going => Answer::Done,
    }
}

// Document 01's number of an answer.
impl From<Answer> for u32 {
    ghost from_gives = { λ answer number. (number ≡ number_of answer) × (number < 9) };

    fn from(answer: Answer) -> u32 {
        match answer {
            Answer::Done => answers::DONE,
            Answer::TooLong => answers::TOO_LONG,
            Answer::BadRules => answers::BAD_RULES,
            Answer::NotCper => answers::NOT_CPER,
            Answer::BadHeader => answers::BAD_HEADER,
            Answer::BadType(_) => answers::BAD_TYPE,
            Answer::Empty => answers::EMPTY,
            Answer::SpansFull => answers::SPANS_FULL,
            Answer::TriesSpent => answers::TRIES_SPENT,
        }
    }
}

// The type that comes with a bad type, else 0.
pub fn type_of(answer: Answer) -> u32
    ensures { result ≡ type_of answer }
{
    match answer {
        Answer::BadType(header_type) => header_type,
        _ => 0,
    }
}

// What is told of a listing in numbers: rows, tries, the bad type, whether it is whole, and why the top region stopped.
pub fn listing_told(listing: Listing) -> [u64; 5]
    ensures { result ≡ listing_told listing }
{
    [
        listing.rows as u64,
        listing.tries,
        type_of(listing.answer) as u64,
        u64::from(listing.whole),
        u32::from(listing.stop) as u64,
    ]
}

// A refusal before any work.
pub fn refused(answer: Answer) -> Listing
    ensures { result ≡ refusal answer }
{
    Listing {
        answer,
        rows: 0,
        tries: 0,
        whole: false,
        stop: Stop::Untold,
    }
}

// The listing of a whole input's walk.
pub fn listing_at(end: Walked) -> Listing
    ensures { result ≡ listing_at end }
{
    let answer = answer_of(end.cut, end.rows, end.stop, end.bad_type);
    Listing {
        answer,
        rows: end.rows,
        tries: end.tries,
        whole: (answer == Answer::Done) & end.whole,
        stop: end.stop,
    }
}

// The nested listing of a region; its rows fit the table.
pub fn list(region: &[u8], rules: &[u32], limit: u64, spans: &mut [u32]) -> Listing
    ensures result_after { (spans.new, result) ≡ listed rules.now region.now limit spans.old }
    ensures width_in_bounds { result.rows * width ≤ length spans.old }
{
    if MOST_BYTES < region.len() {
        return refused(Answer::TooLong);
    }
    if !rules::valid(rules) {
        return refused(Answer::BadRules);
    }
    let mut columns = Columns::none();
    columns.fill(rules);
    let bounds = Bounds::new(&columns, limit, spans);
    listing_at(region_walk::region_walk(region, &bounds, 0, DEEPEST, 0, true, TOP, 0, spans))
}
