// The walk: the records of a region, and those inside its Boxes, as rows of a lent table.
// The region walk and the Box walk call each other, one level deeper each time; a region's records are a loop.
#![tactic(auto)]

ghost use Rattle.std.specs.Prelude.{◌≡◌, ◌<◌};
ghost use Rattle.region_walk.specs.Steps.{Walkable, walk_end, untold, counts_of, going, region_run, box_run};

pub mod bounds;

use bounds::Bounds;
use header_judge::version::{NO_WORD, word_of};
use region_try::stop::{Stop, clean_stop};
use region_try::{Cut, Found, State};

// How deep Boxes are opened.
pub const DEEPEST: u32 = 4;

// How a region's walk ends: the counts, and why the region stops, with its bad type, where nothing cuts the walk off. The counts are no
// struct in it, which would be copied with its padding: a fiftieth more instructions for the thinnest Boxes.
#[derive(Clone, Copy)]
pub struct Walked {
    pub rows: u32,
    pub tries: u64,
    pub whole: bool,
    pub cut: Cut,
    pub stop: Stop,
    pub bad_type: u32,
}

// One line at each end of a walk, where a literal takes eight.
pub fn walk_end(rows: u32, tries: u64, whole: bool, cut: Cut, stop: Stop, bad_type: u32) -> Walked
    ensures { result ≡ walk_end rows tries whole cut stop bad_type }
{
    Walked {
        rows,
        tries,
        whole,
        cut,
        stop,
        bad_type,
    }
}

impl Walked {
    // The end of a walk of which no stop is told.
    pub fn untold(counts: State) -> Walked
        ensures { result ≡ untold counts }
    {
        walk_end(
            counts.rows,
            counts.tries,
            counts.whole,
            counts.cut,
            Stop::Untold,
            0,
        )
    }

    // The counts alone.
    pub fn counts(self) -> State
        ensures { result ≡ counts_of self }
    {
        State {
            rows: self.rows,
            tries: self.tries,
            whole: self.whole,
            cut: self.cut,
        }
    }
}

// The records of a region, one after the other, each with what stands inside it. Which arguments go in registers is by their order.
#[cycle(box_walk_region_walk)]
pub fn region_walk(
    bytes: &[u8],
    bounds: &Bounds,
    base: usize,
    levels: u32,
    mut rows: u32,
    mut whole: bool,
    parent: u32,
    mut tries: u64,
    spans: &mut [u32],
) -> Walked
    requires { Walkable bytes.now base levels bounds.now spans.old }
    ensures { (spans.new, result) ≡ region_run bounds.now levels bytes.now base parent (going spans.old rows tries whole) }
{
    let mut last = NO_WORD;
    let mut known = 0;
    let mut at = 0;
    // No index is counted: what a record declares is the step.
    while at < bytes.len() {
        if bounds.limit <= tries {
            return walk_end(rows, tries, false, Cut::Spent, Stop::Untold, 0);
        }
        let word = word_of(&bytes[at..]);
        if word != last {
            last = word;
            known = bounds.rules.flags(word);
        }
        tries += 1;
        let tried = region_try::try_at(
            &bytes[at..],
            word,
            known,
            DEEPEST - levels,
            parent,
            base + at,
            bounds.room,
            rows,
            spans,
        );
        match tried {
            Found::Nothing { stop, bad_type } => {
                let clean = clean_stop(stop);
                return walk_end(rows, tries, whole & clean, Cut::Going, stop, bad_type);
            }
            Found::NoRoom => return walk_end(rows, tries, false, Cut::Full, Stop::Untold, 0),
            Found::Row {
                held,
                declared,
                size,
                boxed,
            } => {
                let row = rows;
                rows += 1;
                whole &= declared <= held;
                if boxed {
                    let end = at + held;
                    let inner = box_walk(
                        &bytes[at..end],
                        bounds,
                        base + at,
                        size,
                        levels,
                        row,
                        tries,
                        whole,
                        spans,
                    );
                    if inner.cut != Cut::Going {
                        return Walked::untold(inner);
                    }
                    rows = inner.rows;
                    tries = inner.tries;
                    whole = inner.whole;
                }
                at += declared;
            }
        }
    }
    walk_end(rows, tries, whole, Cut::Going, Stop::EndOfInput, 0)
}

// What stands inside a Box whose row is `row`. It is opened where a level is left and its header is held; a header that exceeds the
// held bytes leaves nothing whole.
#[cycle(box_walk_region_walk)]
fn box_walk(
    held: &[u8],
    bounds: &Bounds,
    base: usize,
    size: usize,
    levels: u32,
    row: u32,
    tries: u64,
    whole: bool,
    spans: &mut [u32],
) -> State
    requires { Walkable held.now base levels bounds.now spans.old × (row < bounds.now.room) }
    ensures { (spans.new, result) ≡ box_run bounds.now levels held.now base size row spans.old tries whole }
{
    let rows = row + 1;
    let cut = Cut::Going;
    if levels == 0 {
        return State {
            rows,
            tries,
            whole,
            cut,
        };
    }
    if held.len() <= size {
        return State {
            rows,
            tries,
            whole: whole & (size <= held.len()),
            cut,
        };
    }
    let child = region_walk(
        &held[size..],
        bounds,
        base + size,
        levels - 1,
        rows,
        whole,
        row,
        tries,
        spans,
    );
    child.counts()
}
