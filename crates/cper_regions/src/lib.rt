// The listing of a CPER (document 02, C-15): the records of the regions in its Crash Log sections, one region after the other.
#![tactic(auto)]

ghost use Rattle.std.specs.Prelude.{◌≡◌, [], ◌∷◌, true, ◌*◌, ◌≤◌, length};
ghost use Rattle.region_rows.specs.Rows.{width};
ghost use Rattle.region_walk.specs.Steps.{going};
ghost use Rattle.cper_header.specs.Record.{header_size};
ghost use Rattle.cper_sections.specs.Sections.{kept_of};
ghost use Rattle.cper_sections.specs.Steps.{Within};
ghost use Rattle.cper_regions.specs.Listing.{cper_listed};
ghost use Rattle.cper_regions.specs.Steps.{Openable, sections_run};

pub mod opened;

use answers::MOST_BYTES;
use cper_sections::kept::{Kept, Section};
use opened::{SECTION_HEADER_SIZE, is_opened};
use region::{Answer, Listing};
use region_rows::TOP;
use region_try::stop::Stop;
use region_try::{Cut, State};
use region_walk::bounds::Bounds;
use region_walk::{DEEPEST, Walked};
use rules::columns::Columns;

// The record identifier of a Crash Log, 8f87f311-c998-4d9e-a0c4-6065518c4f6d, as a file has it.
pub const RECORD_ID_CRASHLOG: [u8; 16] =
    *b"\x11\xF3\x87\x8F\x98\xC9\x9E\x4D\xA0\xC4\x60\x65\x51\x8C\x4F\x6D";

// Walks the region of a kept section, where it is opened; its rows follow those before it.
fn walk_section(
    cper: &[u8],
    section: Section,
    record_id: &[u8; 16],
    bounds: &Bounds,
    rows: u32,
    tries: u64,
    whole: bool,
    spans: &mut [u32],
) -> State
    requires { Within cper.now section × Openable cper.now bounds.now spans.old }
    ensures { (spans.new, result) ≡ sections_run cper.now record_id.now bounds.now (section ∷ []) (going spans.old rows tries whole) }
{
    if !is_opened(cper, record_id, section) {
        return State {
            rows,
            tries,
            whole,
            cut: Cut::Going,
        };
    }
    let start = (section.offset as usize) + SECTION_HEADER_SIZE;
    let end = (section.offset as usize) + (section.size as usize);
    let region = region_walk::region_walk(
        &cper[start..end],
        bounds,
        start,
        DEEPEST,
        rows,
        whole,
        TOP,
        tries,
        spans,
    );
    region.counts()
}

// Walks the regions of all kept sections, one after the other.
fn walk_sections(cper: &[u8], record_id: &[u8; 16], bounds: &Bounds, spans: &mut [u32]) -> State
    requires { (header_size ≤ length cper.now) × Openable cper.now bounds.now spans.old }
    ensures { (spans.new, result) ≡ sections_run cper.now record_id.now bounds.now (kept_of cper.now) (going spans.old 0 0 true) }
{
    let mut rows: u32 = 0;
    let mut tries: u64 = 0;
    let mut whole = true;
    for section in Kept::new(cper) {
        let walked = walk_section(cper, section, record_id, bounds, rows, tries, whole, spans);
        if walked.cut != Cut::Going {
            return walked;
        }
        whole = walked.whole;
        tries = walked.tries;
        rows = walked.rows;
    }
    State {
        rows,
        tries,
        whole,
        cut: Cut::Going,
    }
}

// The listing of a CPER's regions; its rows fit the table.
pub fn list_cper(
    cper: &[u8],
    record_id: &[u8; 16],
    rules: &[u32],
    limit: u64,
    spans: &mut [u32],
) -> Listing
    ensures result_after { (spans.new, result) ≡ cper_listed rules.now cper.now record_id.now limit spans.old }
    ensures width_in_bounds { result.rows * width ≤ length spans.old }
{
    if MOST_BYTES < cper.len() {
        return region::refused(Answer::TooLong);
    }
    if !rules::valid(rules) {
        return region::refused(Answer::BadRules);
    }
    if !cper_header::is_cper(cper) {
        return region::refused(Answer::NotCper);
    }
    let mut columns = Columns::none();
    columns.fill(rules);
    let bounds = Bounds::new(&columns, limit, spans);
    let end = walk_sections(cper, record_id, &bounds, spans);
    region::listing_at(Walked::untold(end))
}
