// The text of a dump, of a region or of a CPER, put into a lent buffer line by line.
#![tactic(auto)]

ghost use Rattle.std.specs.Prelude.{◌≡◌, ◌++◌, ◌+◌, ◌*◌, ◌≤◌, length, drop};
ghost use Rattle.region_rows.specs.Rows.{width};
ghost use Rattle.text.specs.Dump.{listing, text_of_listing, dump_text};
ghost use Rattle.text.specs.CperDump.{cper_dump_text};
ghost use Rattle.text.specs.Steps.{Puts, most_text};

mod lines;
mod page;

use cper_regions::RECORD_ID_CRASHLOG;
use page::Page;
use region::{Answer, Listing};

const NO_RULES: [u32; 0] = [];

// The longest region, the most tries and the most rows.
const MOST_INPUT: usize = 65535;

const MOST_TRIES: u64 = 81920;

const MOST_ROWS: usize = 512;

const NUMBERS: usize = MOST_ROWS * region_rows::WIDTH;

// The most tries and the most rows of a CPER, whose length the listing judges.
const MOST_CPER_TRIES: u64 = 1310720;

const MOST_CPER_ROWS: usize = 4096;

const CPER_NUMBERS: usize = MOST_CPER_ROWS * region_rows::WIDTH;

// The most bytes of the heading, of a row's line and of the last line.
const MOST_HEADING: usize = 58;

const MOST_LINE: usize = 103;

const MOST_LAST: usize = 91;

// The most bytes of a region's text, and of a CPER's.
pub const MOST_TEXT: usize = MOST_HEADING + MOST_ROWS * MOST_LINE + MOST_LAST;

pub const MOST_CPER_TEXT: usize = MOST_HEADING + MOST_CPER_ROWS * MOST_LINE + MOST_LAST;

// The listing, or the refusal of a region that is too long; its rows fit the table.
#[tactic(auto, unfolding(crate::specs::Dump::listing))]
fn listing_of(region: &[u8], spans: &mut [u32]) -> Listing
    ensures result_after { (spans.new, result) ≡ listing region.now spans.old }
    ensures width_in_bounds { result.rows * width ≤ length spans.old }
{
    if MOST_INPUT < region.len() {
        return region::refused(Answer::TooLong);
    }
    region::list(region, &NO_RULES, MOST_TRIES, spans)
}

// The whole text of a listing and the table with its rows, at the start of `out`; gives its length.
fn put_listing(out: &mut [u8], spans: &[u32], listing: Listing) -> usize
    requires { (listing.rows * width ≤ length spans.now) × (most_text listing.rows ≤ length out.old) }
    ensures { let text = text_of_listing (spans.now, listing) in
        (result ≡ length text) × (out.new ≡ text ++ drop result out.old) }
{
    let mut page = Page { out, end: 0 };
    page.text(b"level offset held declared header version socket die name\n");
    page.rows(spans, listing.rows as usize);
    page.last(listing);
    page.end
}

// The whole text of a region, at the start of `out`; gives its length.
pub fn dump(region: &[u8], out: &mut [u8; MOST_TEXT]) -> usize
    ensures { (result ≡ length (dump_text region.now)) × (out.new ≡ dump_text region.now ++ drop result out.old) }
{
    let mut spans = [0u32; NUMBERS];
    let listing = listing_of(region, &mut spans);
    put_listing(out, &spans, listing)
}

// The whole text of a CPER, at the start of `out`; gives its length.
pub fn dump_cper(cper: &[u8], out: &mut [u8; MOST_CPER_TEXT]) -> usize
    ensures { (result ≡ length (cper_dump_text cper.now)) × (out.new ≡ cper_dump_text cper.now ++ drop result out.old) }
{
    let mut spans = [0u32; CPER_NUMBERS];
    let listing = cper_regions::list_cper(
        cper,
        &RECORD_ID_CRASHLOG,
        &NO_RULES,
        MOST_CPER_TRIES,
        &mut spans,
    );
    put_listing(out, &spans, listing)
}
