// The nested listing of a region for a small stack (document 02, C-23).
#![tactic(auto)]

ghost use Rattle.std.specs.Prelude.{◌≡◌, ◌*◌, ◌≤◌, length};
ghost use Rattle.region_rows.specs.Rows.{width};
ghost use Rattle.region.specs.Listing.{listed};

pub mod memory;
pub mod place;
pub mod walk;

use answers::MOST_BYTES;
use region::{Answer, Listing};
use walk::flat_walk;

// The nested listing of a region, as `region::list` gives it, by the flat walk.
pub fn list_flat(region: &[u8], rules: &[u32], limit: u64, spans: &mut [u32]) -> Listing
    ensures result_after { (spans.new, result) ≡ listed rules.now region.now limit spans.old }
    ensures width_in_bounds { result.rows * width ≤ length spans.old }
{
    if MOST_BYTES < region.len() {
        return region::refused(Answer::TooLong);
    }
    if !rules::valid(rules) {
        return region::refused(Answer::BadRules);
    }
    region::listing_at(flat_walk(region, rules, limit, region_rows::room_of(spans), spans))
}
