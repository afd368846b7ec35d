// The functions that C is to have, over slices, numbers and plain structs, each a call of a proved function, whose result is told in numbers; crashlog_c
// exports them, since a crate is a library or an archive for C and not both.
// A call gives its answer by document 01's number; what else it tells is written into what is lent for it. include/crashlog.h documents them for C.
#![tactic(auto)]

ghost use Rattle.std.specs.Prelude.{◌≡◌};
ghost use Rattle.rules.specs.Intel.{intel_out};
ghost use Rattle.region.specs.Listing.{listed};
ghost use Rattle.cper_regions.specs.Listing.{cper_listed};
ghost use Rattle.names.specs.Names.{text_of, name_out};
ghost use Rattle.crashlog.specs.Listing.{numbers_out, listing_out};

pub mod containers;
pub mod headers;
pub mod receivers;

use region::Listing;

// Tells a listing in numbers, and gives its answer's.
fn tell(listing: Listing, told: &mut [u64; 5]) -> u32
    ensures { (told.new, result) ≡ numbers_out listing }
{
    *told = region::listing_told(listing);
    u32::from(listing.answer)
}

// The nested listing of a region.
pub fn crashlog_list(
    region: &[u8],
    rules: &[u32],
    limit: u64,
    spans: &mut [u32],
    told: &mut [u64; 5],
) -> u32
    ensures { (spans.new, (told.new, result)) ≡ listing_out (listed rules.now region.now limit spans.old) }
{
    tell(region::list(region, rules, limit, spans), told)
}

// The same by a walk for a small stack.
pub fn crashlog_list_flat(
    region: &[u8],
    rules: &[u32],
    limit: u64,
    spans: &mut [u32],
    told: &mut [u64; 5],
) -> u32
    ensures { (spans.new, (told.new, result)) ≡ listing_out (listed rules.now region.now limit spans.old) }
{
    tell(region_flat::list_flat(region, rules, limit, spans), told)
}

// The listing of all regions of a CPER whose sections have the record identifier asked for.
pub fn crashlog_list_cper(
    cper: &[u8],
    record_id: &[u8; 16],
    rules: &[u32],
    limit: u64,
    spans: &mut [u32],
    told: &mut [u64; 5],
) -> u32
    ensures { (spans.new, (told.new, result)) ≡ listing_out (cper_listed rules.now cper.now record_id.now limit spans.old) }
{
    tell(
        cper_regions::list_cper(cper, record_id, rules, limit, spans),
        told,
    )
}

// The length of a record type's name, which is written where it fits.
pub fn crashlog_name(record_type: u32, out: &mut [u8]) -> u32
    ensures { (out.new, result) ≡ name_out (text_of record_type) out.old }
{
    names::write(record_type, out)
}

// How many numbers Intel's rule table has, which is written where it fits.
pub fn crashlog_intel_rules(out: &mut [u32]) -> u32
    ensures { (out.new, result) ≡ intel_out out.old }
{
    rules::intel::write(out)
}
