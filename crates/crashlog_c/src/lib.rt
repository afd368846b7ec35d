// The C library: crashlog's functions, exported under the same names, each a call that promises the same.
// A call gives the number of its answer; what else it tells is written into what is lent for it. include/crashlog.h documents them for C.
#![tactic(auto)]

ghost use Rattle.std.specs.Prelude.{◌≡◌};
ghost use Rattle.rules.specs.Intel.{intel_out};
ghost use Rattle.header.specs.Header.{decoded_of};
ghost use Rattle.region.specs.Listing.{listed};
ghost use Rattle.cper_sections.specs.Sections.{sections_of, place_of};
ghost use Rattle.cper_normal.specs.Normal.{normalised_of};
ghost use Rattle.cper_regions.specs.Listing.{cper_listed};
ghost use Rattle.names.specs.Names.{text_of, name_out};
ghost use Rattle.c_header.specs.Codec.{decode_out, encode_out};
ghost use Rattle.receiver.specs.Calls.{started_out, fed_out, finished_out};
ghost use Rattle.crashlog.specs.Listing.{listing_out};
ghost use Rattle.crashlog.specs.Containers.{sections_out, section_out, normalised_out};

use c_header::CHeader;
use receiver::Receiver;

// The nested listing of a region.
#[unsafe(no_mangle)]
pub extern "C" fn crashlog_list(
    region: &[u8],
    rules: &[u32],
    limit: u64,
    spans: &mut [u32],
    told: &mut [u64; 5],
) -> u32
    ensures { (spans.new, (told.new, result)) ≡ listing_out (listed rules.now region.now limit spans.old) }
{
    crashlog::crashlog_list(region, rules, limit, spans, told)
}

// The same by a walk for a small stack.
#[unsafe(no_mangle)]
pub extern "C" fn crashlog_list_flat(
    region: &[u8],
    rules: &[u32],
    limit: u64,
    spans: &mut [u32],
    told: &mut [u64; 5],
) -> u32
    ensures { (spans.new, (told.new, result)) ≡ listing_out (listed rules.now region.now limit spans.old) }
{
    crashlog::crashlog_list_flat(region, rules, limit, spans, told)
}

// The listing of all regions of a CPER whose sections have the record identifier asked for.
#[unsafe(no_mangle)]
pub extern "C" fn crashlog_list_cper(
    cper: &[u8],
    record_id: &[u8; 16],
    rules: &[u32],
    limit: u64,
    spans: &mut [u32],
    told: &mut [u64; 5],
) -> u32
    ensures { (spans.new, (told.new, result)) ≡ listing_out (cper_listed rules.now cper.now record_id.now limit spans.old) }
{
    crashlog::crashlog_list_cper(cper, record_id, rules, limit, spans, told)
}

// The length of a record type's name, which is written where it fits.
#[unsafe(no_mangle)]
pub extern "C" fn crashlog_name(record_type: u32, out: &mut [u8]) -> u32
    ensures { (out.new, result) ≡ name_out (text_of record_type) out.old }
{
    crashlog::crashlog_name(record_type, out)
}

// How many numbers Intel's rule table has, which is written where it fits.
#[unsafe(no_mangle)]
pub extern "C" fn crashlog_intel_rules(out: &mut [u32]) -> u32
    ensures { (out.new, result) ≡ intel_out out.old }
{
    crashlog::crashlog_intel_rules(out)
}

// Starts a receiver, whatever it was before.
#[unsafe(no_mangle)]
pub extern "C" fn crashlog_receiver_start(receiver: &mut Receiver, rules: &[u32]) -> u32
    ensures { (receiver.new, result) ≡ started_out receiver.old rules.now }
{
    crashlog::receivers::crashlog_receiver_start(receiver, rules)
}

// Takes a piece: the rows of the records that are all in with it go to the table's start, and `rows` tells how many they are.
#[unsafe(no_mangle)]
pub extern "C" fn crashlog_receiver_feed(
    receiver: &mut Receiver,
    piece: &[u8],
    spans: &mut [u32],
    rows: &mut u64,
) -> u32
    ensures { (receiver.new, spans.new, rows.new, result) ≡ fed_out receiver.old piece.now spans.old }
{
    crashlog::receivers::crashlog_receiver_feed(receiver, piece, spans, rows)
}

// The end of the bytes: a last short row, if any, and what is told of the walk.
#[unsafe(no_mangle)]
pub extern "C" fn crashlog_receiver_finish(
    receiver: &mut Receiver,
    spans: &mut [u32],
    told: &mut [u64; 5],
) -> u32
    ensures { (receiver.new, spans.new, told.new, result) ≡ finished_out receiver.old spans.old }
{
    crashlog::receivers::crashlog_receiver_finish(receiver, spans, told)
}

// The header at the start of some bytes. What lies behind `header` is written with answer 0 alone.
// `told` gets the declared bytes, the header's size, the flags, the type of answer 4, and how the records end where they do.
#[unsafe(no_mangle)]
pub extern "C" fn crashlog_decode(
    bytes: &[u8],
    rules: &[u32],
    header: &mut CHeader,
    told: &mut [u64; 5],
) -> u32
    ensures { (header.new, told.new, result) ≡ decode_out header.old (decoded_of rules.now bytes.now) }
{
    crashlog::headers::crashlog_decode(bytes, rules, header, told)
}

// A header's bytes into an output, which a refusal leaves as it is, and their length.
#[unsafe(no_mangle)]
pub extern "C" fn crashlog_encode(
    header: &CHeader,
    rules: &[u32],
    out: &mut [u8],
    length: &mut u64,
) -> u32
    ensures { (out.new, length.new, result) ≡ encode_out rules.now header.now out.old }
{
    crashlog::headers::crashlog_encode(header, rules, out, length)
}

// The kept sections as rows of three numbers; how many rows were written.
#[unsafe(no_mangle)]
pub extern "C" fn crashlog_sections(cper: &[u8], table: &mut [u32], rows: &mut u64) -> u32
    ensures { (table.new, rows.new, result) ≡ sections_out (sections_of cper.now table.old) }
{
    crashlog::containers::crashlog_sections(cper, table, rows)
}

// Where the body of one kept section is: its offset and its length.
#[unsafe(no_mangle)]
pub extern "C" fn crashlog_section(cper: &[u8], row: u32, told: &mut [u64; 2]) -> u32
    ensures { (told.new, result) ≡ section_out (place_of cper.now row) }
{
    crashlog::containers::crashlog_section(cper, row, told)
}

// The normal form; how many bytes were written.
#[unsafe(no_mangle)]
pub extern "C" fn crashlog_normalise(cper: &[u8], out: &mut [u8], length: &mut u64) -> u32
    ensures { (out.new, length.new, result) ≡ normalised_out (normalised_of cper.now out.old) }
{
    crashlog::containers::crashlog_normalise(cper, out, length)
}
