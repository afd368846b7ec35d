// The header encoder, which the Rust does not have: the inverse of decode.
#![tactic(auto)]

ghost use Rattle.std.specs.Prelude.{◌≡◌};
ghost use Rattle.header_write.specs.Fit.{status_fits, fields_fit};
ghost use Rattle.header_encode.specs.Encode.{version_fits, encodable, encoded_of, number_of};
ghost use Rattle.header.specs.Access.{layout_in};

use header::{Header, HeaderType, Status};
use header_judge::Layout;
use header_judge::origin::server_die;
use header_judge::version::{END_MARK, NO_WORD, Version};
use header_write::put_header;

// A status that shares its word with complete is below this.
const STATUS_END: u32 = 2147483648;

const MOST_STATUSES: u16 = 127;

// Why a header is not encoded.
#[derive(Clone, Copy, Debug, PartialEq, Eq)]
pub enum Refusal {
    BadRules,
    BadField,
    OutputShort,
}

impl From<Refusal> for u32 {
    ghost from_gives = { λ refusal number. number ≡ number_of refusal };

    fn from(refusal: Refusal) -> u32 {
        match refusal {
            Refusal::BadRules => answers::BAD_RULES,
            Refusal::BadField => answers::BAD_FIELD,
            Refusal::OutputShort => answers::OUTPUT_SHORT,
        }
    }
}

// Whether each field of a version is within its bits.
fn version_fits(version: Version) -> bool
    ensures { result ≡ version_fits version }
{
    version.revision < 256
        && version.header_type < 16
        && version.product_id < 4096
        && version.record_type < 64
}

// The layout of a header's fields.
fn layout_in(header_type: HeaderType) -> Layout
    ensures { result ≡ layout_in header_type }
{
    match header_type {
        HeaderType::Type0 => Layout::Zero,
        HeaderType::Type1 => Layout::One,
        HeaderType::Type2 { .. } => Layout::Two,
        HeaderType::Type3 { .. } => Layout::Three,
        HeaderType::Type4 { .. } => Layout::Four,
        HeaderType::Type5 { .. } => Layout::Five,
        HeaderType::Type6 { .. } => Layout::Six,
        HeaderType::Type0LegacyServer { .. } => Layout::LegacyServer,
        HeaderType::Type0LegacyGpu { .. } => Layout::LegacyGpu,
    }
}

fn status_fits(status: Status) -> bool
    ensures { result ≡ status_fits status }
{
    status.completion_status < STATUS_END
}

// Whether the fields of a layout fit, beside a revision and an extended size.
fn fields_fit(header_type: HeaderType, revision: u32, extended: u16) -> bool
    ensures { result ≡ fields_fit header_type revision extended }
{
    match header_type {
        HeaderType::Type0
        | HeaderType::Type1
        | HeaderType::Type2 { .. }
        | HeaderType::Type4 { .. } => true,
        HeaderType::Type3 { status, .. } | HeaderType::Type5 { status, .. } => status_fits(status),
        HeaderType::Type6 {
            completion_status_size,
            ..
        } => completion_status_size <= MOST_STATUSES,
        HeaderType::Type0LegacyServer { die_id, status, .. } => {
            status_fits(status) && extended == 0 && die_id == server_die(revision)
        }
        HeaderType::Type0LegacyGpu { status, .. } => status_fits(status) && extended == 0,
    }
}

// Whether a header can be encoded under a rule table.
#[tactic(auto, using(crate::proofs::Layouts::equal_numbers), unfolding(crate::specs::Encode::encodable))]
fn can_encode(header: Header, rules: &[u32]) -> bool
    ensures { result ≡ encodable rules.now header }
{
    if !version_fits(header.version) {
        return false;
    }
    let word = header.version.as_u32();
    if word == NO_WORD || word == END_MARK {
        return false;
    }
    let chosen = header_judge::layout_of(word, rules::flags(rules, word));
    chosen == layout_in(header.header_type)
        && fields_fit(
            header.header_type,
            header.version.revision,
            header.size.extended_record_size,
        )
}

// A header's bytes into an output that decode reads back, and how many they are; on a refusal the output is untouched.
#[tactic(auto, unfolding(crate::specs::Encode::encoded_of))]
pub fn encode(header: Header, rules: &[u32], out: &mut [u8]) -> Result<usize, Refusal>
    ensures { (out.new, result) ≡ encoded_of rules.now header out.old }
{
    if !rules::valid(rules) {
        return Err(Refusal::BadRules);
    }
    if !can_encode(header, rules) {
        return Err(Refusal::BadField);
    }
    let size = header.header_size();
    if out.len() < size {
        return Err(Refusal::OutputShort);
    }
    put_header(out, header);
    Ok(size)
}
