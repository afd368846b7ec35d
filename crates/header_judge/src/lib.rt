// One try: what the header at the start of a slice is, as far as a span row needs it, and the parts that this is made of.
// The walk calls the parts; `judge` and the decoder are made of the same parts.
#![tactic(auto)]

ghost use Rattle.std.specs.Prelude.{◌≡◌, ◌+◌, ◌*◌, ◌≤◌, ◌<◌, ltb, cond, length, Ok, Err};
ghost use Rattle.header_judge.specs.declared.NoRecord.TheVariants.{BadHeader};
ghost use Rattle.header_judge.specs.Steps.{Measured, HeadBounds};
ghost use Rattle.header_judge.specs.Head.{legacy, record_size, extended_size, sizes_end, unit, declared_of, count_of, shape_of, layout_of, size_of, is_box, summary_of, head_with, head_of, declared_by};

pub mod origin;
pub mod version;

use basics::has_bit;
use le::LittleEndian;
use origin::origin_of;
use version::{Ending, NO_WORD, ending_of, word_of};

// How the fields of a header lie.
#[derive(Clone, Copy, Debug, PartialEq, Eq)]
pub enum Layout {
    Zero,
    One,
    Two,
    Three,
    Four,
    Five,
    Six,
    LegacyServer,
    LegacyGpu,
    Bad,
}

#[derive(Clone, Copy, Debug, PartialEq, Eq)]
pub struct Shape {
    pub layout: Layout,
    pub size: usize,
}

// Size of a Crash Log record, as its header has it.
#[derive(Clone, Copy, Debug, PartialEq, Eq)]
pub struct RecordSize {
    pub record_size: u16,
    pub extended_record_size: u16,
}

// What a header says of its record, as far as a span row needs it: the version word, its flags, the bytes declared, the header's size,
// and the socket and the die that it names.
#[derive(Clone, Copy, Debug, PartialEq, Eq)]
pub struct Summary {
    pub word: u32,
    pub flags: u32,
    pub declared: usize,
    pub size: usize,
    pub socket: u32,
    pub die: u32,
}

// Why one try finds no record.
#[derive(Clone, Copy, Debug, PartialEq, Eq)]
pub enum NoRecord {
    Ended(Ending),
    BadHeader,
    BadType(u32),
}

const BOX: u32 = 0x3d;

// Whether the flags choose a legacy layout.
pub fn is_legacy(flags: u32) -> bool
    ensures { result ≡ legacy flags }
{
    has_bit(flags, rules::LEGACY_SERVER) | has_bit(flags, rules::LEGACY_GPU)
}

// Whether records stand inside.
pub fn is_box(word: u32, flags: u32) -> bool
    ensures { result ≡ is_box word flags }
{
    (word / 16777216 % 64 == BOX) | has_bit(flags, rules::LEGACY_SERVER_BOX)
}

// The size fields, of which a legacy header has only the record's.
pub fn sizes_of(s: &[u8], flags: u32) -> RecordSize
    requires { sizes_end flags ≤ length s.now }
    ensures { (result.record_size ≡ record_size s.now flags) × (result.extended_record_size ≡ extended_size s.now flags) }
{
    if is_legacy(flags) {
        return RecordSize {
            record_size: u16::read_le(s, 16),
            extended_record_size: 0,
        };
    }
    RecordSize {
        record_size: u16::read_le(s, 4),
        extended_record_size: u16::read_le(s, 6),
    }
}

// A count of the size fields' units, in bytes.
pub fn in_bytes(units: usize, flags: u32) -> usize
    requires { units ≤ 131070 }
    ensures { (result ≡ units * unit flags) × (result ≤ 524280) }
{
    if has_bit(flags, rules::SIZES_IN_BYTES) {
        return units;
    }
    units * 4
}

// The bytes that the record declares, by its size fields and their unit.
#[tactic(auto, unfolding(crate::specs::Head::declared_of))]
fn declared_under(s: &[u8], flags: u32) -> usize
    requires { sizes_end flags ≤ length s.now }
    ensures { (result ≡ declared_of s.now flags) × (result ≤ 524280) }
{
    let size = sizes_of(s, flags);
    in_bytes(
        (size.record_size as usize) + (size.extended_record_size as usize),
        flags,
    )
}

// The bytes that the record declares. The next record's position waits for them: where no rule applies, they do not wait for the flags.
pub fn declared_of(s: &[u8], flags: u32) -> usize
    requires { sizes_end flags ≤ length s.now }
    ensures { (result ≡ declared_of s.now flags) × (result ≤ 524280) }
{
    if flags == 0 {
        return declared_under(s, 0);
    }
    declared_under(s, flags)
}

// The count of status words of a type 6 header, or 0 where its bytes are lacking.
pub fn count_of(s: &[u8]) -> usize
    ensures { (result ≡ count_of s.now) × (result ≤ 127) }
{
    if s.len() < 28 {
        return 0;
    }
    (u16::read_le(s, 26) % 128) as usize
}

// The layout and the header size that a header type chooses.
pub fn shape_of(s: &[u8], header_type: u32) -> Option<Shape>
    ensures { result ≡ shape_of s.now header_type }
{
    let (layout, size) = match header_type {
        0 => (Layout::Zero, 8),
        1 => (Layout::One, 8),
        2 => (Layout::Two, 24),
        3 => (Layout::Three, 28),
        4 => (Layout::Four, 32),
        5 => (Layout::Five, 32),
        6 => (Layout::Six, 28 + 4 * count_of(s)),
        _ => return None,
    };
    Some(Shape { layout, size })
}

// The layout that the flags choose, or else the header type; no type's layout depends on the bytes.
pub fn layout_of(word: u32, flags: u32) -> Layout
    ensures { result ≡ layout_of word flags }
{
    if has_bit(flags, rules::LEGACY_SERVER) {
        return Layout::LegacyServer;
    }
    if has_bit(flags, rules::LEGACY_GPU) {
        return Layout::LegacyGpu;
    }
    match shape_of(b"", word / 256 % 16) {
        Some(shape) => shape.layout,
        None => Layout::Bad,
    }
}

// A header's size, where so many bytes are there.
fn held(s: &[u8], size: usize) -> Result<usize, NoRecord>
    ensures { result ≡ cond (ltb (length s.now) size) (Err BadHeader) (Ok size) }
{
    if s.len() < size {
        return Err(NoRecord::BadHeader);
    }
    Ok(size)
}

// The header's size, or why there is none.
#[tactic(auto, using(crate::proofs::Sizes::measured), unfolding(crate::specs::Head::size_of))]
pub fn size_of(s: &[u8], word: u32, flags: u32) -> Result<usize, NoRecord>
    ensures value { result ≡ size_of s.now word flags }
    ensures measured { Measured s.now flags result }
{
    if is_legacy(flags) {
        return held(s, 32);
    }
    if s.len() < 8 {
        return Err(NoRecord::BadHeader);
    }
    let header_type = word / 256 % 16;
    match shape_of(s, header_type) {
        Some(shape) => held(s, shape.size),
        None => Err(NoRecord::BadType(header_type)),
    }
}

// The bytes that the record declares, where its header's size is known: 0 where no record is.
#[tactic(auto, unfolding(crate::specs::Head::head_with, crate::specs::Head::declared_by))]
pub fn declared_in(s: &[u8], word: u32, flags: u32, size: Result<usize, NoRecord>) -> usize
    requires { size ≡ size_of s.now word flags }
    ensures { (result ≡ declared_by (head_with s.now word flags)) × (result ≤ 524280) }
{
    if word == NO_WORD {
        return 0;
    }
    match size {
        Ok(_) => declared_of(s, flags),
        Err(_) => 0,
    }
}

// What a header says of its record, where its sizes are known.
pub fn summary_of(s: &[u8], word: u32, flags: u32, declared: usize, size: usize) -> Summary
    requires { (declared ≡ declared_of s.now flags) × (size_of s.now word flags ≡ Ok size) }
    ensures { result ≡ summary_of s.now word flags }
{
    let origin = origin_of(s, word, flags);
    Summary {
        word,
        flags,
        declared,
        size,
        socket: origin.socket,
        die: origin.die,
    }
}

// What one try finds, where the header's word and flags are known.
#[tactic(auto, using(crate::proofs::Sizes::none_bounds), unfolding(crate::specs::Head::head_with))]
pub fn judge_with(s: &[u8], word: u32, flags: u32) -> Result<Summary, NoRecord>
    ensures value { result ≡ head_with s.now word flags }
    ensures head_bounds { HeadBounds result }
{
    if word == NO_WORD {
        return Err(NoRecord::Ended(ending_of(s)));
    }
    let size = size_of(s, word, flags)?;
    let declared = declared_of(s, flags);
    Ok(summary_of(s, word, flags, declared, size))
}

// What one try finds.
#[tactic(auto, unfolding(crate::specs::Head::head_of))]
pub fn judge(s: &[u8], rules: &[u32]) -> Result<Summary, NoRecord>
    ensures value { result ≡ head_of rules.now s.now }
    ensures head_bounds { HeadBounds result }
{
    let word = word_of(s);
    judge_with(s, word, rules::flags(rules, word))
}
