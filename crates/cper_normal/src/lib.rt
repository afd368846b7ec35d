// The normal form of a UEFI Common Platform Error Record: the kept sections, packed, with all that is unknown or absent zero.
#![tactic(auto)]

ghost use Rattle.std.specs.Prelude.{◌≡◌, ◌++◌, ◌≤◌, length, drop};
ghost use Rattle.cper_header.specs.Record.{header_size};
ghost use Rattle.cper_header.specs.Header.{header_of, counted, normal_header, header_bytes};
ghost use Rattle.cper_sections.specs.Sections.{kept_of};
ghost use Rattle.cper_normal.specs.Normal.{bodies_at, packed_in, normalised_of};
ghost use Rattle.cper_normal.specs.Steps.{Measured, Placed, with_section, pack, RoomForKept};

use cper_header::CperHeader;
use cper_sections::Refusal;
use cper_sections::kept::{Kept, Section, descriptor_at};

// The longest output that is written.
const MOST_OUTPUT: u64 = 0xFFFF_FFFF;

// How many sections are kept, and the length of the normal form.
#[derive(Clone, Copy, Debug, PartialEq, Eq)]
struct Extent {
    kept: u16,
    size: u64,
}

// The kept sections, measured.
#[tactic(auto, unfolding(crate::specs::Normal::body_sizes))]
fn measure(cper: &[u8]) -> Extent
    requires { header_size ≤ length cper.now }
    ensures { Measured (kept_of cper.now) result }
{
    let mut kept: u16 = 0;
    let mut bodies: u64 = 0;
    for section in Kept::new(cper) {
        kept += 1;
        bodies += section.size as u64;
    }
    Extent {
        kept,
        size: (descriptor_at(kept as usize) as u64) + bodies,
    }
}

// Writes the header of a record with so many sections and bytes.
fn write_header(cper: &[u8], out: &mut [u8], count: u16, size: u32)
    requires { (header_size ≤ length cper.now) × (header_size ≤ length out.old) }
    ensures { out.new ≡ header_bytes (normal_header (counted count size (header_of cper.now))) ++ drop header_size out.old }
{
    let mut header = CperHeader::from_slice(cper);
    header.section_count = count;
    header.record_length = size;
    header.normalize().to_bytes(out);
}

// Writes a section: its descriptor as the one of a row, its body at an offset.
fn write_section(cper: &[u8], section: Section, out: &mut [u8], row: u16, to: usize)
    requires { Placed cper.now section out.old row to }
    ensures { out.new ≡ with_section cper.now out.old row to section }
{
    let from = descriptor_at(section.index);
    let slot = descriptor_at(row as usize);
    cper_descr::rewrite(&cper[from..], &mut out[slot..], to as u32);
    let start = section.offset as usize;
    let stop = start + (section.size as usize);
    cper_fields::put_bytes(out, to, &cper[start..stop]);
}

// Writes the kept sections, their bodies after the descriptors.
fn write_sections(cper: &[u8], out: &mut [u8], kept: u16)
    requires { RoomForKept cper.now out.old kept }
    ensures { out.new ≡ pack cper.now out.old 0 (bodies_at (kept_of cper.now)) (kept_of cper.now) }
{
    let mut row: u16 = 0;
    let mut to = descriptor_at(kept as usize);
    for section in Kept::new(cper) {
        write_section(cper, section, out, row, to);
        row += 1;
        to += section.size as usize;
    }
}

// Writes the normal form, where its length fits the output and 32 bits; tells the length.
fn pack_kept(cper: &[u8], out: &mut [u8]) -> Result<u32, Refusal>
    requires { header_size ≤ length cper.now }
    ensures { (out.new, result) ≡ packed_in cper.now out.old }
{
    let Extent { kept, size } = measure(cper);
    if (out.len() as u64) < size || MOST_OUTPUT < size {
        return Err(Refusal::OutputShort);
    }
    let size = size as u32;
    write_header(cper, out, kept, size);
    write_sections(cper, out, kept);
    Ok(size)
}

// Writes the normal form: the kept sections, packed, with all that is unknown or absent zero. Tells its length.
pub fn normalise(cper: &[u8], out: &mut [u8]) -> Result<u32, Refusal>
    ensures { (out.new, result) ≡ normalised_of cper.now out.old }
{
    cper_sections::check(cper)?;
    pack_kept(cper, out)
}
