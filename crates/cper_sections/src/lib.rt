// The kept sections of a UEFI Common Platform Error Record: as a table, and one of them as a part of the input.
#![tactic(auto)]

ghost use Rattle.std.specs.Prelude.{◌≡◌, ◌+◌, ◌*◌, ◌^◌, ◌≤◌, ◌<◌, length};
ghost use Rattle.std.proofs.lemmas.List.Edits.{sets};
ghost use Rattle.answers.specs.Numbers.{most_bytes};
ghost use Rattle.cper_header.specs.Record.{header_size};
ghost use Rattle.cper_sections.specs.Answers.{number_of, check_of};
ghost use Rattle.cper_sections.specs.Sections.{kept_of, section_numbers, row_of, listed_in, sections_of, place_in, place_of, part_at};

pub mod kept;

use kept::{Kept, Section};

// The numbers of a row in the section table: descriptor index, body offset, body length.
const SECTION_NUMBERS: usize = 3;

// Why a call on a CPER refuses. With 'sections full' the rows that there is room for are written, and their number is told.
#[derive(Clone, Copy, Debug, PartialEq, Eq)]
pub enum Refusal {
    TooLong,
    NotCper,
    SectionsFull(u32),
    OutputShort,
    NoSection,
}

// Where one kept section's body is.
#[derive(Clone, Copy, Debug, PartialEq, Eq)]
pub struct Place {
    pub offset: u32,
    pub length: u32,
}

// The number of a call's answer: of the whole Result, since a conversion of a refusal would leave the 0 of `Ok` to each caller.
pub fn number_of<T: Copy>(told: Result<T, Refusal>) -> u32
    ensures { result ≡ number_of told }
{
    match told {
        Ok(_) => answers::DONE,
        Err(Refusal::TooLong) => answers::TOO_LONG,
        Err(Refusal::NotCper) => answers::NOT_CPER,
        Err(Refusal::SectionsFull(_)) => answers::SECTIONS_FULL,
        Err(Refusal::OutputShort) => answers::OUTPUT_SHORT,
        Err(Refusal::NoSection) => answers::NONE,
    }
}

// The checks that come before any work on a CPER, in their order.
pub fn check(cper: &[u8]) -> Result<(), Refusal>
    ensures { result ≡ check_of cper.now }
{
    if answers::MOST_BYTES < cper.len() {
        return Err(Refusal::TooLong);
    }
    if !cper_header::is_cper(cper) {
        return Err(Refusal::NotCper);
    }
    Ok(())
}

// Writes a section's row.
fn put_row(table: &mut [u32], row: usize, section: Section)
    requires { (section.index < 2 ^ 32) × (section_numbers * row + section_numbers ≤ length table.old) }
    ensures { table.new ≡ sets table.old (section_numbers * row) (row_of section) }
{
    let at = SECTION_NUMBERS * row;
    table[at] = section.index as u32;
    table[at + 1] = section.offset;
    table[at + 2] = section.size;
}

// Lists the kept sections while rows are free.
fn list_kept(cper: &[u8], table: &mut [u32]) -> Result<u32, Refusal>
    requires { (header_size ≤ length cper.now) × (length cper.now ≤ most_bytes) }
    ensures { (table.new, result) ≡ listed_in table.old (kept_of cper.now) }
{
    let room = table.len() / SECTION_NUMBERS;
    let mut rows: usize = 0;
    for section in Kept::new(cper) {
        if room <= rows {
            return Err(Refusal::SectionsFull(rows as u32));
        }
        put_row(table, rows, section);
        rows += 1;
    }
    Ok(rows as u32)
}

// The kept sections, as rows of descriptor index, body offset and body length; how many rows are written.
pub fn sections(cper: &[u8], table: &mut [u32]) -> Result<u32, Refusal>
    ensures { (table.new, result) ≡ sections_of cper.now table.old }
{
    check(cper)?;
    list_kept(cper, table)
}

// Finds the kept section with a row number.
fn find_kept(cper: &[u8], row: u32) -> Result<Place, Refusal>
    requires { header_size ≤ length cper.now }
    ensures { result ≡ place_in (kept_of cper.now) row }
{
    let Some(section) = Kept::new(cper).nth(row as usize) else {
        return Err(Refusal::NoSection);
    };
    Ok(Place {
        offset: section.offset,
        length: section.size,
    })
}

// Where the body of one kept section is; rows count the kept sections from 0.
pub fn section_at(cper: &[u8], row: u32) -> Result<Place, Refusal>
    ensures { result ≡ place_of cper.now row }
{
    check(cper)?;
    find_kept(cper, row)
}

// The body of one kept section, as a part of the input; empty where `section_at` refuses.
pub fn section<'a>(cper: &'a [u8], row: u32) -> &'a [u8]
    ensures { result.now ≡ part_at cper.now (place_of cper.now row) }
{
    let Ok(place) = section_at(cper, row) else {
        return &[];
    };
    let start = place.offset as usize;
    let stop = start + (place.length as usize);
    &cper[start..stop]
}
