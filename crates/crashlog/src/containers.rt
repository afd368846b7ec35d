// The CPER container for C. Each call returns its answer's number, and writes whole what it tells: 0 where there is nothing to tell.
ghost use Rattle.std.specs.Prelude.{◌≡◌};
ghost use Rattle.cper_sections.specs.Sections.{sections_of, place_of};
ghost use Rattle.cper_normal.specs.Normal.{normalised_of};
ghost use Rattle.crashlog.specs.Containers.{sections_out, section_out, normalised_out};

use cper_sections::{Refusal, number_of};

// The kept sections as rows of three numbers; how many rows were written.
pub fn crashlog_sections(cper: &[u8], table: &mut [u32], rows: &mut u64) -> u32
    ensures { (table.new, rows.new, result) ≡ sections_out (sections_of cper.now table.old) }
{
    let listed = cper_sections::sections(cper, table);
    *rows = match listed {
        Ok(written) | Err(Refusal::SectionsFull(written)) => written as u64,
        Err(_) => 0,
    };
    number_of(listed)
}

// Where the body of one kept section is: its offset and its length.
pub fn crashlog_section(cper: &[u8], row: u32, told: &mut [u64; 2]) -> u32
    ensures { (told.new, result) ≡ section_out (place_of cper.now row) }
{
    let found = cper_sections::section_at(cper, row);
    *told = match found {
        Ok(place) => [place.offset as u64, place.length as u64],
        Err(_) => [0, 0],
    };
    number_of(found)
}

// The normal form; how many bytes were written.
pub fn crashlog_normalise(cper: &[u8], out: &mut [u8], length: &mut u64) -> u32
    ensures { (out.new, length.new, result) ≡ normalised_out (normalised_of cper.now out.old) }
{
    let normalised = cper_normal::normalise(cper, out);
    *length = normalised.unwrap_or(0) as u64;
    number_of(normalised)
}
