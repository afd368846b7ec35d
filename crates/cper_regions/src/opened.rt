// Which sections of a CPER are opened: Firmware Error Record sections (UEFI N.2.10) with the record identifier asked for.
ghost use Rattle.std.specs.Prelude.{◌≡◌, ◌+◌, ◌≤◌, length, drop};
ghost use Rattle.cper_header.specs.Record.{starts_with};
ghost use Rattle.cper_regions.specs.Regions.{is_opened};
ghost use Rattle.cper_sections.specs.Steps.{Within};

use cper_sections::kept::{Section, descriptor_at};

// 81212a96-09ed-4996-9471-8d729c8e69ed, as a file has it.
const FIRMWARE_ERROR_RECORD: [u8; 16] =
    *b"\x96\x2A\x21\x81\xED\x09\x96\x49\x94\x71\x8D\x72\x9C\x8E\x69\xED";

// The bytes of the header that such a section starts with, and where the identifier stands in it.
pub(crate) const SECTION_HEADER_SIZE: usize = 32;

const RECORD_ID_AT: usize = 16;

// Whether the bytes from an offset on start with a GUID's. All sixteen are compared, so that it can be one step.
fn starts_with(s: &[u8], at: usize, guid: &[u8; 16]) -> bool
    requires { at + 16 ≤ length s.now }
    ensures { result ≡ starts_with guid.now (drop at s.now) }
{
    s[at..at + 16]
        .iter()
        .zip(guid)
        .fold(true, |same, (byte, wanted)| same & (*byte == *wanted))
}

// Whether a kept section is opened.
pub(crate) fn is_opened(cper: &[u8], record_id: &[u8; 16], section: Section) -> bool
    requires { Within cper.now section }
    ensures { result ≡ is_opened cper.now record_id.now section }
{
    let type_at = descriptor_at(section.index) + cper_descr::SECTION_TYPE_AT;
    if !starts_with(cper, type_at, &FIRMWARE_ERROR_RECORD) {
        return false;
    }
    if (section.size as usize) < SECTION_HEADER_SIZE {
        return false;
    }
    let start = section.offset as usize;
    let end = start + (section.size as usize);
    starts_with(&cper[start..end], RECORD_ID_AT, record_id)
}
