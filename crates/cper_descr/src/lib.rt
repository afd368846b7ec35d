// The CPER section descriptor, UEFI N.2.2.
#![tactic(auto)]

ghost use Rattle.std.specs.Prelude.{◌≡◌, ◌++◌, ◌≤◌, length, drop};
ghost use Rattle.cper_descr.specs.Descriptor.{descriptor_size, descriptor_of, moved, normal_descriptor, start_size, start_bytes, descriptor_bytes};

use basics::has_bit;
use cper_fields::{Severity, bytes_at, number_if, put_bytes, put_field};
use le::LittleEndian;

pub const SECTION_DESCRIPTOR_SIZE: usize = 72;

// Where the fields stand.
pub const SECTION_OFFSET_AT: usize = 0;

pub const SECTION_LENGTH_AT: usize = 4;

const REVISION_AT: usize = 8;

const VALIDATION_BITS_AT: usize = 10;

const RESERVED_AT: usize = 11;

const FLAGS_AT: usize = 12;

pub const SECTION_TYPE_AT: usize = 16;

const FRU_ID_AT: usize = 32;

const SECTION_SEVERITY_AT: usize = 48;

const FRU_TEXT_AT: usize = 52;

// The validation bits.
const FRU_ID: u32 = 1;

const FRU_TEXT: u32 = 2;

// The remainder by it has the known bits alone.
const KNOWN_BITS: u8 = 4;

#[derive(Clone, Copy, Debug, PartialEq, Eq)]
pub struct CperSectionDescriptor {
    pub section_offset: u32,
    pub section_length: u32,
    pub revision: u16,
    pub validation_bits: u8,
    pub flags: u32,
    pub section_type: [u8; 16],
    pub fru_id: Option<[u8; 16]>,
    pub section_severity: Severity,
    pub fru_text: Option<[u8; 20]>,
}

impl CperSectionDescriptor {
    // The descriptor that a slice starts with.
    #[tactic(auto, unfolding(crate::specs::Descriptor::descriptor_of))]
    pub fn from_slice(s: &[u8]) -> CperSectionDescriptor
        requires { descriptor_size ≤ length s.now }
        ensures { result ≡ descriptor_of s.now }
    {
        let validation_bits = u8::read_le(s, VALIDATION_BITS_AT);
        CperSectionDescriptor {
            section_offset: u32::read_le(s, SECTION_OFFSET_AT),
            section_length: u32::read_le(s, SECTION_LENGTH_AT),
            revision: u16::read_le(s, REVISION_AT),
            validation_bits,
            flags: u32::read_le(s, FLAGS_AT),
            section_type: bytes_at(s, SECTION_TYPE_AT),
            fru_id: has_bit(validation_bits as u32, FRU_ID).then_some(bytes_at(s, FRU_ID_AT)),
            section_severity: u32::read_le(s, SECTION_SEVERITY_AT).into(),
            fru_text: has_bit(validation_bits as u32, FRU_TEXT).then_some(bytes_at(s, FRU_TEXT_AT)),
        }
    }

    // The validation number tells the fields that are present, and nothing else.
    pub fn normalize(mut self) -> CperSectionDescriptor
        ensures { result ≡ normal_descriptor self }
    {
        let fru_id = number_if(self.fru_id.is_some(), FRU_ID);
        let fru_text = number_if(self.fru_text.is_some(), FRU_TEXT);
        self.validation_bits = (fru_id + fru_text) as u8;
        self
    }

    // Writes the descriptor to the output's first 72 bytes.
    pub fn to_bytes(self, out: &mut [u8])
        requires { descriptor_size ≤ length out.old }
        ensures { out.new ≡ descriptor_bytes self ++ drop descriptor_size out.old }
    {
        put_start(
            out,
            self.section_offset,
            self.section_length,
            self.revision,
            self.validation_bits,
            self.flags,
        );
        put_bytes(out, SECTION_TYPE_AT, &self.section_type);
        put_field(out, FRU_ID_AT, self.fru_id);
        u32::from(self.section_severity).write_le(out, SECTION_SEVERITY_AT);
        put_field(out, FRU_TEXT_AT, self.fru_text);
    }
}

// Writes the numbers that a descriptor starts with.
fn put_start(out: &mut [u8], offset: u32, size: u32, revision: u16, bits: u8, flags: u32)
    requires { descriptor_size ≤ length out.old }
    ensures { out.new ≡ start_bytes offset size revision bits flags ++ drop start_size out.old }
{
    offset.write_le(out, SECTION_OFFSET_AT);
    size.write_le(out, SECTION_LENGTH_AT);
    revision.write_le(out, REVISION_AT);
    bits.write_le(out, VALIDATION_BITS_AT);
    0u8.write_le(out, RESERVED_AT);
    flags.write_le(out, FLAGS_AT);
}

// Writes the normal form of the descriptor that a slice starts with, for a body at an offset: read, moved, normalized and written in one go.
// By `from_slice`, `normalize` and `to_bytes` a short section takes a fifth longer.
pub fn rewrite(s: &[u8], out: &mut [u8], offset: u32)
    requires { (descriptor_size ≤ length s.now) × (descriptor_size ≤ length out.old) }
    ensures { out.new ≡ descriptor_bytes (normal_descriptor (moved offset (descriptor_of s.now))) ++ drop descriptor_size out.old }
{
    let bits = u8::read_le(s, VALIDATION_BITS_AT);
    put_start(
        out,
        offset,
        u32::read_le(s, SECTION_LENGTH_AT),
        u16::read_le(s, REVISION_AT),
        bits % KNOWN_BITS,
        u32::read_le(s, FLAGS_AT),
    );
    put_bytes(out, SECTION_TYPE_AT, &bytes_at::<16>(s, SECTION_TYPE_AT));
    let fru_id = has_bit(bits as u32, FRU_ID).then_some(bytes_at::<16>(s, FRU_ID_AT));
    put_field(out, FRU_ID_AT, fru_id);
    let severity = Severity::from(u32::read_le(s, SECTION_SEVERITY_AT));
    u32::from(severity).write_le(out, SECTION_SEVERITY_AT);
    let fru_text = has_bit(bits as u32, FRU_TEXT).then_some(bytes_at::<20>(s, FRU_TEXT_AT));
    put_field(out, FRU_TEXT_AT, fru_text);
}
