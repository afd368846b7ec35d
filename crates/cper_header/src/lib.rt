// The CPER record header, UEFI N.2.1.
#![tactic(auto)]

ghost use Rattle.std.specs.Prelude.{◌≡◌, ◌++◌, ◌+◌, ◌≤◌, length, drop};
ghost use Rattle.cper_header.specs.Record.{header_size, is_cper, count_of};
ghost use Rattle.cper_header.specs.Header.{timestamp_of, timestamp_bytes, header_of, normal_header, header_bytes};

use basics::has_bit;
use cper_fields::{Severity, bytes_at, number_if, put_bytes, put_field};
use le::LittleEndian;

pub const RECORD_HEADER_SIZE: usize = 128;

const SIGNATURE: [u8; 4] = *b"CPER";

const SIGNATURE_END: u32 = 0xFFFF_FFFF;

// Where the fields stand.
const REVISION_AT: usize = 4;

const SIGNATURE_END_AT: usize = 6;

const SECTION_COUNT_AT: usize = 10;

const ERROR_SEVERITY_AT: usize = 12;

const VALIDATION_BITS_AT: usize = 16;

const RECORD_LENGTH_AT: usize = 20;

const TIMESTAMP_AT: usize = 24;

const PLATFORM_ID_AT: usize = 32;

const PARTITION_ID_AT: usize = 48;

const CREATOR_ID_AT: usize = 64;

const NOTIFICATION_TYPE_AT: usize = 80;

const RECORD_ID_AT: usize = 96;

const FLAGS_AT: usize = 104;

const PERSISTENCE_INFORMATION_AT: usize = 108;

const RESERVED_AT: usize = 116;

// The validation bits.
const PLATFORM_ID: u32 = 1;

const TIMESTAMP: u32 = 2;

const PARTITION_ID: u32 = 4;

// Whether a slice starts with a whole header that has both signatures.
pub fn is_cper(s: &[u8]) -> bool
    ensures { result ≡ is_cper s.now }
{
    if s.len() < RECORD_HEADER_SIZE {
        return false;
    }
    s.starts_with(&SIGNATURE) && u32::read_le(s, SIGNATURE_END_AT) == SIGNATURE_END
}

// The number of section descriptors that a header tells.
pub fn section_count(s: &[u8]) -> u16
    requires { header_size ≤ length s.now }
    ensures { result ≡ count_of s.now }
{
    u16::read_le(s, SECTION_COUNT_AT)
}

#[derive(Clone, Copy, Debug, PartialEq, Eq)]
pub struct Timestamp {
    pub seconds: u8,
    pub minutes: u8,
    pub hours: u8,
    pub precise: bool,
    pub day: u8,
    pub month: u8,
    pub year: u8,
    pub century: u8,
}

impl Timestamp {
    // The timestamp at an offset of a slice.
    fn from_slice(s: &[u8], at: usize) -> Timestamp
        requires { at + 8 ≤ length s.now }
        ensures { result ≡ timestamp_of s.now at }
    {
        Timestamp {
            seconds: s[at],
            minutes: s[at + 1],
            hours: s[at + 2],
            precise: s[at + 3] % 2 == 1,
            day: s[at + 4],
            month: s[at + 5],
            year: s[at + 6],
            century: s[at + 7],
        }
    }

    fn to_bytes(self) -> [u8; 8]
        ensures { result ≡ timestamp_bytes self }
    {
        [
            self.seconds,
            self.minutes,
            self.hours,
            u8::from(self.precise),
            self.day,
            self.month,
            self.year,
            self.century,
        ]
    }
}

#[derive(Clone, Copy, Debug, PartialEq, Eq)]
pub struct CperHeader {
    pub revision: u16,
    pub section_count: u16,
    pub error_severity: Severity,
    pub validation_bits: u32,
    pub record_length: u32,
    pub timestamp: Option<Timestamp>,
    pub platform_id: Option<[u8; 16]>,
    pub partition_id: Option<[u8; 16]>,
    pub creator_id: [u8; 16],
    pub notification_type: [u8; 16],
    pub record_id: u64,
    pub flags: u32,
    pub persistence_information: u64,
}

impl CperHeader {
    // The header that a slice starts with; its signatures are not looked at.
    #[tactic(auto, unfolding(crate::specs::Header::header_of))]
    pub fn from_slice(s: &[u8]) -> CperHeader
        requires { header_size ≤ length s.now }
        ensures { result ≡ header_of s.now }
    {
        let validation_bits = u32::read_le(s, VALIDATION_BITS_AT);
        let timestamp = Timestamp::from_slice(s, TIMESTAMP_AT);
        let platform_id = bytes_at(s, PLATFORM_ID_AT);
        let partition_id = bytes_at(s, PARTITION_ID_AT);
        CperHeader {
            revision: u16::read_le(s, REVISION_AT),
            section_count: section_count(s),
            error_severity: u32::read_le(s, ERROR_SEVERITY_AT).into(),
            validation_bits,
            record_length: u32::read_le(s, RECORD_LENGTH_AT),
            timestamp: has_bit(validation_bits, TIMESTAMP).then_some(timestamp),
            platform_id: has_bit(validation_bits, PLATFORM_ID).then_some(platform_id),
            partition_id: has_bit(validation_bits, PARTITION_ID).then_some(partition_id),
            creator_id: bytes_at(s, CREATOR_ID_AT),
            notification_type: bytes_at(s, NOTIFICATION_TYPE_AT),
            record_id: u64::read_le(s, RECORD_ID_AT),
            flags: u32::read_le(s, FLAGS_AT),
            persistence_information: u64::read_le(s, PERSISTENCE_INFORMATION_AT),
        }
    }

    // The validation number tells the fields that are present, and nothing else.
    pub fn normalize(mut self) -> CperHeader
        ensures { result ≡ normal_header self }
    {
        self.validation_bits = number_if(self.timestamp.is_some(), TIMESTAMP)
            + number_if(self.platform_id.is_some(), PLATFORM_ID)
            + number_if(self.partition_id.is_some(), PARTITION_ID);
        self
    }

    // Writes the header, with both signatures, to the output's first 128 bytes.
    pub fn to_bytes(self, out: &mut [u8])
        requires { header_size ≤ length out.old }
        ensures { out.new ≡ header_bytes self ++ drop header_size out.old }
    {
        put_bytes(out, 0, &SIGNATURE);
        self.revision.write_le(out, REVISION_AT);
        SIGNATURE_END.write_le(out, SIGNATURE_END_AT);
        self.section_count.write_le(out, SECTION_COUNT_AT);
        u32::from(self.error_severity).write_le(out, ERROR_SEVERITY_AT);
        self.validation_bits.write_le(out, VALIDATION_BITS_AT);
        self.record_length.write_le(out, RECORD_LENGTH_AT);
        put_field(out, TIMESTAMP_AT, self.timestamp.map(Timestamp::to_bytes));
        put_field(out, PLATFORM_ID_AT, self.platform_id);
        put_field(out, PARTITION_ID_AT, self.partition_id);
        put_bytes(out, CREATOR_ID_AT, &self.creator_id);
        put_bytes(out, NOTIFICATION_TYPE_AT, &self.notification_type);
        self.record_id.write_le(out, RECORD_ID_AT);
        self.flags.write_le(out, FLAGS_AT);
        self.persistence_information
            .write_le(out, PERSISTENCE_INFORMATION_AT);
        put_bytes(out, RESERVED_AT, &[0; 12]);
    }
}
