// What the Rust offers on a header. What depends on errata takes the record's flags.
ghost use Rattle.std.specs.Prelude.{◌≡◌};
ghost use Rattle.header.specs.Access.{record_bytes, extended_offset, header_size, socket_of, die_of};

use crate::{Header, HeaderType};

impl Header {
    // The bytes that the record declares.
    pub fn record_size(self, flags: u32) -> usize
        ensures { result ≡ record_bytes self flags }
    {
        header_judge::in_bytes(
            self.size.record_size as usize + self.size.extended_record_size as usize,
            flags,
        )
    }

    // Where the extended record starts, if there is one.
    pub fn extended_record_offset(self, flags: u32) -> Option<usize>
        ensures { result ≡ extended_offset self flags }
    {
        if self.size.extended_record_size == 0 {
            return None;
        }
        Some(header_judge::in_bytes(self.size.record_size as usize, flags))
    }

    pub fn revision(self) -> u32
        ensures { result ≡ self.version.revision }
    {
        self.version.revision
    }

    pub fn product_id(self) -> u32
        ensures { result ≡ self.version.product_id }
    {
        self.version.product_id
    }

    // 0 where the header names no socket.
    pub fn socket_id(self) -> u8
        ensures { result ≡ socket_of self.header_type }
    {
        match self.header_type {
            HeaderType::Type6 { socket_id, .. } | HeaderType::Type0LegacyServer { socket_id, .. } =>
                socket_id,
            _ => 0,
        }
    }

    // The die that generated the record, if the header names one.
    pub fn die_id(self) -> Option<u8>
        ensures { result ≡ die_of self.header_type }
    {
        match self.header_type {
            HeaderType::Type6 { die_id, .. } | HeaderType::Type0LegacyServer { die_id, .. } => {
                Some(die_id)
            }
            _ => None,
        }
    }

    // The bytes of the header itself.
    pub fn header_size(self) -> usize
        ensures { result ≡ header_size self.header_type }
    {
        match self.header_type {
            HeaderType::Type0 | HeaderType::Type1 => 8,
            HeaderType::Type2 { .. } => 24,
            HeaderType::Type3 { .. } => 28,
            HeaderType::Type4 { .. }
            | HeaderType::Type5 { .. }
            | HeaderType::Type0LegacyServer { .. }
            | HeaderType::Type0LegacyGpu { .. } => 32,
            HeaderType::Type6 {
                completion_status_size,
                ..
            } => 28 + 4 * (completion_status_size as usize),
        }
    }
}
