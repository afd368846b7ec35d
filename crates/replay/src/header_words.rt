// A header as C's struct lies in memory: 14 words of 32 bits, some of them two or four fields together, and the 127 status words.
use crate::element::{left, nth_or_zero, part};
use c_header::CHeader;
use std::array;

// The bytes of the struct, and of the words before the status words.
pub const BYTES: usize = 564;

const FIXED_BYTES: usize = 56;

fn long(low: u32, high: u32) -> u64 {
    u64::from(low) + u64::from(high) * 4294967296
}

// The header that lies in some bytes; a word that is past their end, whole or in part, is 0.
pub fn header_in(bytes: &[u8]) -> CHeader {
    let bytes = &bytes[..bytes.len() / 4 * 4];
    CHeader {
        timestamp: long(nth_or_zero(bytes, 0), nth_or_zero(bytes, 1)),
        revision: nth_or_zero(bytes, 2),
        product_id: nth_or_zero(bytes, 3),
        agent_version: nth_or_zero(bytes, 4),
        reason: nth_or_zero(bytes, 5),
        completion_status: nth_or_zero(bytes, 6),
        error_status: nth_or_zero(bytes, 7),
        whoami: nth_or_zero(bytes, 8),
        misc: nth_or_zero(bytes, 9),
        header_type: nth_or_zero(bytes, 20),
        record_size: nth_or_zero(bytes, 21),
        extended_record_size: nth_or_zero(bytes, 22),
        completion_status_size: nth_or_zero(bytes, 23),
        record_type: nth_or_zero(bytes, 48),
        cldic: nth_or_zero(bytes, 49),
        consumed: nth_or_zero(bytes, 50),
        layout: nth_or_zero(bytes, 51),
        die_id: nth_or_zero(bytes, 52),
        socket_id: nth_or_zero(bytes, 53),
        collection_complete: nth_or_zero(bytes, 54),
        reserved: nth_or_zero(bytes, 55),
        completion_statuses: array::from_fn(|i| nth_or_zero(bytes, 14 + i)),
    }
}

fn two(low: u16, high: u16) -> u32 {
    u32::from(low) + u32::from(high) * 65536
}

// The words before the status words.
fn fixed_words(h: &CHeader) -> [u32; 14] {
    [
        (h.timestamp % 4294967296) as u32,
        (h.timestamp / 4294967296) as u32,
        h.revision,
        h.product_id,
        h.agent_version,
        h.reason,
        h.completion_status,
        h.error_status,
        h.whoami,
        h.misc,
        two(h.header_type, h.record_size),
        two(h.extended_record_size, h.completion_status_size),
        u32::from_le_bytes([h.record_type, h.cldic, h.consumed, h.layout]),
        u32::from_le_bytes([h.die_id, h.socket_id, h.collection_complete, h.reserved]),
    ]
}

// Whether a header starts with the bytes wanted and is else untouched.
pub fn leaves_header(header: &CHeader, wanted: &[u8]) -> bool {
    left(&fixed_words(header), part(wanted, 0, FIXED_BYTES))
        & left(
            &header.completion_statuses,
            part(wanted, FIXED_BYTES, BYTES),
        )
}
