// A record header as C has it: one flat struct for every layout, and the ways there and back.
#![tactic(auto)]

ghost use Rattle.std.specs.Prelude.{◌≡◌};
ghost use Rattle.c_header.specs.Header.{fields_with, fields_of, header_out, has_complete, sound, fields_in, type_of, taken_of};

pub mod codec;

use header::{Header, HeaderType, Stamp, Status};
use header_judge::RecordSize;
use header_judge::version::Version;

// crashlog_header. The layout's number is the header type, 7 for the legacy server and 8 for the legacy GPU.
#[repr(C)]
#[derive(Clone, Copy)]
pub struct CHeader {
    pub timestamp: u64,
    pub revision: u32,
    pub product_id: u32,
    pub agent_version: u32,
    pub reason: u32,
    pub completion_status: u32,
    pub error_status: u32,
    pub whoami: u32,
    pub misc: u32,
    pub header_type: u16,
    pub record_size: u16,
    pub extended_record_size: u16,
    pub completion_status_size: u16,
    pub record_type: u8,
    pub cldic: u8,
    pub consumed: u8,
    pub layout: u8,
    pub die_id: u8,
    pub socket_id: u8,
    pub collection_complete: u8,
    pub reserved: u8,
    pub completion_statuses: [u32; 127],
}

// What only one layout or two have.
#[derive(Clone, Copy)]
pub struct Extras {
    pub error_status: u32,
    pub whoami: u32,
    pub misc: u32,
    pub die_id: u8,
    pub socket_id: u8,
    pub completion_status_size: u16,
}

// A layout's number, as C has it, and the fields that only some layouts have: 0, or no, where this one lacks them.
#[derive(Clone, Copy)]
pub struct Fields {
    pub layout: u8,
    pub stamp: Stamp,
    pub status: Status,
    pub extras: Extras,
}

const LAST_LAYOUT: u8 = 8;

const NO_STAMP: Stamp = Stamp {
    timestamp: 0,
    agent_version: 0,
    reason: 0,
};

const NO_STATUS: Status = Status {
    completion_status: 0,
    collection_complete: false,
};

const NO_EXTRAS: Extras = Extras {
    error_status: 0,
    whoami: 0,
    misc: 0,
    die_id: 0,
    socket_id: 0,
    completion_status_size: 0,
};

// The status goes by its two fields: copied whole, it is one number of 8 bytes to the compiler, which then copies a decoded header twice.
fn fields_with(layout: u8, stamp: Stamp, status: Status, extras: Extras) -> Fields
    ensures { result ≡ fields_with layout stamp status extras }
{
    Fields {
        layout,
        stamp,
        status: Status {
            completion_status: status.completion_status,
            collection_complete: status.collection_complete,
        },
        extras,
    }
}

fn fields_of(header_type: HeaderType) -> Fields
    ensures { result ≡ fields_of header_type }
{
    match header_type {
        HeaderType::Type0 => fields_with(0, NO_STAMP, NO_STATUS, NO_EXTRAS),
        HeaderType::Type1 => fields_with(1, NO_STAMP, NO_STATUS, NO_EXTRAS),
        HeaderType::Type2 { stamp } => fields_with(2, stamp, NO_STATUS, NO_EXTRAS),
        HeaderType::Type3 { stamp, status } => fields_with(3, stamp, status, NO_EXTRAS),
        HeaderType::Type4 {
            stamp,
            whoami,
            misc,
        } => {
            let extras = Extras {
                whoami,
                misc,
                ..NO_EXTRAS
            };
            fields_with(4, stamp, NO_STATUS, extras)
        }
        HeaderType::Type5 {
            stamp,
            status,
            error_status,
        } => {
            let extras = Extras {
                error_status,
                ..NO_EXTRAS
            };
            fields_with(5, stamp, status, extras)
        }
        HeaderType::Type6 {
            stamp,
            die_id,
            socket_id,
            completion_status_size,
            collection_complete,
        } => {
            let status = Status {
                collection_complete,
                ..NO_STATUS
            };
            let extras = Extras {
                die_id,
                socket_id,
                completion_status_size,
                ..NO_EXTRAS
            };
            fields_with(6, stamp, status, extras)
        }
        HeaderType::Type0LegacyServer {
            stamp,
            die_id,
            socket_id,
            status,
        } => {
            let extras = Extras {
                die_id,
                socket_id,
                ..NO_EXTRAS
            };
            fields_with(7, stamp, status, extras)
        }
        HeaderType::Type0LegacyGpu { stamp, status } => fields_with(8, stamp, status, NO_EXTRAS),
    }
}

// A header for C.
#[tactic(auto, unfolding(crate::specs::Header::header_out))]
pub fn header_out(header: Header) -> CHeader
    ensures { result ≡ header_out header }
{
    let Header {
        version,
        size,
        header_type,
        completion_statuses,
    } = header;
    let Fields {
        layout,
        stamp,
        status,
        extras,
    } = fields_of(header_type);
    CHeader {
        timestamp: stamp.timestamp,
        revision: version.revision,
        product_id: version.product_id,
        agent_version: stamp.agent_version,
        reason: stamp.reason,
        completion_status: status.completion_status,
        error_status: extras.error_status,
        whoami: extras.whoami,
        misc: extras.misc,
        header_type: version.header_type,
        record_size: size.record_size,
        extended_record_size: size.extended_record_size,
        completion_status_size: extras.completion_status_size,
        record_type: version.record_type,
        cldic: u8::from(version.cldic),
        consumed: u8::from(version.consumed),
        layout,
        die_id: extras.die_id,
        socket_id: extras.socket_id,
        collection_complete: u8::from(status.collection_complete),
        reserved: 0,
        completion_statuses,
    }
}

// Whether a layout has a collection that may be complete.
fn has_complete(layout: u8) -> bool
    ensures { result ≡ has_complete layout }
{
    layout == 3 || 4 < layout
}

// Whether the layout is one, and each yes/no that the header has is 1 or 0.
#[tactic(auto, unfolding(crate::specs::Header::sound))]
fn is_sound(c: CHeader) -> bool
    ensures { result ≡ sound c }
{
    c.layout <= LAST_LAYOUT
        && c.cldic <= 1
        && c.consumed <= 1
        && (!has_complete(c.layout) || c.collection_complete <= 1)
}

fn fields_in(c: CHeader) -> Fields
    ensures { result ≡ fields_in c }
{
    Fields {
        layout: c.layout,
        stamp: Stamp {
            timestamp: c.timestamp,
            agent_version: c.agent_version,
            reason: c.reason,
        },
        status: Status {
            completion_status: c.completion_status,
            collection_complete: c.collection_complete == 1,
        },
        extras: Extras {
            error_status: c.error_status,
            whoami: c.whoami,
            misc: c.misc,
            die_id: c.die_id,
            socket_id: c.socket_id,
            completion_status_size: c.completion_status_size,
        },
    }
}

// The header type, where the layout's number is that of one.
fn type_of(fields: Fields) -> Option<HeaderType>
    ensures { result ≡ type_of fields }
{
    let Fields {
        layout,
        stamp,
        status,
        extras,
    } = fields;
    let header_type = match layout {
        0 => HeaderType::Type0,
        1 => HeaderType::Type1,
        2 => HeaderType::Type2 { stamp },
        3 => HeaderType::Type3 { stamp, status },
        4 => HeaderType::Type4 {
            stamp,
            whoami: extras.whoami,
            misc: extras.misc,
        },
        5 => HeaderType::Type5 {
            stamp,
            status,
            error_status: extras.error_status,
        },
        6 => HeaderType::Type6 {
            stamp,
            die_id: extras.die_id,
            socket_id: extras.socket_id,
            completion_status_size: extras.completion_status_size,
            collection_complete: status.collection_complete,
        },
        7 => HeaderType::Type0LegacyServer {
            stamp,
            die_id: extras.die_id,
            socket_id: extras.socket_id,
            status,
        },
        8 => HeaderType::Type0LegacyGpu { stamp, status },
        _ => return None,
    };
    Some(header_type)
}

// A header from C. Fields that the layout lacks, and `reserved`, are not looked at.
#[tactic(auto, unfolding(crate::specs::Header::header_in))]
pub fn header_in(c: CHeader) -> Option<Header>
    ensures { result ≡ taken_of c }
{
    if !is_sound(c) {
        return None;
    }
    let header_type = type_of(fields_in(c))?;
    let completion_statuses = c.completion_statuses;
    Some(Header {
        version: Version {
            revision: c.revision,
            header_type: c.header_type,
            product_id: c.product_id,
            record_type: c.record_type,
            consumed: c.consumed == 1,
            cldic: c.cldic == 1,
        },
        size: RecordSize {
            record_size: c.record_size,
            extended_record_size: c.extended_record_size,
        },
        header_type,
        completion_statuses,
    })
}
