// Record headers, the port of header.rs: a header decoded from a slice, and what the Rust offers on one.
#![tactic(auto)]

ghost use Rattle.std.specs.Prelude.{◌≡◌, ◌<◌, IfOk};
ghost use Rattle.header_judge.specs.Head.{Complete};
ghost use Rattle.header.specs.Header.{refusal_of, number_of, type_told, ending_told, judged_of, header_of, decoded_of};

pub mod access;
pub mod fields;

use fields::{fields_of, statuses_of};
use header_judge::version::{Ending, Version};
use header_judge::{NoRecord, RecordSize};

// The fields that most layouts share.
#[derive(Clone, Copy, Debug, PartialEq, Eq)]
pub struct Stamp {
    pub timestamp: u64,
    pub agent_version: u32,
    pub reason: u32,
}

// A status of 31 bits, and above it whether the collection is complete.
#[derive(Clone, Copy, Debug, PartialEq, Eq)]
pub struct Status {
    pub completion_status: u32,
    pub collection_complete: bool,
}

// The fields that a layout has beside version and sizes. The status words of Type6 stand beside this enum.
#[derive(Clone, Copy, Debug, PartialEq, Eq)]
pub enum HeaderType {
    Type0,
    Type1,
    Type2 {
        stamp: Stamp,
    },
    Type3 {
        stamp: Stamp,
        status: Status,
    },
    Type4 {
        stamp: Stamp,
        whoami: u32,
        misc: u32,
    },
    Type5 {
        stamp: Stamp,
        status: Status,
        error_status: u32,
    },
    Type6 {
        stamp: Stamp,
        die_id: u8,
        socket_id: u8,
        completion_status_size: u16,
        collection_complete: bool,
    },
    Type0LegacyServer {
        stamp: Stamp,
        die_id: u8,
        socket_id: u8,
        status: Status,
    },
    Type0LegacyGpu {
        stamp: Stamp,
        status: Status,
    },
}

// Header of a Crash Log record. The status words are those of Type6, and 0 past its count.
#[derive(Clone, Copy, Debug, PartialEq, Eq)]
pub struct Header {
    pub version: Version,
    pub size: RecordSize,
    pub header_type: HeaderType,
    pub completion_statuses: [u32; 127],
}

// Why there is no header.
#[derive(Clone, Copy, Debug, PartialEq, Eq)]
pub enum Refusal {
    Ended(Ending),
    BadRules,
    BadHeader,
    BadType(u32),
}

// A record's version word, its flags, the bytes that it declares and its header's size.
#[derive(Clone, Copy, Debug, PartialEq, Eq)]
pub struct Judged {
    pub word: u32,
    pub flags: u32,
    pub declared: usize,
    pub header_size: usize,
}

// What was judged, with the whole header.
#[derive(Clone, Copy, Debug, PartialEq, Eq)]
pub struct Decoded {
    pub header: Header,
    pub flags: u32,
    pub declared: usize,
    pub header_size: usize,
}

impl From<NoRecord> for Refusal {
    ghost from_gives = { λ why refusal. refusal ≡ refusal_of why };

    fn from(why: NoRecord) -> Refusal {
        match why {
            NoRecord::Ended(ending) => Refusal::Ended(ending),
            NoRecord::BadHeader => Refusal::BadHeader,
            NoRecord::BadType(header_type) => Refusal::BadType(header_type),
        }
    }
}

impl From<Refusal> for u32 {
    ghost from_gives = { λ refusal number. number ≡ number_of refusal };

    fn from(refusal: Refusal) -> u32 {
        match refusal {
            Refusal::Ended(_) => answers::ENDED,
            Refusal::BadRules => answers::BAD_RULES,
            Refusal::BadHeader => answers::BAD_HEADER,
            Refusal::BadType(_) => answers::BAD_TYPE,
        }
    }
}

impl Refusal {
    // The type that a bad type tells; else 0.
    pub fn type_told(self) -> u32
        ensures { result ≡ type_told self }
    {
        match self {
            Refusal::BadType(header_type) => header_type,
            _ => 0,
        }
    }

    // The number of the ending, where the records have ended; else 0.
    pub fn ending_told(self) -> u32
        ensures { result ≡ ending_told self }
    {
        match self {
            Refusal::Ended(ending) => u32::from(ending),
            _ => 0,
        }
    }
}

// The header at the start of a slice of any length, under a rule table: all but its fields.
#[tactic(auto, using(header_judge::proofs::Heads::record_told), unfolding(crate::specs::Header::judged_of, crate::specs::Header::judged_from))]
pub fn judge(s: &[u8], rules: &[u32]) -> Result<Judged, Refusal>
    ensures value { result ≡ judged_of rules.now s.now }
    ensures held { IfOk result (λ j. Complete s.now j.word j.flags) }
{
    if !rules::valid(rules) {
        return Err(Refusal::BadRules);
    }
    let summary = header_judge::judge(s, rules)?;
    Ok(Judged {
        word: summary.word,
        flags: summary.flags,
        declared: summary.declared,
        header_size: summary.size,
    })
}

// The header of a record whose word and flags are known and whose bytes are there.
#[tactic(auto, using(header_judge::proofs::Sizes::size_found, header_judge::proofs::Sizes::size_there))]
pub fn header_of(s: &[u8], word: u32, flags: u32) -> Header
    requires { Complete s.now word flags }
    ensures { result ≡ header_of s.now word flags }
{
    let layout = header_judge::layout_of(word, flags);
    let version = Version::from_u32(word);
    let size = header_judge::sizes_of(s, flags);
    let header_type = fields_of(s, layout);
    let completion_statuses = statuses_of(s, layout);
    Header {
        version,
        size,
        header_type,
        completion_statuses,
    }
}

// The header at the start of a slice of any length, under a rule table.
#[tactic(auto, unfolding(crate::specs::Header::decoded_of))]
pub fn decode(s: &[u8], rules: &[u32]) -> Result<Decoded, Refusal>
    ensures { result ≡ decoded_of rules.now s.now }
{
    let judged = judge(s, rules)?;
    Ok(Decoded {
        header: header_of(s, judged.word, judged.flags),
        flags: judged.flags,
        declared: judged.declared,
        header_size: judged.header_size,
    })
}
