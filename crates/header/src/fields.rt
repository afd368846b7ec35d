// The fields of each layout, read where document 01 has them, and the status words.
#![tactic(auto, unfolding(crate::specs::Header::numbers_of, layout::specs::Fields::read_all))]

ghost use Rattle.std.specs.Prelude.{◌≡◌, ◌+◌, ◌*◌, ◌≤◌, length};
ghost use Rattle.le.specs.Le.{le};
ghost use Rattle.layout.specs.Fields.{read_all};
ghost use Rattle.layout.specs.Runs.{cells};
ghost use Rattle.header_judge.specs.Head.{size_for, count_of};
ghost use Rattle.header_judge.specs.declared.Layout.TheVariants.{Two, Three, Four, Five, Six, LegacyServer, LegacyGpu};
ghost use Rattle.header.specs.Layouts.{stamp, status_of, type_from, statuses_from, padded};
ghost use Rattle.header.specs.Header.{numbers_of};

use crate::{HeaderType, Stamp, Status};
use header_judge::Layout;
use header_judge::origin::server_die;
use le::LittleEndian;

// The agent version and the reason lie elsewhere in a legacy layout.
fn stamp_of(s: &[u8], agent_at: usize, reason_at: usize) -> Stamp
    requires { (24 ≤ length s.now) × (agent_at ≤ 20) × (reason_at ≤ 20) }
    ensures { result ≡ stamp (le 8 s.now 8) (le 4 s.now agent_at) (le 4 s.now reason_at) }
{
    Stamp {
        timestamp: u64::read_le(s, 8),
        agent_version: u32::read_le(s, agent_at),
        reason: u32::read_le(s, reason_at),
    }
}

fn status_at(s: &[u8], at: usize) -> Status
    requires { at + 4 ≤ length s.now }
    ensures { result ≡ status_of (le 4 s.now at) }
{
    let word = u32::read_le(s, at);
    Status {
        completion_status: word % 2147483648,
        collection_complete: word / 2147483648 % 2 == 1,
    }
}

fn type2(s: &[u8]) -> HeaderType
    requires { 24 ≤ length s.now }
    ensures { result ≡ type_from Two (numbers_of s.now Two) }
{
    HeaderType::Type2 {
        stamp: stamp_of(s, 16, 20),
    }
}

fn type3(s: &[u8]) -> HeaderType
    requires { 28 ≤ length s.now }
    ensures { result ≡ type_from Three (numbers_of s.now Three) }
{
    HeaderType::Type3 {
        stamp: stamp_of(s, 16, 20),
        status: status_at(s, 24),
    }
}

fn type4(s: &[u8]) -> HeaderType
    requires { 32 ≤ length s.now }
    ensures { result ≡ type_from Four (numbers_of s.now Four) }
{
    HeaderType::Type4 {
        stamp: stamp_of(s, 16, 20),
        whoami: u32::read_le(s, 24),
        misc: u32::read_le(s, 28),
    }
}

fn type5(s: &[u8]) -> HeaderType
    requires { 32 ≤ length s.now }
    ensures { result ≡ type_from Five (numbers_of s.now Five) }
{
    HeaderType::Type5 {
        stamp: stamp_of(s, 16, 20),
        status: status_at(s, 24),
        error_status: u32::read_le(s, 28),
    }
}

fn type6(s: &[u8]) -> HeaderType
    requires { 28 ≤ length s.now }
    ensures { result ≡ type_from Six (numbers_of s.now Six) }
{
    let half = u16::read_le(s, 26);
    HeaderType::Type6 {
        stamp: stamp_of(s, 16, 20),
        die_id: u8::read_le(s, 24),
        socket_id: u8::read_le(s, 25),
        completion_status_size: half % 128,
        collection_complete: half / 32768 % 2 == 1,
    }
}

fn type0_legacy_server(s: &[u8]) -> HeaderType
    requires { 32 ≤ length s.now }
    ensures { result ≡ type_from LegacyServer (numbers_of s.now LegacyServer) }
{
    HeaderType::Type0LegacyServer {
        stamp: stamp_of(s, 20, 4),
        die_id: server_die(u32::read_le(s, 0) % 256),
        socket_id: u8::read_le(s, 24),
        status: status_at(s, 28),
    }
}

fn type0_legacy_gpu(s: &[u8]) -> HeaderType
    requires { 32 ≤ length s.now }
    ensures { result ≡ type_from LegacyGpu (numbers_of s.now LegacyGpu) }
{
    HeaderType::Type0LegacyGpu {
        stamp: stamp_of(s, 20, 4),
        status: status_at(s, 28),
    }
}

// The fields of a layout whose bytes are there.
pub fn fields_of(s: &[u8], layout: Layout) -> HeaderType
    requires { size_for layout (count_of s.now) ≤ length s.now }
    ensures { result ≡ type_from layout (numbers_of s.now layout) }
{
    match layout {
        Layout::Zero => HeaderType::Type0,
        Layout::One => HeaderType::Type1,
        Layout::Two => type2(s),
        Layout::Three => type3(s),
        Layout::Four => type4(s),
        Layout::Five => type5(s),
        Layout::Six => type6(s),
        Layout::LegacyServer => type0_legacy_server(s),
        Layout::LegacyGpu => type0_legacy_gpu(s),
        Layout::Bad => HeaderType::Type0,
    }
}

// So many status words, and zeros.
#[tactic(auto, using(crate::proofs::Statuses::words_more), unfolding(layout::specs::Fields::read_all))]
fn words_of(s: &[u8], count: usize) -> [u32; 127]
    requires { (count ≤ 127) × (28 + 4 * count ≤ length s.now) }
    ensures { result ≡ padded (read_all (cells 28 4 count) s.now) }
{
    let mut words = [0u32; 127];
    for i in 0..count {
        words[i] = u32::read_le(s, 28 + 4 * i);
    }
    words
}

// The status words of a layout whose bytes are there.
pub fn statuses_of(s: &[u8], layout: Layout) -> [u32; 127]
    requires { size_for layout (count_of s.now) ≤ length s.now }
    ensures { result ≡ statuses_from (numbers_of s.now layout) }
{
    if let Layout::Six = layout {
        return words_of(s, header_judge::count_of(s));
    }
    [0u32; 127]
}
