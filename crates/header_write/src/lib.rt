// A header whose fields fit, written into an output that has room, by its layout.
#![tactic(auto)]

ghost use Rattle.std.specs.Prelude.{◌≡◌};
ghost use Rattle.header_judge.specs.Version.{word_from};
ghost use Rattle.header_write.specs.Steps.{Writable, written};

pub mod layouts;

use header::{Header, HeaderType};
use layouts::{Opening, put_sized};

pub fn put_header(out: &mut [u8], header: Header)
    requires { Writable header out.old }
    ensures { out.new ≡ written (word_from header.version) header.size header.header_type header.completion_statuses out.old }
{
    let Header {
        version,
        size,
        header_type,
        completion_statuses,
    } = header;
    let word = version.as_u32();
    match header_type {
        HeaderType::Type0 | HeaderType::Type1 => put_sized(out, word, size),
        HeaderType::Type2 { stamp } => Opening { word, size, stamp }.put_type2(out),
        HeaderType::Type3 { stamp, status } => {
            Opening { word, size, stamp }.put_type3(out, status)
        }
        HeaderType::Type4 {
            stamp,
            whoami,
            misc,
        } => Opening { word, size, stamp }.put_type4(out, whoami, misc),
        HeaderType::Type5 {
            stamp,
            status,
            error_status,
        } => Opening { word, size, stamp }.put_type5(out, status, error_status),
        HeaderType::Type6 {
            stamp,
            die_id,
            socket_id,
            completion_status_size,
            collection_complete,
        } => Opening { word, size, stamp }.put_type6(
            out,
            die_id,
            socket_id,
            completion_status_size,
            collection_complete,
            completion_statuses,
        ),
        HeaderType::Type0LegacyServer {
            stamp,
            die_id,
            socket_id,
            status,
        } => Opening { word, size, stamp }.put_type0_legacy_server(out, die_id, socket_id, status),
        HeaderType::Type0LegacyGpu { stamp, status } => {
            Opening { word, size, stamp }.put_type0_legacy_gpu(out, status)
        }
    }
}
