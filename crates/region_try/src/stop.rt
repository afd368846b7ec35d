// Why a region stops (document 02, C-12), the number of each reason, and which of them leave a listing whole (C-14).
ghost use Rattle.std.specs.Prelude.{◌≡◌, Err};
ghost use Rattle.region_try.specs.Stops.{stop_number, stop_ended, stop_by, bad_type_by};
ghost use Rattle.region_try.specs.Whole.{clean_stop};

use answers::stops;
use header_judge::NoRecord;
use header_judge::version::Ending;

// Untold, where the walk is cut off or not made, is number 0 of include/crashlog.h. A bad type is told as a bad header; it stands beside
// its stop, since one value with the type inside goes through memory (docs/SPEED.md, 'What they show').
#[derive(Clone, Copy)]
pub enum Stop {
    Untold,
    EndOfInput,
    ZeroWord,
    DeadbeefWord,
    FewBytes,
    BadHeader,
    BadType,
    SizeZero,
}

// The number of a reason.
impl From<Stop> for u32 {
    ghost from_gives = { λ stop number. number ≡ stop_number stop };

    fn from(stop: Stop) -> u32 {
        match stop {
            Stop::Untold => stops::UNTOLD,
            Stop::EndOfInput => stops::END_OF_INPUT,
            Stop::ZeroWord => stops::ZERO_WORD,
            Stop::DeadbeefWord => stops::DEADBEEF_WORD,
            Stop::FewBytes => stops::FEW_BYTES,
            Stop::BadHeader | Stop::BadType => stops::BAD_HEADER,
            Stop::SizeZero => stops::SIZE_ZERO,
        }
    }
}

// The reason where the records end.
impl From<Ending> for Stop {
    ghost from_gives = { λ ending stop. stop ≡ stop_ended ending };

    fn from(ending: Ending) -> Stop {
        match ending {
            Ending::ZeroWord => Stop::ZeroWord,
            Ending::DeadbeefWord => Stop::DeadbeefWord,
            Ending::FewBytes => Stop::FewBytes,
        }
    }
}

// The reason where no record is, and the bad type, else 0.
pub fn stop_at(why: NoRecord) -> (Stop, u32)
    ensures { (result.0 ≡ stop_by (Err why)) × (result.1 ≡ bad_type_by (Err why)) }
{
    match why {
        NoRecord::Ended(ending) => (ending.into(), 0),
        NoRecord::BadHeader => (Stop::BadHeader, 0),
        NoRecord::BadType(header_type) => (Stop::BadType, header_type),
    }
}

// Is all well where a region stops for a reason: at its input's end, or at a word that ends the records?
pub fn clean_stop(stop: Stop) -> bool
    ensures { result ≡ clean_stop stop }
{
    matches!(stop, Stop::EndOfInput | Stop::ZeroWord | Stop::DeadbeefWord)
}
