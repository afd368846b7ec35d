// The table of names.
ghost use Rattle.std.specs.Prelude.{◌≡◌, map};
ghost use Rattle.std.specs.Str.{IsUtf8};
ghost use Rattle.names.specs.Names.{named};
ghost use Rattle.names.specs.Steps.{held, before_zero};

use std::str;

// The record types that have a name, in ascending order, each beside it. A name has zeros after it, up to 16 bytes: a table of
// references would be one of pointers, which a linker has to place and a loader may have to move.
const TABLE: [(u32, [u8; 16]); 13] = [
    (0x01, *b"PMC\0\0\0\0\0\0\0\0\0\0\0\0\0"),
    (0x02, *b"PMC_FW_Trace\0\0\0\0"),
    (0x03, *b"Punit\0\0\0\0\0\0\0\0\0\0\0"),
    (0x04, *b"PCORE\0\0\0\0\0\0\0\0\0\0\0"),
    (0x06, *b"ECORE\0\0\0\0\0\0\0\0\0\0\0"),
    (0x08, *b"UNCORE\0\0\0\0\0\0\0\0\0\0"),
    (0x11, *b"PMC_TRACE\0\0\0\0\0\0\0"),
    (0x16, *b"TCSS\0\0\0\0\0\0\0\0\0\0\0\0"),
    (0x17, *b"PMC_RST\0\0\0\0\0\0\0\0\0"),
    (0x19, *b"PCODE\0\0\0\0\0\0\0\0\0\0\0"),
    (0x1c, *b"CRASHLOG_AGENT\0\0"),
    (0x3d, *b"BOX\0\0\0\0\0\0\0\0\0\0\0\0\0"),
    (0x3e, *b"MCA\0\0\0\0\0\0\0\0\0\0\0\0\0"),
];

// The whole table.
#[tactic(auto, unfolding(crate::specs::Names::named, crate::specs::Names::padded))]
pub(crate) fn entries() -> &'static [(u32, [u8; 16]); 13]
    ensures { result.now ≡ map held named }
{
    &TABLE
}

// The text before the zeros.
pub(crate) fn text(padded: &[u8; 16]) -> &str
    ensures { IsUtf8 (before_zero padded.now) → result.now ≡ before_zero padded.now }
{
    let len = padded
        .iter()
        .position(|byte| *byte == 0)
        .unwrap_or(padded.len());
    str::from_utf8(&padded[..len]).unwrap_or_default()
}
