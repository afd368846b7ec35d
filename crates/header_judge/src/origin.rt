// The socket and the die that a header names (document 02, C-17).
ghost use Rattle.std.specs.Prelude.{◌≡◌, ◌<◌};
ghost use Rattle.header_judge.specs.Head.{Complete, server_die, origin_of};

use crate::{Layout, layout_of};
use le::LittleEndian;

// A header that names no socket has socket 0, and one that names no die NO_DIE.
#[derive(Clone, Copy, Debug, PartialEq, Eq)]
pub struct Origin {
    pub socket: u32,
    pub die: u32,
}

// The C interface has this number in a row's `die`, since 0 is a die.
pub const NO_DIE: u32 = 4294967295;

// The die that a legacy server's revision encodes.
pub fn server_die(revision: u32) -> u8
    ensures { result ≡ server_die revision }
{
    let index = (revision % 4) as u8;
    if revision / 128 % 2 == 1 {
        return index + 9;
    }
    index * 4
}

// By the header's layout; its bytes are there.
#[tactic(auto, unfolding(crate::specs::Head::origin_of))]
pub fn origin_of(s: &[u8], word: u32, flags: u32) -> Origin
    requires { Complete s.now word flags }
    ensures { result ≡ origin_of s.now word flags }
{
    let layout = layout_of(word, flags);
    match layout {
        Layout::Six => Origin {
            socket: u8::read_le(s, 25) as u32,
            die: u8::read_le(s, 24) as u32,
        },
        Layout::LegacyServer => Origin {
            socket: u8::read_le(s, 24) as u32,
            die: server_die(word % 256) as u32,
        },
        _ => Origin {
            socket: 0,
            die: NO_DIE,
        },
    }
}
