// A piece that is taken: the records that are all in with it, and what is kept after them.
ghost use Rattle.std.specs.Prelude.{◌≡◌, ◌++◌, min, ◌+◌, ◌≤◌, ◌<◌, ◌^◌, length, take, drop};
ghost use Rattle.header_judge.specs.Head.{head_of};
ghost use Rattle.receiver.specs.Lookups.{rules_of};
ghost use Rattle.receiver.specs.Calls.{kept_of};
ghost use Rattle.receiver.specs.Steps.{HasRoom, bytes_in, moved_of, came_bytes};

use crate::KEPT;
use crate::lookup::Lookup;
use crate::pass::pass;

// The kept bytes and a piece.
const JOINED: usize = 600;

// How far a walk has come: the rows written, the offset of the record that is waited for, and whether all is whole so far.
#[derive(Clone, Copy)]
pub struct Moved {
    pub offset: usize,
    pub rows: u32,
    pub whole: bool,
}

// Keeps bytes from a place on.
fn keep(s: &[u8], at: usize, kept: &mut [u8])
    requires { (at ≤ length s.now) × (length kept.old ≡ 536) }
    ensures { kept.new ≡ kept_of (drop at s.now) kept.old }
{
    let len = (s.len() - at).min(KEPT);
    let end = at + len;
    copies::copy(&s[at..end], &mut kept[..len]);
}

// Some bytes that are walked where they lie, from where the walk stands: the rest of them is kept.
pub fn walk_on(s: &[u8], lookup: Lookup, moved: &mut Moved, kept: &mut [u8], spans: &mut [u32])
    requires { HasRoom moved.old (length s.now) spans.old × (length kept.old ≡ 536) }
    ensures { (kept.new, spans.new, moved.new) ≡ moved_of (rules_of lookup.entry) s.now moved.old kept.old spans.old }
{
    let start = moved.offset;
    *moved = pass(s, lookup, *moved, spans);
    keep(s, moved.offset - start, kept);
}

// Kept bytes, and a piece after them.
#[tactic(auto, using(crate::proofs::Kept::joined_copy))]
fn join(kept: &[u8], piece: &[u8]) -> [u8; JOINED]
    requires { length kept.now + length piece.now ≤ 600 }
    ensures { take (length kept.now + length piece.now) result ≡ kept.now ++ piece.now }
{
    let mut joined = [0u8; JOINED];
    let at = kept.len();
    let end = at + piece.len();
    copies::copy(kept, &mut joined[..at]);
    copies::copy(piece, &mut joined[at..end]);
    joined
}

// Kept bytes and a piece after them, walked in one from where the walk stands.
fn walk_joined(
    held: usize,
    lookup: Lookup,
    moved: &mut Moved,
    piece: &[u8],
    kept: &mut [u8],
    spans: &mut [u32],
)
    requires room { HasRoom moved.old 600 spans.old }
    requires lengths { (held ≤ 536) × (length piece.now ≤ 64) × (length kept.old ≡ 536) }
    ensures { (kept.new, spans.new, moved.new) ≡ moved_of (rules_of lookup.entry) (take held kept.old ++ piece.now) moved.old kept.old spans.old }
{
    let joined = join(&kept[..held], piece);
    let came = held + piece.len();
    walk_on(&joined[..came], lookup, moved, kept, spans);
}

// Takes a piece in behind `held` bytes, as far as they are kept. How many bytes are kept then.
#[tactic(auto, using(crate::proofs::Taken::taken_copy))]
fn take_in(held: usize, piece: &[u8], kept: &mut [u8]) -> usize
    requires { length kept.old ≡ 536 }
    ensures kept_after { kept.new ≡ kept_of (came_bytes held kept.old piece.now) kept.old }
    ensures count { result ≡ min (held + length piece.now) 536 }
{
    let len = held.min(KEPT);
    let more = piece.len().min(KEPT - len);
    let end = len + more;
    copies::copy(&piece[..more], &mut kept[len..end]);
    end
}

// A piece after `held` bytes, no record of which is all in. Their header stands in the first 536 bytes, and bytes of the piece alone follow
// its record, but where the record is smaller than what was held of its header.
pub fn after_held(
    held: usize,
    mut lookup: Lookup,
    moved: &mut Moved,
    piece: &[u8],
    kept: &mut [u8],
    spans: &mut [u32],
)
    requires room { HasRoom moved.old 600 spans.old × (moved.old.offset + held + 600 < 2 ^ 32) }
    requires lengths { (length piece.now ≤ 64) × (length kept.old ≡ 536) }
    requires waits { bytes_in held (head_of (rules_of lookup) (take held kept.old)) ≡ 0 }
    ensures { (kept.new, spans.new, moved.new) ≡ moved_of (rules_of lookup.entry) (came_bytes held kept.old piece.now) moved.old (kept_of (came_bytes held kept.old piece.now) kept.old) spans.old }
{
    let came = held + piece.len();
    let len = take_in(held, piece, kept);
    let front = lookup.read(&kept[..len]);
    let declared = front.bytes_in(came);
    if declared == 0 {
        return;
    }
    if declared < held {
        return walk_joined(held, lookup, moved, piece, kept, spans);
    }
    front.put(declared, came, moved, spans);
    let start = declared - held;
    walk_on(&piece[start..], lookup, moved, kept, spans);
}
