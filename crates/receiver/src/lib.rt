// The receiver of a region that comes in pieces: start, feed and finish. The state goes by value, the rules and the kept bytes are lent where
// they lie, so that a piece and the end cost no copy of them.
#![tactic(auto)]

ghost use Rattle.std.specs.Prelude.{◌≡◌, true, ◌≤◌, eqb, length, take, is_some, IfSome};
ghost use Rattle.header_judge.specs.Version.{word_of};
ghost use Rattle.header_judge.specs.Head.{head_of};
ghost use Rattle.receiver.specs.Lookups.{rules_of, SameRules};
ghost use Rattle.receiver.specs.Steps.{bytes_in, taken_of};
ghost use Rattle.receiver.specs.Calls.{shut_down, in_bounds, sound, held_in, usable, start_out, feed_out, finish_out};

pub mod front;
pub mod last;
pub mod lookup;
pub mod pass;
pub mod piece;
pub mod refusal;

use answers::MOST_BYTES;
use last::last_with;
use lookup::Lookup;
use piece::{Moved, after_held, walk_on};
use refusal::Refusal;
use region::Listing;
use rules::columns::NUMBERS;

// The most bytes that are kept.
pub const KEPT: usize = 536;

const MOST_PIECE: usize = 64;

const LEAST_ROOM: u32 = 600;

// A receiver that was never started, or that is finished or closed, is shut.
const SHUT: u32 = 0;

const IN_USE: u32 = 1;

// The most blocks that a rule table needs.
const MOST_BLOCKS: u64 = 8;

// The most bytes that a record declares.
const MOST_DECLARED: u64 = 524280;

// What a receiver knows, beside its rules and the bytes that it keeps: the bytes taken; the offset of the record that it waits for; the
// records before it; the blocks of its rules; whether each of those records leaves the listing whole; and whether it is in use.
// C lends it, so its flags are numbers and its facts are tested: nothing is known of what C hands in.
#[repr(C)]
#[derive(Clone, Copy)]
pub struct State {
    pub taken: u64,
    pub offset: u64,
    pub rows: u64,
    pub rule_blocks: u64,
    pub whole: u32,
    pub stage: u32,
}

// crashlog_receiver. The rules are a table's columns; kept are the first of the bytes that have come from the offset on.
#[repr(C)]
#[derive(Clone, Copy)]
pub struct Receiver {
    pub state: State,
    pub rules: [u32; NUMBERS],
    pub kept: [u8; KEPT],
}

impl State {
    // Whether the numbers are such as a call leaves. The ranges are tested without a branch, since each feed tests them all.
    #[tactic(auto, unfolding(crate::specs::Calls::in_bounds))]
    fn in_bounds(self) -> bool
        ensures { result ≡ in_bounds self }
    {
        let in_range = (self.stage == IN_USE)
            & (self.whole <= 1)
            & (self.rule_blocks <= MOST_BLOCKS)
            & (self.taken <= (MOST_BYTES as u64))
            & (self.offset <= self.taken)
            & (self.rows <= self.offset);
        if !in_range {
            return false;
        }
        (self.offset <= self.rows * MOST_DECLARED) & ((0 < self.rows) | (self.whole == 1))
    }

    // Whether the numbers and the rules are such as a call leaves.
    #[tactic(auto, using(crate::proofs::Bounds::bounds_range), unfolding(crate::specs::Calls::sound))]
    fn sound(self, rules: &[u32; NUMBERS]) -> bool
        ensures { result ≡ sound self rules.now }
    {
        if !self.in_bounds() {
            return false;
        }
        rules::columns::valid_in(rules, self.rule_blocks as usize)
    }

    // How many bytes have come from the offset on.
    pub fn held(self) -> usize
        requires { self.offset ≤ self.taken }
        ensures { result ≡ held_in self }
    {
        (self.taken - self.offset) as usize
    }

    // The rules, with what the kept bytes tell, where a call can go on from them: where no record of them is all in.
    // Inlined for speed, since what is told would else go through memory.
    #[inline(always)]
    #[tactic(auto, using(crate::proofs::Bounds::bounds_range, crate::proofs::Bounds::sound_bounds, crate::proofs::Bounds::unusable, crate::proofs::Bounds::usable_by, crate::proofs::Bounds::usable_empty))]
    fn see<'a>(self, rules: &'a [u32; NUMBERS], kept: &[u8]) -> Option<Lookup<'a>>
        requires { length kept.now ≡ 536 }
        ensures usable { is_some result ≡ usable self rules.now kept.now }
        ensures lookup { IfSome result (λ l. (l.rules.now ≡ rules.now) × (l.blocks ≡ self.rule_blocks)) }
    {
        if !self.sound(rules) {
            return None;
        }
        let lookup = Lookup::new(rules, self.rule_blocks as usize);
        let held = self.held();
        if held == 0 {
            return Some(lookup);
        }
        see_kept(held, lookup, kept)
    }

    // A piece that is taken: how far it moves the walk.
    fn take_piece(self, lookup: Lookup, piece: &[u8], kept: &mut [u8], spans: &mut [u32]) -> Moved
        requires usable { (usable self lookup.rules.now kept.old ≡ true) × (lookup.blocks ≡ self.rule_blocks) }
        requires lengths { (length piece.now ≤ 64) × (length kept.old ≡ 536) × (6000 ≤ length spans.old) }
        ensures { (kept.new, spans.new, result) ≡ taken_of (rules_of lookup.entry) self piece.now kept.old spans.old }
    {
        let mut moved = Moved {
            rows: 0,
            offset: self.offset as usize,
            whole: self.whole == 1,
        };
        let held = self.held();
        if held == 0 {
            walk_on(piece, lookup, &mut moved, kept, spans);
        } else {
            after_held(held, lookup, &mut moved, piece, kept, spans);
        }
        moved
    }

    // The same, but that no call goes on from it.
    fn shut(self) -> State
        ensures { result ≡ shut_down self }
    {
        State {
            stage: SHUT,
            ..self
        }
    }
}

// What `held` bytes tell, by those that are kept, where no record of them is all in. Apart for speed: a feed with nothing held goes past it.
#[inline(never)]
fn see_kept<'a>(held: usize, mut lookup: Lookup<'a>, kept: &[u8]) -> Option<Lookup<'a>>
    requires { length kept.now ≡ 536 }
    ensures waits { is_some result ≡ eqb (bytes_in held (head_of (rules_of lookup.entry) (take held kept.now))) 0 }
    ensures lookup { IfSome result (λ l. SameRules l lookup.entry × (l.word ≡ word_of (take held kept.now))) }
{
    let front = lookup.read(&kept[..held.min(KEPT)]);
    if front.bytes_in(held) == 0 {
        return Some(lookup);
    }
    None
}

// A receiver that has got no byte.
pub fn start(rules: &[u32]) -> Result<Receiver, Refusal>
    ensures { result ≡ start_out rules.now }
{
    if !rules::valid(rules) {
        return Err(Refusal::BadRules);
    }
    let blocks = rules::columns::blocks_of(rules.len() / rules::NUMBERS_IN_RULE);
    let state = State {
        taken: 0,
        offset: 0,
        rows: 0,
        rule_blocks: blocks as u64,
        whole: 1,
        stage: IN_USE,
    };
    Ok(Receiver {
        state,
        rules: rules::columns::columns_of(rules),
        kept: [0; KEPT],
    })
}

// Takes a piece: the rows that are all in with it go to the table's start. The state after it, and how many rows they are.
pub fn feed(
    state: State,
    rules: &[u32; NUMBERS],
    piece: &[u8],
    kept: &mut [u8],
    spans: &mut [u32],
) -> (State, Result<u64, Refusal>)
    requires { length kept.old ≡ 536 }
    ensures { (kept.new, spans.new, result.0, result.1) ≡ feed_out state rules.now piece.now kept.old spans.old }
{
    let Some(lookup) = state.see(rules, kept) else {
        return (state, Err(Refusal::NotReceiving));
    };
    if (MOST_PIECE < piece.len()) | (region_rows::room_of(spans) < LEAST_ROOM) {
        return (state, Err(Refusal::BadPiece));
    }
    let taken = state.taken + (piece.len() as u64);
    if (MOST_BYTES as u64) < taken {
        return (state.shut(), Err(Refusal::TooLong));
    }
    let moved = state.take_piece(lookup, piece, kept, spans);
    let rows = moved.rows as u64;
    let after = State {
        taken,
        offset: moved.offset as u64,
        rows: state.rows + rows,
        whole: u32::from(moved.whole),
        ..state
    };
    (after, Ok(rows))
}

// The end of the bytes: a last short row, if a record lacks bytes. The state after it, and what is told of the walk.
pub fn finish(
    state: State,
    rules: &[u32; NUMBERS],
    kept: &[u8],
    spans: &mut [u32],
) -> (State, Result<Listing, Refusal>)
    requires { length kept.now ≡ 536 }
    ensures { (spans.new, result.0, result.1) ≡ finish_out state rules.now kept.now spans.old }
{
    let Some(seen) = state.see(rules, kept) else {
        return (state, Err(Refusal::NotReceiving));
    };
    if region_rows::room_of(spans) < LEAST_ROOM {
        return (state, Err(Refusal::BadPiece));
    }
    let listing = last_with(state, seen, kept, spans);
    (state.shut(), Ok(listing))
}
