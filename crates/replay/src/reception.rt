// A region received in pieces: a start under the case's rules, the pieces, and a finish, on the case's room of a table. A piece has
// the next of the case's eight lengths, and these again and again, but no more than is left of the region; where nothing is left,
// there is none. One over 64 bytes is refused, and the next is fed in its place. Any other refusal, and one of the start, ends the
// pieces. The case tells what the finish tells, and its answer has 256 times the refusal that ended the pieces added. The bytes left
// are the rows of all calls (told_rows.rt).
ghost use Rattle.std.specs.Prelude.{◌≡◌, ◌≤◌, length};

use crate::calls::MOST_NUMBERS;
use crate::case::{Case, MOST_INPUT};
use crate::element::{Element, left, within};
use crate::told_rows::{bytes_of, takes_rows};
use crashlog::receivers::{
    crashlog_receiver_feed, crashlog_receiver_finish, crashlog_receiver_start,
};
use receiver::{KEPT, Receiver, State};
use rules::columns::NUMBERS;

const MOST_PIECE: usize = 64;

// As many pieces as a region can be cut into: of eight lengths one at least is not 0.
const MOST_PIECES: usize = 8 * MOST_INPUT;

// How far a reception is: the receiver; how many bytes of the region are taken; the rows wanted that are still to be told; the refusal
// that ended the pieces, or 0; and whether all was as wanted. Answers are numbers here, since those that C gets are what is tried.
#[derive(Drop)]
struct Progress<'a> {
    receiver: Receiver,
    taken: usize,
    wanted: &'a [u8],
    refused: u32,
    agrees: bool,
}

// A receiver that was never started.
fn untouched() -> Receiver {
    let state = State {
        taken: u64::UNTOUCHED,
        offset: u64::UNTOUCHED,
        rows: u64::UNTOUCHED,
        rule_blocks: u64::UNTOUCHED,
        whole: u32::UNTOUCHED,
        stage: u32::UNTOUCHED,
    };
    Receiver {
        state,
        rules: [u32::UNTOUCHED; NUMBERS],
        kept: [u8::UNTOUCHED; KEPT],
    }
}

// Whether a piece is answered as its length demands: one that is too long is refused. And no refusal tells rows.
fn answers_well(answer: u32, length: usize, rows: u64) -> bool {
    let is_due = length <= MOST_PIECE || answer == answers::BAD_PIECE;
    is_due && (answer == answers::DONE || rows == 0)
}

// The refusal that ends the pieces: not that of a piece which is too long.
fn ending(answer: u32, length: usize) -> u32 {
    if MOST_PIECE < length {
        answers::DONE
    } else {
        answer
    }
}

// Whether a receiver takes no piece after a finish with some answer, unless that was refused for the table's room.
fn is_shut(receiver: &mut Receiver, answer: u32, spans: &mut [u32]) -> bool {
    let mut rows = u64::UNTOUCHED;
    let again = crashlog_receiver_feed(receiver, b"", spans, &mut rows);
    rows == 0 && (again == answers::NOT_RECEIVING || answer == answers::BAD_PIECE)
}

impl<'a> Progress<'a> {
    fn start(case: &Case<'a>) -> Progress<'a>
        ensures { result.taken ≡ 0 }
    {
        let mut receiver = untouched();
        let refused = crashlog_receiver_start(&mut receiver, case.rules);
        Progress {
            receiver,
            taken: 0,
            wanted: case.left,
            refused,
            agrees: true,
        }
    }

    // Compares the rows that a call told.
    fn take_rows(&mut self, spans: &mut [u32], rows: u64)
        ensures { self.new.taken ≡ self.old.taken }
    {
        self.agrees &= takes_rows(spans, rows, self.taken, self.wanted);
        let told = within(bytes_of(rows), self.wanted);
        self.wanted = &self.wanted[told..];
    }

    // Feeds the next piece, of the length that is asked if the region has as much.
    fn feed(&mut self, asked: u8, region: &[u8], spans: &mut [u32])
        requires { self.old.taken ≤ length region.now }
        ensures { self.new.taken ≤ length region.now }
    {
        let rest = &region[self.taken..];
        let length = within(asked as usize, rest);
        let mut rows = u64::UNTOUCHED;
        let answer = crashlog_receiver_feed(&mut self.receiver, &rest[..length], spans, &mut rows);
        if answer == answers::DONE {
            self.taken += length;
        }
        self.take_rows(spans, rows);
        self.agrees &= answers_well(answer, length, rows);
        self.refused = ending(answer, length);
    }

    // Feeds a region piece by piece, until one is refused or the region is all taken.
    fn feed_all(&mut self, lengths: &[u8], region: &[u8], spans: &mut [u32])
        requires { self.old.taken ≤ length region.now }
    {
        for asked in lengths.iter().cycle().take(MOST_PIECES) {
            if self.refused != answers::DONE || region.len() <= self.taken {
                return;
            }
            self.feed(*asked, region, spans);
        }
    }

    // Whether a finish tells what the case says and the rows that are still wanted, and leaves the receiver shut.
    fn finishes(mut self, case: &Case, spans: &mut [u32]) -> bool {
        let mut told = [u64::UNTOUCHED; 5];
        let answer = crashlog_receiver_finish(&mut self.receiver, spans, &mut told);
        let rows = told[0];
        self.take_rows(spans, rows);
        let number = answer as u64 + 256 * self.refused as u64;
        self.agrees
            & self.wanted.is_empty()
            & case.tells(number, &told)
            & is_shut(&mut self.receiver, answer, spans)
    }
}

// The calls on the case's room of a table, which is untouched in the end: the rows that were told are made so.
pub(crate) fn reception(case: &Case) -> bool {
    let mut spans = [u32::UNTOUCHED; MOST_NUMBERS];
    let lent = within(case.room, &spans);
    let table = &mut spans[..lent];
    let mut progress = Progress::start(case);
    progress.feed_all(case.lengths, case.input, table);
    progress.finishes(case, table) & left(&spans, b"")
}
