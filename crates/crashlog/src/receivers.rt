// The receiver of a region that comes in pieces, for C: each function works on the struct behind C's pointer, and gives a refusal as its
// number, with zeros beside it. `receiver` has the state by value; the rules and the kept bytes are lent to it where they lie.
ghost use Rattle.std.specs.Prelude.{◌≡◌};
ghost use Rattle.receiver.specs.Calls.{started_out, fed_out, finished_out};

use receiver::Receiver;

// Starts a receiver, whatever it was before.
pub fn crashlog_receiver_start(receiver: &mut Receiver, rules: &[u32]) -> u32
    ensures { (receiver.new, result) ≡ started_out receiver.old rules.now }
{
    match receiver::start(rules) {
        Ok(started) => {
            *receiver = started;
            answers::DONE
        }
        Err(refusal) => u32::from(refusal),
    }
}

// Takes a piece: the rows of the records that are all in with it go to the table's start, and `rows` tells how many they are.
pub fn crashlog_receiver_feed(
    receiver: &mut Receiver,
    piece: &[u8],
    spans: &mut [u32],
    rows: &mut u64,
) -> u32
    ensures { (receiver.new, spans.new, rows.new, result) ≡ fed_out receiver.old piece.now spans.old }
{
    let (state, fed) = receiver::feed(
        receiver.state,
        &receiver.rules,
        piece,
        &mut receiver.kept,
        spans,
    );
    receiver.state = state;
    match fed {
        Ok(written) => {
            *rows = written;
            answers::DONE
        }
        Err(refusal) => {
            *rows = 0;
            u32::from(refusal)
        }
    }
}

// The end of the bytes: a last short row, if any, and what is told of the walk.
pub fn crashlog_receiver_finish(
    receiver: &mut Receiver,
    spans: &mut [u32],
    told: &mut [u64; 5],
) -> u32
    ensures { (receiver.new, spans.new, told.new, result) ≡ finished_out receiver.old spans.old }
{
    let (state, finished) = receiver::finish(
        receiver.state,
        &receiver.rules,
        &receiver.kept,
        spans,
    );
    receiver.state = state;
    match finished {
        Ok(listing) => {
            *told = region::listing_told(listing);
            u32::from(listing.answer)
        }
        Err(refusal) => {
            *told = [0; 5];
            u32::from(refusal)
        }
    }
}
