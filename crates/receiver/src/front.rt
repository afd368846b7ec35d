// The header that some bytes start with, as far as a record's bytes and its row need it: read by its parts, as the walks read it.
ghost use Rattle.std.specs.Prelude.{◌≡◌};
ghost use Rattle.header_judge.specs.Head.{size_of};

use crate::piece::Moved;
use header_judge::NoRecord;
use region_rows::TOP;

// The bytes, and the version word, its flags and the header's size.
#[derive(Clone, Copy)]
pub struct Front<'a> {
    pub bytes: &'a [u8],
    pub word: u32,
    pub flags: u32,
    pub size: Result<usize, NoRecord>,
    pub ghost sized: { size ≡ size_of bytes.now word flags },
}

impl<'a> Front<'a> {
    ghost use Rattle.std.specs.Prelude.{◌+◌, ◌*◌, ◌≤◌, ◌<◌, ◌^◌, length};
    ghost use Rattle.region_rows.specs.Rows.{width, top, with_span};
    ghost use Rattle.region_try.specs.Tries.{hit, try_of};
    ghost use Rattle.region_try.specs.Whole.{keeps_whole};
    ghost use Rattle.receiver.specs.Fronts.{head_in, row_in};
    ghost use Rattle.receiver.specs.Steps.{bytes_in, put_of};

    // The bytes of its record, of which `left` have come: 0 where it declares none, or more.
    #[tactic(auto, using(crate::proofs::Fronts::none_in, crate::proofs::Fronts::all_in_lem))]
    pub fn bytes_in(self, left: usize) -> usize
        ensures { (result ≡ bytes_in left (head_in self.entry)) × (result ≤ left) × (result ≤ 524280) }
    {
        let declared = header_judge::declared_in(self.bytes, self.word, self.flags, self.size);
        if left < declared {
            return 0;
        }
        declared
    }

    // Writes the row of its record, which is all in. Whether that leaves the listing whole: a Box does not whose header exceeds it.
    pub fn put_record(
        self,
        declared: usize,
        offset: usize,
        left: usize,
        rows: u32,
        spans: &mut [u32],
    ) -> bool
        requires all_in { (0 < declared) × (declared ≡ bytes_in left (head_in self)) × (declared ≤ 524280) }
        requires room { (offset < 2 ^ 32) × ((rows + 1) * width ≤ length spans.old) }
        ensures spans_after { spans.new ≡ with_span spans.old rows (row_in self.entry offset left) }
        ensures value { result ≡ keeps_whole (hit (row_in self.entry offset left)) }
    {
        let size = self.size.unwrap();
        let summary = header_judge::summary_of(self.bytes, self.word, self.flags, declared, size);
        let span = region_try::span_of(0, TOP, offset, left, summary);
        region_rows::put(spans, rows as usize, span);
        !(header_judge::is_box(self.word, self.flags) & (declared < size))
    }

    // Writes that row where a walk stands, and walks past the record.
    pub fn put(self, declared: usize, left: usize, moved: &mut Moved, spans: &mut [u32])
        requires all_in { (0 < declared) × (declared ≡ bytes_in left (head_in self)) × (declared ≤ 524280) }
        requires room { (moved.old.offset < 2 ^ 32) × (moved.old.rows + 1 < 2 ^ 32) × ((moved.old.rows + 1) * width ≤ length spans.old) }
        ensures { (spans.new, moved.new) ≡ put_of (try_of 0 top moved.old.offset left (head_in self.entry)) moved.old spans.old }
    {
        let keeps = self.put_record(declared, moved.offset, left, moved.rows, spans);
        moved.rows += 1;
        moved.offset += declared;
        moved.whole &= keeps;
    }
}
