// A span row (document 01, 'The nested listing'; document 02, C-17) in a lent table: its numbers, written and read, and the rows that a table has room for.
// The table is numbers and no slice of `Span`, since C lends it (include/crashlog.h).
#![tactic(auto)]

ghost use Rattle.std.specs.Prelude.{◌≡◌, min, ◌+◌, ◌*◌, ◌≤◌, length};
ghost use Rattle.region_rows.specs.Rows.{width, most_rows, capacity, with_span, span_at};

// A record's row: `parent` is a row's number, `size` the header's, `word` the version word; `socket` and `die` are those that the header
// names.
#[derive(Clone, Copy)]
pub struct Span {
    pub level: u32,
    pub parent: u32,
    pub offset: u32,
    pub held: u32,
    pub declared: u32,
    pub size: u32,
    pub word: u32,
    pub socket: u32,
    pub die: u32,
    pub flags: u32,
}

// The numbers of a row.
pub const WIDTH: usize = 10;

// The parent row at the top, as the C interface has it in a row. No row has this number: at most MOST_ROWS rows are used.
pub const TOP: u32 = 4294967295;

const MOST_ROWS: usize = 4294967294;

// The rows of a table that are used.
pub fn room_of(spans: &[u32]) -> u32
    ensures { result ≡ min (capacity spans.now) most_rows }
{
    (spans.len() / WIDTH).min(MOST_ROWS) as u32
}

// Writes a row.
pub fn put(spans: &mut [u32], row: usize, span: Span)
    requires { (row + 1) * width ≤ length spans.old }
    ensures { spans.new ≡ with_span spans.old row span }
{
    let at = row * WIDTH;
    spans[at] = span.level;
    spans[at + 1] = span.parent;
    spans[at + 2] = span.offset;
    spans[at + 3] = span.held;
    spans[at + 4] = span.declared;
    spans[at + 5] = span.size;
    spans[at + 6] = span.word;
    spans[at + 7] = span.socket;
    spans[at + 8] = span.die;
    spans[at + 9] = span.flags;
}

// Reads a row.
pub fn get(spans: &[u32], row: usize) -> Span
    requires { (row + 1) * width ≤ length spans.now }
    ensures { result ≡ span_at spans.now row }
{
    let at = row * WIDTH;
    Span {
        level: spans[at],
        parent: spans[at + 1],
        offset: spans[at + 2],
        held: spans[at + 3],
        declared: spans[at + 4],
        size: spans[at + 5],
        word: spans[at + 6],
        socket: spans[at + 7],
        die: spans[at + 8],
        flags: spans[at + 9],
    }
}
