// What stays the same in a whole walk.
ghost use Rattle.std.specs.Prelude.{◌≡◌, ◌<◌, ◌^◌, min};
ghost use Rattle.region_rows.specs.Rows.{capacity, most_rows};

use region_rows::room_of;
use rules::columns::Columns;

// The rule table, the limit of tries, and the rows that there is room for. The ghost field tells a walk, which has the room behind a
// reference, that it fits its type.
#[derive(Clone, Copy)]
pub struct Bounds<'a> {
    pub rules: &'a Columns,
    pub limit: u64,
    pub room: u32,
    pub ghost fits: { room < 2 ^ 32 },
}

impl<'a> Bounds<'a> {
    // Those of a walk by some rules and under a limit into a table.
    pub fn new(rules: &'a Columns, limit: u64, spans: &[u32]) -> Bounds<'a>
        ensures rules_are { result.rules.now ≡ rules.now }
        ensures limit_is { result.limit ≡ limit }
        ensures room_is { result.room ≡ min (capacity spans.now) most_rows }
    {
        Bounds {
            rules,
            limit,
            room: room_of(spans),
        }
    }
}
