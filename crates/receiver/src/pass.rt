// The records at level 0 that are all in, as rows of a lent table.
ghost use Rattle.std.specs.Prelude.{◌≡◌, length};
ghost use Rattle.receiver.specs.Lookups.{rules_of};
ghost use Rattle.receiver.specs.Steps.{HasRoom, pass_of};

use crate::lookup::Lookup;
use crate::piece::Moved;

// The records of some bytes that are all in, one after the other, from where the walk stands.
pub fn pass(bytes: &[u8], mut lookup: Lookup, from: Moved, spans: &mut [u32]) -> Moved
    requires { HasRoom from (length bytes.now) spans.old }
    ensures { (spans.new, result) ≡ pass_of (rules_of lookup.entry) bytes.now from spans.old }
{
    // A copy of its own, made field by field, whose fields the loop has in registers.
    let mut moved = Moved {
        offset: from.offset,
        rows: from.rows,
        whole: from.whole,
    };
    let mut rest = bytes;
    // A step is as long as a record declares, so no index counts.
    while !rest.is_empty() {
        let front = lookup.read(rest);
        let declared = front.bytes_in(rest.len());
        if declared == 0 {
            return moved;
        }
        front.put(declared, rest.len(), &mut moved, spans);
        rest = &rest[declared..];
    }
    moved
}
