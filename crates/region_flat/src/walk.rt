// The flat walk: one loop over the tries of a region and of its Boxes. It calls itself nowhere, and keeps its place in a record of five levels.
ghost use Rattle.std.specs.Prelude.{◌≡◌, true, ◌*◌, ◌≤◌, length};
ghost use Rattle.answers.specs.Numbers.{most_bytes};
ghost use Rattle.region_rows.specs.Rows.{width, top};
ghost use Rattle.region_try.specs.Tries.{deepest, region_tries};
ghost use Rattle.region_walk.specs.Steps.{going, region_end};

use crate::memory::Memory;
use crate::place::Level;
use header_judge::version::word_of;
use region_rows::TOP;
use region_try::stop::{Stop, clean_stop};
use region_try::{Cut, Found};
use region_walk::{DEEPEST, Walked, walk_end};
use sieve::Sieve;

// A record of a level for each depth. The deepest stays empty: no Box is opened there.
const LEVELS: usize = 5;

const EMPTY: Level = Level {
    at: 0,
    till: 0,
    parent: 0,
};

// The records of a whole input, each with what stands inside it. The place is the innermost level, its number, and what is left of the levels
// around it: three variables, since a struct of them would have a method for each line that changes one. A turn makes one try, or goes back
// to the level around; what a record declares is the step, so that the loop has no index to count.
pub fn flat_walk(bytes: &[u8], rules: &[u32], limit: u64, room: u32, spans: &mut [u32]) -> Walked
    requires { (length bytes.now ≤ most_bytes) × (room * width ≤ length spans.old) }
    ensures { (spans.new, result) ≡ region_end limit room deepest (region_tries rules.now deepest bytes.now 0 top 0) (going spans.old 0 0 true) }
{
    let sieve = Sieve::of(rules);
    let mut seen = Memory::none();
    let mut here = Level {
        at: 0,
        till: bytes.len() as u32,
        parent: TOP,
    };
    let mut around = [EMPTY; LEVELS];
    let mut level: usize = 0;
    let mut rows: u32 = 0;
    let mut tries: u64 = 0;
    let mut whole = true;
    loop {
        if here.till <= here.at {
            if level == 0 {
                return walk_end(rows, tries, whole, Cut::Going, Stop::EndOfInput, 0);
            }
            level -= 1;
            here = around[level];
            continue;
        }
        if limit <= tries {
            return walk_end(rows, tries, false, Cut::Spent, Stop::Untold, 0);
        }
        let left = &bytes[here.at as usize..here.till as usize];
        seen = seen.recall(rules, &sieve, word_of(left));
        tries += 1;
        let tried = region_try::try_at(
            left,
            seen.word,
            seen.flags,
            level as u32,
            here.parent,
            here.at as usize,
            room,
            rows,
            spans,
        );
        match tried {
            Found::Nothing { stop, bad_type } => {
                whole &= clean_stop(stop);
                if level == 0 {
                    return walk_end(rows, tries, whole, Cut::Going, stop, bad_type);
                }
                here.at = here.till;
            }
            Found::NoRoom => {
                return walk_end(rows, tries, false, Cut::Full, Stop::Untold, 0);
            }
            Found::Row {
                held,
                declared,
                size,
                boxed,
            } => {
                let row = rows;
                rows += 1;
                whole &= declared <= held;
                if boxed && level < DEEPEST as usize {
                    whole &= size <= held;
                    if size < held {
                        around[level] = here.past(declared);
                        level += 1;
                        here = here.inside(held, size, row);
                        continue;
                    }
                }
                here = here.past(declared);
            }
        }
    }
}
