// A rule table laid out by columns (all masks, then all wanted numbers, then all flags), so that a look at several of its rows is one step.
ghost use Rattle.std.specs.Prelude.{◌≡◌, ◌*◌, ◌%◌, ◌≤◌, [], length, replicate, true, cond};
ghost use Rattle.rules.specs.Rules.{flags_of, valid_of};
ghost use Rattle.rules.specs.Columns.{columns_of, blocks_of, rules_in, Blank};

use crate::{EVERY_FLAG, NUMBERS_IN_RULE};
use std::marker::Model;

// The rows that a column has room for.
const COLUMN: usize = 64;

// The numbers of the three columns.
pub const NUMBERS: usize = 192;

// Rows are looked at in whole blocks, so that no row is left over for a loop of its own.
const BLOCK: usize = 8;

// A rule table by columns, where no flag stands past its rows. A clause sees the table.
#[derive(Drop)]
pub struct Columns {
    numbers: [u32; NUMBERS],
    rows: usize,
}

impl Model for Columns {
    ghost use Rattle.std.specs.Prelude.{ℕ, List, ◌≤◌};
    ghost use Rattle.rules.specs.Columns.{rules_in, Blank};

    ghost Value = { List ℕ };

    ghost view = { λ c. rules_in c.numbers c.rows };

    ghost invariant = { λ c. (c.rows ≤ 64) × Blank c.numbers c.rows };
}

impl Columns {
    // Some rows by their columns, where no flag stands past them.
    pub fn new(numbers: [u32; NUMBERS], rows: usize) -> Columns
        requires { (rows ≤ 64) × Blank numbers rows }
        ensures { result ≡ rules_in numbers rows }
    {
        Columns { numbers, rows }
    }

    // The columns of a table, where it is valid.
    pub fn of(rules: &[u32]) -> Option<Columns>
        ensures { result ≡ cond (valid_of rules.now) (Some rules.now) None }
    {
        if !crate::valid(rules) {
            return None;
        }
        let mut columns = Columns::none();
        columns.fill(rules);
        Some(columns)
    }

    // Those of an empty table.
    #[inline(always)]
    pub fn none() -> Columns
        ensures { result ≡ [] }
    {
        Columns {
            numbers: [0; NUMBERS],
            rows: 0,
        }
    }

    // Becomes those of a valid table. They are filled in place, since columns that are moved are copied.
    #[inline(always)]
    pub fn fill(&mut self, rules: &[u32])
        requires { valid_of rules.now ≡ true }
        ensures { self.new ≡ rules.now }
    {
        self.numbers = [0; NUMBERS];
        lay(&mut self.numbers, rules);
        self.rows = rules.len() / NUMBERS_IN_RULE;
    }

    // The flags of a version word.
    pub fn flags(&self, word: u32) -> u32
        ensures { result ≡ flags_of self.now word }
    {
        flags(&self.numbers, self.rows, word)
    }
}

// The numbers of a table's columns.
pub fn columns_of(rules: &[u32]) -> [u32; NUMBERS]
    requires { (length rules.now % 3 ≡ 0) × (length rules.now ≤ 192) }
    ensures { result ≡ columns_of rules.now }
{
    let mut columns = [0u32; NUMBERS];
    lay(&mut columns, rules);
    columns
}

// Lays a table out by columns that are still blank.
fn lay(columns: &mut [u32; NUMBERS], rules: &[u32])
    requires blank { columns.old ≡ replicate 192 0 }
    requires rows { (length rules.now % 3 ≡ 0) × (length rules.now ≤ 192) }
    ensures { columns.new ≡ columns_of rules.now }
{
    for row in 0..rules.len() / NUMBERS_IN_RULE {
        let at = row * NUMBERS_IN_RULE;
        columns[row] = rules[at];
        columns[row + COLUMN] = rules[at + 1];
        columns[row + 2 * COLUMN] = rules[at + 2];
    }
}

// The flags of a version word under the first rows. The rows past them, up to the end of a block, add none.
pub fn flags(columns: &[u32; NUMBERS], rows: usize, word: u32) -> u32
    requires { (rows ≤ 64) × Blank columns.now rows }
    ensures { result ≡ flags_of (rules_in columns.now rows) word }
{
    flags_in(columns, blocks_of(rows), word)
}

// The blocks that some rows need.
pub fn blocks_of(rows: usize) -> usize
    requires { rows ≤ 64 }
    ensures { result ≡ blocks_of rows }
{
    (rows + BLOCK - 1) / BLOCK
}

// The flags of a version word under the rows of some blocks, without a branch on them.
pub fn flags_in(columns: &[u32; NUMBERS], blocks: usize, word: u32) -> u32
    requires { blocks ≤ 8 }
    ensures { result ≡ flags_of (rules_in columns.now (blocks * 8)) word }
{
    let mut all = 0;
    for row in 0..blocks * BLOCK {
        all |= crate::flags_given(
            word,
            columns[row],
            columns[row + COLUMN],
            columns[row + 2 * COLUMN],
        );
    }
    all
}

// Whether the rows of some blocks are a valid table, without a branch on them.
pub fn valid_in(columns: &[u32; NUMBERS], blocks: usize) -> bool
    requires { blocks ≤ 8 }
    ensures { result ≡ valid_of (rules_in columns.now (blocks * 8)) }
{
    let mut small = true;
    for row in 0..blocks * BLOCK {
        small &= columns[row + 2 * COLUMN] <= EVERY_FLAG;
    }
    small
}
