// The rule table in the place of errata.rs: whether a table is valid, and the flags that it gives a version word.
// A table is rows of three numbers: mask, wanted, flags.
#![tactic(auto)]

ghost use Rattle.std.specs.Prelude.{◌≡◌, ◌<◌, ◌/◌, cond, length, map, leb};
ghost use Rattle.std.specs.List.{list_all};
ghost use Rattle.rules.specs.Rules.{row, rule, rules_of, applies, flags_of, valid_of};

pub mod columns;
pub mod intel;

// The flags, as in document 01. They stay numbers: users and C put them together in a flags word.
pub const LEGACY_SERVER: u32 = 1;

pub const LEGACY_GPU: u32 = 2;

pub const LEGACY_SERVER_BOX: u32 = 4;

pub const SIZES_IN_BYTES: u32 = 8;

// All of them together.
const EVERY_FLAG: u32 = 15;

pub const NUMBERS_IN_RULE: usize = 3;

const MOST_ROWS: usize = 64;

// Whether no flags number of some rows is above 15.
fn all_small(rows: &[[u32; NUMBERS_IN_RULE]]) -> bool
    ensures { result ≡ list_all (λ numbers. leb (row numbers).flags 15) rows.now }
{
    rows.iter().all(|[_, _, flags]| *flags <= EVERY_FLAG)
}

// The whole rows of a table.
pub fn rows_of(rules: &[u32]) -> &[[u32; NUMBERS_IN_RULE]]
    ensures rows { map row result.now ≡ rules_of rules.now }
    ensures many { length result.now ≡ length rules.now / 3 }
{
    rules.as_chunks().0
}

// Whether a table has whole rows, at most 64, and no flags number above 15.
pub fn valid(rules: &[u32]) -> bool
    ensures { result ≡ valid_of rules.now }
{
    let rows = rows_of(rules);
    rules.len() % NUMBERS_IN_RULE == 0 && rows.len() <= MOST_ROWS && all_small(rows)
}

// The flags that a row gives a word: its own where it applies, else none.
pub fn flags_given(word: u32, mask: u32, wanted: u32, flags: u32) -> u32
    ensures { result ≡ cond (applies word (rule mask wanted flags)) flags 0 }
{
    if word & mask == wanted { flags } else { 0 }
}

// The flags of a version word: the union over the rows that apply. Without a branch on them, several rows are looked at in one step.
pub fn flags(rules: &[u32], word: u32) -> u32
    ensures { result ≡ flags_of rules.now word }
{
    rows_of(rules).iter().fold(0, |all, [mask, wanted, flags]| {
        all | flags_given(word, *mask, *wanted, *flags)
    })
}
