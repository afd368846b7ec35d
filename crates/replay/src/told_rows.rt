// The rows that the calls of a reception tell, against those that its case wants: 44 bytes each, the bytes of the region that are taken
// when the row is told, and then its ten numbers.
use crate::element::{Element, left, within};

// A row's numbers in the table, and its bytes in the case.
const NUMBERS: usize = 10;

const WANTED_BYTES: usize = 44;

// More rows than any table has room for.
const MOST_ROWS: u64 = 65536;

// The bytes of so many rows in a case.
pub fn bytes_of(rows: u64) -> usize {
    WANTED_BYTES * (rows % MOST_ROWS) as usize
}

// Whether a row of the table is the one wanted, told when so many bytes are taken.
fn is_told(row: &[u32], taken: usize, wanted: &[u8]) -> bool {
    let Some((when, numbers)) = wanted.split_at_checked(4) else {
        return false;
    };
    u32::nth(when, 0).is_some_and(|when| when as usize == taken) && left(row, numbers)
}

// Whether so many rows at the start of a table are those that the bytes wanted start with. They are made untouched.
pub fn takes_rows(spans: &mut [u32], rows: u64, taken: usize, wanted: &[u8]) -> bool {
    if MOST_ROWS <= rows || wanted.len() < bytes_of(rows) {
        return false;
    }
    let numbers = NUMBERS * rows as usize;
    let end = within(numbers, spans);
    let told = &mut spans[..end];
    let same = told
        .chunks_exact(NUMBERS)
        .zip(wanted.chunks_exact(WANTED_BYTES))
        .all(|(row, wanted)| is_told(row, taken, wanted));
    told.fill(u32::UNTOUCHED);
    same & (numbers == end)
}
