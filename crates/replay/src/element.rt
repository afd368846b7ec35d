// The elements of lent buffers: numbers that lie in bytes one after the other, least byte first.
ghost use Rattle.std.specs.Prelude.{◌≤◌, length};

pub trait Element: Copy + PartialEq {
    // What lent buffers hold before a call.
    const UNTOUCHED: Self;

    // The number with an index, if the bytes have as many.
    fn nth(bytes: &[u8], i: usize) -> Option<Self>;
}

// The chunk with an index, if the bytes have as many.
fn chunk<const N: usize>(bytes: &[u8], i: usize) -> Option<[u8; N]> {
    let start = i.checked_mul(N)?;
    bytes.get(start..)?.first_chunk::<N>().copied()
}

impl Element for u8 {
    const UNTOUCHED: u8 = 0xa5;

    fn nth(bytes: &[u8], i: usize) -> Option<u8> {
        bytes.get(i).copied()
    }
}

impl Element for u16 {
    const UNTOUCHED: u16 = 0xa5a5;

    fn nth(bytes: &[u8], i: usize) -> Option<u16> {
        chunk(bytes, i).map(u16::from_le_bytes)
    }
}

impl Element for u32 {
    const UNTOUCHED: u32 = 0xa5a5a5a5;

    fn nth(bytes: &[u8], i: usize) -> Option<u32> {
        chunk(bytes, i).map(u32::from_le_bytes)
    }
}

impl Element for u64 {
    const UNTOUCHED: u64 = 0xa5a5a5a5a5a5a5a5;

    fn nth(bytes: &[u8], i: usize) -> Option<u64> {
        chunk(bytes, i).map(u64::from_le_bytes)
    }
}

// The number with an index, 0 where the bytes end before it.
pub fn nth_or_zero<T: Element + Default>(bytes: &[u8], i: usize) -> T {
    T::nth(bytes, i).unwrap_or_default()
}

// A count, cut to a buffer's length.
pub fn within<T>(count: usize, buffer: &[T]) -> usize
    ensures at_most { result ≤ count }
    ensures inside { result ≤ length buffer.now }
{
    count.min(buffer.len())
}

// Whether a buffer starts with the numbers that some bytes are, and is else untouched.
pub fn left<T: Element>(buffer: &[T], wanted: &[u8]) -> bool {
    let fits = T::nth(wanted, buffer.len()).is_none();
    fits && buffer
        .iter()
        .enumerate()
        .all(|(i, x)| *x == T::nth(wanted, i).unwrap_or(T::UNTOUCHED))
}

// Some of the bytes, cut where they end.
pub fn part(bytes: &[u8], from: usize, len: usize) -> &[u8]
    ensures { length result.now ≤ len }
{
    let start = within(from, bytes);
    let rest = &bytes[start..];
    let end = within(len, rest);
    &rest[..end]
}
