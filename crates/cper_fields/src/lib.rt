// What the CPER record header and the section descriptor share: severities, and fields of bytes.
#![tactic(auto)]

ghost use Rattle.std.specs.Prelude.{◌≡◌, ◌+◌, ◌≤◌, length};
ghost use Rattle.cper_fields.specs.Fields.{number_if, part, over, present, severity_of, severity_number};

#[derive(Clone, Copy, Debug, PartialEq, Eq)]
pub enum Severity {
    Recoverable,
    Fatal,
    Corrected,
    Informational,
}

// A number above 3 is taken for 3.
impl From<u32> for Severity {
    ghost from_gives = { λ number severity. severity ≡ severity_of number };

    fn from(number: u32) -> Severity {
        match number {
            0 => Severity::Recoverable,
            1 => Severity::Fatal,
            2 => Severity::Corrected,
            _ => Severity::Informational,
        }
    }
}

impl From<Severity> for u32 {
    ghost from_gives = { λ severity number. number ≡ severity_number severity };

    fn from(severity: Severity) -> u32 {
        match severity {
            Severity::Recoverable => 0,
            Severity::Fatal => 1,
            Severity::Corrected => 2,
            Severity::Informational => 3,
        }
    }
}

// A number where it is present, else 0.
pub fn long_if(held: bool, number: u64) -> u64
    ensures { (result ≡ number_if held number) × (result ≤ number) }
{
    if held { number } else { 0 }
}

// The same for a number of four bytes.
pub fn number_if(held: bool, number: u32) -> u32
    ensures { (result ≡ number_if held number) × (result ≤ number) }
{
    long_if(held, number as u64) as u32
}

// A field of bytes.
pub fn bytes_at<const N: usize>(s: &[u8], at: usize) -> [u8; N]
    requires { at + N ≤ length s.now }
    ensures { result ≡ part s.now at N }
{
    let mut field = [0; N];
    field.copy_from_slice(&s[at..at + N]);
    field
}

// The bytes of a field, zero where it is absent.
pub fn present<const N: usize>(field: Option<[u8; N]>) -> [u8; N]
    ensures { result ≡ present N field.entry }
{
    field.unwrap_or([0; N])
}

// Writes some bytes through the part of the output that starts at their offset.
pub fn put_bytes(out: &mut [u8], at: usize, field: &[u8])
    requires { at + length field.now ≤ length out.old }
    ensures { out.new ≡ over out.old at (length field.now) field.now }
{
    copies::copy(field, &mut out[at..at + field.len()]);
}

// Writes a field; absent, it is zero. By two calls: with the bytes chosen before one, a normal form of many sections takes a tenth longer.
pub fn put_field<const N: usize>(out: &mut [u8], at: usize, field: Option<[u8; N]>)
    requires { at + N ≤ length out.old }
    ensures { (out.new ≡ over out.old at N (present N field.entry)) × (length (present N field.entry) ≡ N) }
{
    match field {
        Some(bytes) => put_bytes(out, at, &bytes),
        None => put_bytes(out, at, &[0; N]),
    }
}
