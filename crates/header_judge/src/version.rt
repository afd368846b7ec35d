// The version word at the start of a record: read, taken apart into its fields, and put together again.
ghost use Rattle.std.specs.Prelude.{◌≡◌, ◌≤◌};
ghost use Rattle.header_judge.specs.Version.{word_of, ending_of, ending_number, version_of, start_of, InBits, word_from};

use answers::stops;
use le::LittleEndian;

// Version of a Crash Log record.
#[derive(Clone, Copy, Debug, PartialEq, Eq)]
pub struct Version {
    pub revision: u32,
    pub header_type: u16,
    pub product_id: u32,
    pub record_type: u8,
    pub consumed: bool,
    pub cldic: bool,
}

// How the records end, where no record starts.
#[derive(Clone, Copy, Debug, PartialEq, Eq)]
pub enum Ending {
    ZeroWord,
    DeadbeefWord,
    FewBytes,
}

// What stands for a word where there is none: the records have ended, or, in what a walk remembers, no word was looked up yet.
// It is 0, which is no word of a record, so that the walk has a word as one number.
pub const NO_WORD: u32 = 0;

// The word that marks the end of the records, beside 0.
pub const END_MARK: u32 = 0xdeadbeef;

// The version word, or NO_WORD.
#[tactic(auto, unfolding(crate::specs::Version::word_of))]
pub fn word_of(s: &[u8]) -> u32
    ensures { result ≡ word_of s.now }
{
    if s.len() < 4 {
        return NO_WORD;
    }
    let word = u32::read_le(s, 0);
    if word == END_MARK {
        return NO_WORD;
    }
    word
}

// How the records end at a place that has no word.
#[tactic(auto, unfolding(crate::specs::Version::ending_of))]
pub fn ending_of(s: &[u8]) -> Ending
    ensures { result ≡ ending_of s.now }
{
    if s.len() < 4 {
        return Ending::FewBytes;
    }
    if u32::read_le(s, 0) == END_MARK {
        return Ending::DeadbeefWord;
    }
    Ending::ZeroWord
}

impl From<Ending> for u32 {
    ghost from_gives = { λ ending number. number ≡ ending_number ending };

    fn from(ending: Ending) -> u32 {
        match ending {
            Ending::ZeroWord => stops::ZERO_WORD,
            Ending::DeadbeefWord => stops::DEADBEEF_WORD,
            Ending::FewBytes => stops::FEW_BYTES,
        }
    }
}

impl Version {
    pub fn from_u32(word: u32) -> Version
        ensures { result ≡ version_of word }
    {
        Version {
            revision: word % 256,
            header_type: (word / 256 % 16) as u16,
            product_id: word / 4096 % 4096,
            record_type: (word / 16777216 % 64) as u8,
            consumed: word / 2147483648 % 2 == 1,
            cldic: word / 1073741824 % 2 == 1,
        }
    }

    // The version at the start of a record, or how the records end.
    pub fn from_slice(s: &[u8]) -> Result<Version, Ending>
        ensures { result ≡ start_of s.now }
    {
        let word = word_of(s);
        if word == NO_WORD {
            return Err(ending_of(s));
        }
        Ok(Version::from_u32(word))
    }

    pub fn as_u32(self) -> u32
        requires { InBits self }
        ensures { result ≡ word_from self }
    {
        self.revision
            + u32::from(self.header_type) * 256
            + self.product_id * 4096
            + u32::from(self.record_type) * 16777216
            + u32::from(self.cldic) * 1073741824
            + u32::from(self.consumed) * 2147483648
    }
}
