// Each layout of a record header written into an output, field after field, as its table has them.
#![tactic(auto, unfolding(layout::specs::Fields::write_all))]

ghost use Rattle.std.specs.Prelude.{◌≡◌, [], ◌∷◌, ◌+◌, ◌*◌, ◌≤◌, ◌<◌, length};
ghost use Rattle.le.specs.Le.{put};
ghost use Rattle.layout.specs.Fields.{write_all};
ghost use Rattle.layout.specs.Runs.{put_run};
ghost use Rattle.header_judge.specs.declared.Layout.TheVariants.{Six};
ghost use Rattle.header.specs.Layouts.{table_of, legacy_stamped, status_word, count_half};
ghost use Rattle.header.specs.declared.HeaderType.TheVariants.{Type0, Type2, Type3, Type4, Type5, Type6, Type0LegacyServer, Type0LegacyGpu};
ghost use Rattle.header_write.specs.Values.{stamped_numbers, legacy_numbers};
ghost use Rattle.header_write.specs.Steps.{RoomForHeader, written};

use header::{Stamp, Status};
use header_judge::RecordSize;
use le::LittleEndian;

// What every layout but types 0 and 1 has: the version word, the sizes and the fields that most share.
#[derive(Clone, Copy, Debug, PartialEq, Eq)]
pub struct Opening {
    pub word: u32,
    pub size: RecordSize,
    pub stamp: Stamp,
}

impl Opening {
    pub fn put_type2(self, out: &mut [u8])
        requires { RoomForHeader (Type2 self.stamp) out.old }
        ensures { out.new ≡ written self.word self.size (Type2 self.stamp) [] out.old }
    {
        put_sized(out, self.word, self.size);
        self.stamp.timestamp.write_le(out, 8);
        self.stamp.agent_version.write_le(out, 16);
        self.stamp.reason.write_le(out, 20);
    }

    pub fn put_type3(self, out: &mut [u8], status: Status)
        requires { RoomForHeader (Type3 self.stamp status) out.old }
        ensures { out.new ≡ written self.word self.size (Type3 self.stamp status) [] out.old }
    {
        self.put_type2(out);
        status_word(status).write_le(out, 24);
    }

    pub fn put_type4(self, out: &mut [u8], whoami: u32, misc: u32)
        requires { RoomForHeader (Type4 self.stamp whoami misc) out.old }
        ensures { out.new ≡ written self.word self.size (Type4 self.stamp whoami misc) [] out.old }
    {
        self.put_type2(out);
        whoami.write_le(out, 24);
        misc.write_le(out, 28);
    }

    pub fn put_type5(self, out: &mut [u8], status: Status, error_status: u32)
        requires { RoomForHeader (Type5 self.stamp status error_status) out.old }
        ensures { out.new ≡ written self.word self.size (Type5 self.stamp status error_status) [] out.old }
    {
        self.put_type3(out, status);
        error_status.write_le(out, 28);
    }

    // Type 6 before its status words.
    fn put_counted(self, out: &mut [u8], die_id: u8, socket_id: u8, half: u16)
        requires { 28 ≤ length out.old }
        ensures { out.new ≡ write_all (table_of Six 0) (stamped_numbers self.word self.size self.stamp (die_id ∷ socket_id ∷ half ∷ [])) out.old }
    {
        self.put_type2(out);
        die_id.write_le(out, 24);
        socket_id.write_le(out, 25);
        half.write_le(out, 26);
    }

    #[tactic(auto, using(layout::proofs::Runs::write_first), unfolding(layout::specs::Fields::write_all))]
    pub fn put_type6(
        self,
        out: &mut [u8],
        die_id: u8,
        socket_id: u8,
        count: u16,
        complete: bool,
        words: [u32; 127],
    )
        requires { RoomForHeader (Type6 self.stamp die_id socket_id count complete) out.old }
        ensures { out.new ≡ written self.word self.size (Type6 self.stamp die_id socket_id count complete) words out.old }
    {
        let half = count_half(count, complete);
        self.put_counted(out, die_id, socket_id, half);
        put_words(out, words, count as usize);
    }

    // What both legacy layouts begin with.
    fn put_legacy(self, out: &mut [u8])
        requires { 24 ≤ length out.old }
        ensures { out.new ≡ write_all (legacy_stamped []) (legacy_numbers self.word self.size self.stamp []) out.old }
    {
        self.word.write_le(out, 0);
        self.stamp.reason.write_le(out, 4);
        self.stamp.timestamp.write_le(out, 8);
        self.size.record_size.write_le(out, 16);
        0u16.write_le(out, 18);
        self.stamp.agent_version.write_le(out, 20);
    }

    // The die of a legacy server stands in its revision.
    pub fn put_type0_legacy_server(self, out: &mut [u8], die_id: u8, socket_id: u8, status: Status)
        requires { RoomForHeader (Type0LegacyServer self.stamp die_id socket_id status) out.old }
        ensures { out.new ≡ written self.word self.size (Type0LegacyServer self.stamp die_id socket_id status) [] out.old }
    {
        self.put_legacy(out);
        socket_id.write_le(out, 24);
        put_unread(out);
        status_word(status).write_le(out, 28);
    }

    pub fn put_type0_legacy_gpu(self, out: &mut [u8], status: Status)
        requires { RoomForHeader (Type0LegacyGpu self.stamp status) out.old }
        ensures { out.new ≡ written self.word self.size (Type0LegacyGpu self.stamp status) [] out.old }
    {
        self.put_legacy(out);
        0u32.write_le(out, 24);
        status_word(status).write_le(out, 28);
    }
}

// A status and above it complete, in one word.
fn status_word(status: Status) -> u32
    requires { status.completion_status < 2147483648 }
    ensures { result ≡ status_word status }
{
    status.completion_status + u32::from(status.collection_complete) * 2147483648
}

// A count and in bit 15 complete, in one halfword.
fn count_half(count: u16, collection_complete: bool) -> u16
    requires { count ≤ 127 }
    ensures { result ≡ count_half count collection_complete }
{
    count + u16::from(collection_complete) * 32768
}

// The version word and the sizes: all that types 0 and 1 have.
pub fn put_sized(out: &mut [u8], word: u32, size: RecordSize)
    requires { RoomForHeader Type0 out.old }
    ensures { out.new ≡ written word size Type0 [] out.old }
{
    word.write_le(out, 0);
    size.record_size.write_le(out, 4);
    size.extended_record_size.write_le(out, 6);
}

// The first status words.
#[tactic(auto, unfolding(layout::specs::Runs::put_run))]
fn put_words(out: &mut [u8], words: [u32; 127], count: usize)
    requires { (count ≤ 127) × (28 + 4 * count ≤ length out.old) }
    ensures { out.new ≡ put_run 4 count out.old 28 words }
{
    for i in 0..count {
        words[i].write_le(out, 28 + 4 * i);
    }
}

// The three unread bytes of a legacy server header.
fn put_unread(out: &mut [u8])
    requires { 28 ≤ length out.old }
    ensures { out.new ≡ put 3 out.old 25 0 }
{
    0u8.write_le(out, 25);
    0u16.write_le(out, 26);
}
