// The names of the record types.
#![tactic(auto)]

ghost use Rattle.std.specs.Prelude.{◌≡◌};
ghost use Rattle.names.specs.Names.{text_of, name_out};

mod table;

// The name of a record type: the one beside it in the table, else UNKNOWN.
pub fn name_of(record_type: u32) -> &'static str
    ensures { result.now ≡ text_of record_type }
{
    table::entries()
        .iter()
        .find(|(code, _)| record_type == *code)
        .map_or("UNKNOWN", |(_, name)| table::text(name))
}

// The length of a record type's name, which is written to the start of the output where it fits.
#[tactic(auto, using(crate::proofs::Laws::length_text), unfolding(crate::specs::Names::name_out))]
pub fn write(record_type: u32, out: &mut [u8]) -> u32
    ensures { (out.new, result) ≡ name_out (text_of record_type) out.old }
{
    let name = name_of(record_type).as_bytes();
    if name.len() <= out.len() {
        copies::copy(name, &mut out[..name.len()]);
    }
    name.len() as u32
}
