// The lines of a dump, put into a page.
ghost use Rattle.std.specs.Prelude.{◌++◌, ◌+◌, ◌*◌, ◌≤◌, length, decimal};
ghost use Rattle.std.specs.List.{flat_map};
ghost use Rattle.header_judge.specs.Version.{record_type};
ghost use Rattle.region_rows.specs.Rows.{width, spans_in};
ghost use Rattle.names.specs.Names.{text_of};
ghost use Rattle.text.specs.Dump.{column, version_column, die_column, row_line, lines, yes_no, last_line};
ghost use Rattle.text.specs.Steps.{HasRoom, Puts, most_digits, most_column, most_line, most_last};

use crate::page::Page;
use header_judge::origin::NO_DIE;
use header_judge::version::Version;
use region::Listing;
use region_rows::Span;

impl Page<'_> {
    // Numbers in decimal, each with the space after it.
    fn columns(&mut self, numbers: &[u32])
        requires { HasRoom self.old (length numbers.now * most_column) }
        ensures { Puts self.old (flat_map column numbers.now) (length numbers.now * most_column) self.new }
    {
        for n in numbers {
            self.column(*n);
        }
    }

    // The name of a version word's record type.
    fn name(&mut self, word: u32)
        requires { HasRoom self.old 16 }
        ensures { Puts self.old (text_of (record_type word)) 16 self.new }
    {
        let version = Version::from_u32(word);
        let name = names::name_of(version.record_type as u32);
        self.text(name.as_bytes());
    }

    // A version word, and the space after it.
    fn version(&mut self, word: u32)
        requires { HasRoom self.old 9 }
        ensures { Puts self.old (version_column word) 9 self.new }
    {
        self.hex(word);
        self.text(b" ");
    }

    // A die, or a dash for none, and the space after it.
    fn die(&mut self, die: u32)
        requires { HasRoom self.old most_column }
        ensures { Puts self.old (die_column die) most_column self.new }
    {
        if die == NO_DIE {
            self.text(b"- ");
        } else {
            self.column(die);
        }
    }

    // A row's line.
    fn row(&mut self, row: Span)
        requires { HasRoom self.old most_line }
        ensures { Puts self.old (row_line row) most_line self.new }
    {
        self.columns(&[row.level, row.offset, row.held, row.declared, row.size]);
        self.version(row.word);
        self.column(row.socket);
        self.die(row.die);
        self.name(row.word);
        self.text(b"\n");
    }

    // The lines of a table's first rows.
    pub(crate) fn rows(&mut self, spans: &[u32], rows: usize)
        requires { (rows * width ≤ length spans.now) × HasRoom self.old (rows * most_line) }
        ensures { Puts self.old (lines (spans_in spans.now rows)) (rows * most_line) self.new }
    {
        for i in 0..rows {
            self.row(region_rows::get(spans, i));
        }
    }

    // Whether the listing is whole.
    fn whole(&mut self, whole: bool)
        requires { HasRoom self.old 3 }
        ensures { Puts self.old (yes_no whole) 3 self.new }
    {
        if whole {
            self.text(b"yes");
        } else {
            self.text(b"no");
        }
    }

    // A text and a number in decimal.
    fn count(&mut self, text: &[u8], n: u64)
        requires { HasRoom self.old (length text.now + most_digits) }
        ensures { Puts self.old (text.now ++ decimal n) (length text.now + most_digits) self.new }
    {
        self.text(text);
        self.decimal(n);
    }

    // The last line.
    pub(crate) fn last(&mut self, listing: Listing)
        requires { HasRoom self.old most_last }
        ensures { Puts self.old (last_line listing) most_last self.new }
    {
        self.count(b"rows ", listing.rows as u64);
        self.count(b" tries ", listing.tries);
        self.text(b" whole ");
        self.whole(listing.whole);
        self.count(b" answer ", u32::from(listing.answer) as u64);
        self.text(b"\n");
    }
}
