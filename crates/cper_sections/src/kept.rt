// The sections that the descriptors of a CPER tell, and which of them are kept.
ghost use Rattle.std.specs.Prelude.{◌≡◌, ◌+◌, ◌^◌, ◌≤◌, ◌<◌, List, length};
ghost use Rattle.std.specs.Iterator.{YieldsFirst, item_count};
ghost use Rattle.cper_header.specs.Record.{header_size};
ghost use Rattle.cper_descr.specs.Descriptor.{descriptor_size};
ghost use Rattle.cper_sections.specs.declared.kept.Section.{Section};
ghost use Rattle.cper_sections.specs.Sections.{descriptor_at, told, keeps, kept_of};
ghost use Rattle.cper_sections.specs.Steps.{AllWithin, kept_in, NextIndex, NextKept};

use le::LittleEndian;
use std::marker::Model;

// Where the high half of a number of eight bytes starts.
const HIGH: u64 = 4294967296;

// A section: its descriptor's index, its body's offset and length.
#[derive(Clone, Copy, Debug, PartialEq, Eq)]
pub struct Section {
    pub index: usize,
    pub offset: u32,
    pub size: u32,
}

// Where the descriptor with an index stands; past the last one, where the bodies of a normal form start.
pub fn descriptor_at(index: usize) -> usize
    requires { descriptor_at index < 2 ^ 64 }
    ensures { result ≡ descriptor_at index }
{
    cper_header::RECORD_HEADER_SIZE + cper_descr::SECTION_DESCRIPTOR_SIZE * index
}

// The section that the descriptor with an index tells. Its body's offset and length are read as one number, which is one load.
fn section_told(cper: &[u8], index: usize) -> Section
    requires { descriptor_at index + descriptor_size ≤ length cper.now }
    ensures { result ≡ told cper.now index }
{
    let both = u64::read_le(cper, descriptor_at(index) + cper_descr::SECTION_OFFSET_AT);
    Section {
        index,
        offset: (both % HIGH) as u32,
        size: (both / HIGH) as u32,
    }
}

// Whether the section with an index is kept.
fn is_kept(cper: &[u8], index: usize) -> bool
    requires { index < 65536 }
    ensures { result ≡ keeps cper.now index }
{
    if cper.len() < descriptor_at(index) + cper_descr::SECTION_DESCRIPTOR_SIZE {
        return false;
    }
    let section = section_told(cper, index);
    (section.offset as usize) + (section.size as usize) <= cper.len()
}

// The index of the first kept section from an index on, below a count, if there is one.
fn next_index(cper: &[u8], from: usize, count: usize) -> Option<usize>
    requires { count < 65536 }
    ensures { NextIndex cper.now from count result }
{
    for index in from..count {
        if is_kept(cper, index) {
            return Some(index);
        }
    }
    None
}

// The first kept section from an index on, below a count, if there is one.
pub fn next_kept(cper: &[u8], from: usize, count: usize) -> Option<Section>
    requires { count < 65536 }
    ensures { NextKept cper.now from count result }
{
    let index = next_index(cper, from, count)?;
    Some(section_told(cper, index))
}

// The kept sections of a CPER that are still to come, in the order of their descriptors.
#[derive(Drop)]
pub struct Kept<'a> {
    cper: &'a [u8],
    next: usize,
    count: usize,
}

impl<'a> Model for Kept<'a> {
    ghost Value = { List Section };

    ghost view = { λ s. kept_in s.cper.now s.next s.count };

    ghost invariant = { λ s. s.count < 65536 };
}

impl<'a> Kept<'a> {
    // All of them.
    pub fn new(cper: &'a [u8]) -> Kept<'a>
        requires { header_size ≤ length cper.now }
        ensures all { result ≡ kept_of cper.now }
        ensures few { length result < 65536 }
        ensures within { AllWithin cper.now result }
    {
        Kept {
            cper,
            next: 0,
            count: cper_header::section_count(cper) as usize,
        }
    }
}

impl<'a> Iterator for Kept<'a> {
    type Item = Section;

    ghost next_gives = { YieldsFirst (λ s. s) };

    ghost remaining = { item_count (λ s. s) };

    fn next(&mut self) -> Option<Section> {
        let index = next_index(self.cper, self.next, self.count)?;
        self.next = index + 1;
        Some(section_told(self.cper, index))
    }
}
