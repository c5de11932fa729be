// The words and the records of document 01's fabric file, read: a record's fields, its own bytes, and where it stands. What they are is in
// crates/layout.
#![tactic(auto)]

ghost use Rattle.std.specs.Prelude.{◌≡◌, ◌+◌, ◌*◌, ◌<◌, ◌≤◌, eqb, length};
ghost use Rattle.sets.specs.Forms.{form_of};
ghost use Rattle.layout.specs.Words.{word_at, words_in, words_from, bytes_from, kind_of, transfer_of, port_of, from_of, rank_of};
ghost use Rattle.layout.specs.Words.{version_of, count_of, choice_of};
ghost use Rattle.layout.specs.Versions.{header_words};
ghost use Rattle.layout.specs.Records.{width_in, set_words, edge_words, rewrite_at, entry_words, half_from, low_from, high_from};
ghost use Rattle.layout.specs.Records.{edge_group, edge_port, entry_priority, entry_in, entry_out, transfer_at, entry_transfer, place_of};
ghost use Rattle.layout.specs.Limits.{most_words};
ghost use Rattle.records.specs.Kinds.{kind_number};

use headers::Transfer;
use layout::{HALF, Version};
use sets::HeaderSet;
use std::array;

// An edge is a word and its admitted set.
pub const ADMITTED: usize = 1;

// An entry is two words, its match and its rewrite.
pub const MATCH: usize = 2;

// Ports are numbers of 12 bits.
pub const PORTS: u32 = 4096;

// A kind, or the number of a transfer, is the four bits above these values.
const BELOW_KIND: u32 = 0x1000_0000;

// The kinds of records, by their numbers.
#[derive(Clone, Copy, PartialEq, Eq)]
pub enum Kind {
    Start = 1,
    Edge,
    Link,
    Entry,
    End,
}

impl Kind {
    // By a name and not as a From, which would need a relation of its own to say what this equation says.
    pub fn number(self) -> u32
        ensures { result ≡ kind_number self }
    {
        self as u32
    }
}

// ---- words

// Word k of the file, or of a part of it.
pub fn word(file: &[u8], k: usize) -> u32
    requires { k < words_in file.now }
    ensures { result ≡ word_at file.now k }
{
    let i = k * 4;
    u32::from_le_bytes([file[i], file[i + 1], file[i + 2], file[i + 3]])
}

pub fn kind_of(w: u32) -> u32
    ensures { result ≡ kind_of w }
{
    w / BELOW_KIND
}

// Is this the first word of a record of this kind?
pub fn is_kind(w: u32, kind: Kind) -> bool
    ensures { result ≡ eqb (kind_of w) (kind_number kind) }
{
    kind_of(w) == kind.number()
}

pub fn version_of(w: u32) -> u32
    ensures { result ≡ version_of w }
{
    w / 0x1_0000 % 0x800
}

pub fn count_of(w: u32) -> u32
    ensures { result ≡ count_of w }
{
    w % 0x1_0000
}

pub fn choice_of(w: u32) -> u32
    ensures { result ≡ choice_of w }
{
    w / 0x800_0000 % 2
}

// The same four bits as a kind's, in another word: document 01 has two fields, and each reads by its name.
pub fn transfer_of(w: u32) -> u32
    ensures { result ≡ transfer_of w }
{
    w / BELOW_KIND
}

pub fn port_of(w: u32) -> u32
    ensures { result ≡ port_of w }
{
    w % PORTS
}

pub fn from_of(w: u32) -> u32
    ensures { result ≡ from_of w }
{
    w / PORTS % PORTS
}

pub fn rank_of(w: u32) -> u32
    ensures { result ≡ rank_of w }
{
    w / PORTS % 0x1_0000
}

// ---- widths, which follow from the file's version

// The version that this file's start says: one that question 2 lets through is 1 or 2.
pub fn version(file: &[u8]) -> Version
    requires { 0 < words_in file.now }
    ensures { header_words result ≡ width_in file.now }
{
    if version_of(word(file, 0)) == 2 {
        Version::Two
    } else {
        Version::One
    }
}

pub fn edge_words(version: Version) -> usize
    ensures { result ≡ edge_words (header_words version) }
{
    ADMITTED + 2 * version.words()
}

pub fn rewrite_at(version: Version) -> usize
    ensures { result ≡ rewrite_at (header_words version) }
{
    MATCH + 2 * version.words()
}

pub fn entry_words(version: Version) -> usize
    ensures { result ≡ entry_words (header_words version) }
{
    MATCH + 4 * version.words()
}

// ---- a set by its halves of four words

pub fn four_at(file: &[u8], k: usize) -> [u32; 4]
    requires { k + 4 ≤ words_in file.now }
    ensures { result ≡ words_from 4 file.now k }
{
    array::from_fn(|i| word(file, k + i))
}

// Four words of care from word k on, and of value as many words later as a header has.
fn half_at(file: &[u8], k: usize, version: Version) -> HeaderSet
    requires { k + header_words version + 4 ≤ words_in file.now }
    ensures { result ≡ form_of (half_from (header_words version) file.now k) }
{
    HeaderSet {
        care: four_at(file, k),
        value: four_at(file, k + version.words()),
    }
}

// The first four words of the set from word k on.
pub fn low_at(file: &[u8], k: usize, version: Version) -> HeaderSet
    requires { k + set_words (header_words version) ≤ words_in file.now }
    ensures { result ≡ form_of (low_from (header_words version) file.now k) }
{
    half_at(file, k, version)
}

// Its last four of eight words; of a set of four words they are wild.
pub fn high_at(file: &[u8], k: usize, version: Version) -> HeaderSet
    requires { k + set_words (header_words version) ≤ words_in file.now }
    ensures { result ≡ form_of (high_from (header_words version) file.now k) }
{
    match version {
        Version::One => HeaderSet::all_wild(),
        Version::Two => half_at(file, k + HALF, version),
    }
}

// ---- where a record stands, and its own bytes

// The first word of the record after e edges, l links and n entries.
pub fn place(version: Version, e: usize, l: usize, n: usize) -> usize
    requires { place_of (header_words version) e l n ≤ most_words }
    ensures { result ≡ place_of (header_words version) e l n }
{
    1 + edge_words(version) * e + l + entry_words(version) * n
}

// The bytes of n words from word k on.
pub fn part<'a>(file: &'a [u8], k: usize, n: usize) -> &'a [u8]
    requires { k + n ≤ words_in file.now }
    ensures { result.now ≡ bytes_from n file.now k }
{
    let a = 4 * k;
    &file[a..a + 4 * n]
}

// ---- the fields of an entry's own bytes: each asks for the two words alone that they stand in, and those of an edge for one, so that
// whoever has the bytes can read them, with or without an `entries::Entry`

pub fn priority(entry: &[u8]) -> u32
    requires { 8 ≤ length entry.now }
    ensures { result ≡ entry_priority entry.now }
{
    rank_of(word(entry, 0))
}

pub fn in_port(entry: &[u8]) -> u32
    requires { 8 ≤ length entry.now }
    ensures { result ≡ entry_in entry.now }
{
    port_of(word(entry, 0))
}

pub fn out_port(entry: &[u8]) -> u32
    requires { 8 ≤ length entry.now }
    ensures { result ≡ entry_out entry.now }
{
    port_of(word(entry, 1))
}

// The transfer with this number. Question 3 asks whether there is one; here every number has its transfer, as in the definition, under
// whose name it stands.
fn transfer_at(number: u32) -> Transfer
    ensures { result ≡ transfer_at number }
{
    match number {
        0 => Transfer::Keep,
        1 => Transfer::Copy,
        _ => Transfer::Swap,
    }
}

pub fn transfer(entry: &[u8]) -> Transfer
    requires { 8 ≤ length entry.now }
    ensures { result ≡ entry_transfer entry.now }
{
    transfer_at(transfer_of(word(entry, 1)))
}

// ---- the fields of an edge's own bytes

pub fn port(edge: &[u8]) -> u32
    requires { 4 ≤ length edge.now }
    ensures { result ≡ edge_port edge.now }
{
    port_of(word(edge, 0))
}

pub fn group(edge: &[u8]) -> u32
    requires { 4 ≤ length edge.now }
    ensures { result ≡ edge_group edge.now }
{
    rank_of(word(edge, 0))
}
