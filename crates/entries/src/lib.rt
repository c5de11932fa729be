// An entry of an accepted file: its own bytes, and the headers that it takes back to. What is promised stands in specs/Entries.antt.
#![tactic(auto)]

ghost use Rattle.std.specs.Prelude.{◌≡◌, ◌<◌, ◌≤◌, length};
ghost use Rattle.headers.specs.Sets.{overlaps, intersection, undone};
ghost use Rattle.headers.specs.Actions.{met_before};
ghost use Rattle.layout.specs.Records.{match_at, rewrite_at, entry_transfer, EntryLong};
ghost use Rattle.layout.specs.Versions.{header_words};
ghost use Rattle.wide.specs.Forms.{wide_words, wide_of, maybe_wide_of, stored_at, rewrite_stored};
ghost use Rattle.model.specs.Model.{fabric_in, wide_in, entries_at};
ghost use Rattle.entries.specs.Entries.{EntriesFrom, IsEntry, keeps};

use file::Fabric;
use headers::Transfer;
use layout::Version;
use records::MATCH;
use stored::StoredSet;
use wide::WideSet;

// ---- one entry

// The byte at which the entries begin.
pub fn entries_at(fabric: &Fabric) -> u32
    ensures { result ≡ entries_at fabric.now.file.now }
{
    let counts = fabric.counts;
    (4 * records::place(counts.version, counts.edges, counts.links, 0)) as u32
}

// An entry's own bytes.
#[derive(Clone, Copy)]
pub struct Entry<'a> {
    pub bytes: &'a [u8],
    pub version: Version,
    pub ghost long: { EntryLong (header_words version) bytes.now },
}

// Entry e of a file of this version, the entries beginning at byte `base`. They come one by one, since `trials` names the version as a
// constant.
pub fn entry_at<'a>(file: &'a [u8], base: usize, version: Version, e: usize) -> Entry<'a>
    requires entries_from { EntriesFrom file.now base (header_words version) }
    requires e_bound { e < (fabric_in file.now).entries }
    ensures entry { IsEntry file.now e result.bytes.now }
    ensures same_version { result.version ≡ version }
{
    let size = 4 * records::entry_words(version);
    let a = base + e * size;
    Entry {
        bytes: &file[a..a + size],
        version,
    }
}

// Does the match of entry e hold a header of p?
pub fn meets(file: &[u8], base: usize, version: Version, e: usize, p: WideSet) -> bool
    requires entries_from { EntriesFrom file.now base (header_words version) }
    requires e_bound { e < (fabric_in file.now).entries }
    ensures { result ≡ overlaps wide_words (wide_of p) ((wide_in file.now).entry e).matches }
{
    entry_at(file, base, version, e).matches().meets(p)
}

// Does an entry of these bytes neither copy nor swap addresses? It asks for the two words that it reads, so it is no method of an `Entry`.
// By each transfer's name, so that a further one has to say it too.
pub fn keeps(entry: &[u8]) -> bool
    requires { 8 ≤ length entry.now }
    ensures { result ≡ keeps (entry_transfer entry.now) }
{
    match records::transfer(entry) {
        Transfer::Keep => true,
        Transfer::Copy => false,
        Transfer::Swap => false,
    }
}

impl<'a> Entry<'a> {
    // The headers that it may take.
    pub fn matches(&self) -> StoredSet<'a>
        ensures bytes { result.bytes.now ≡ self.now.bytes.now }
        ensures at { result.at ≡ match_at }
        ensures same_version { result.version ≡ self.now.version }
    {
        StoredSet {
            bytes: self.bytes,
            at: MATCH,
            version: self.version,
        }
    }

    // What it writes.
    pub fn rewrite(&self) -> StoredSet<'a>
        ensures bytes { result.bytes.now ≡ self.now.bytes.now }
        ensures at { result.at ≡ rewrite_at (header_words self.now.version) }
        ensures same_version { result.version ≡ self.now.version }
    {
        StoredSet {
            bytes: self.bytes,
            at: records::rewrite_at(self.version),
            version: self.version,
        }
    }

    // ---- taken back, in two steps

    // What its rewrite makes into headers of t.
    pub fn unwritten(&self, t: WideSet) -> Option<WideSet>
        ensures { let w = header_words self.now.version in
            maybe_wide_of result ≡ undone wide_words (rewrite_stored w self.now.bytes.now (rewrite_at w)) (wide_of t) }
    {
        self.rewrite().unwritten(t)
    }

    // The headers of s in its match.
    pub fn met(&self, s: WideSet) -> Option<WideSet>
        ensures { maybe_wide_of result
            ≡ intersection wide_words (wide_of s) (stored_at (header_words self.now.version) self.now.bytes.now match_at) }
    {
        self.matches().intersect(s)
    }

    // The headers in its match that its transfer takes into s.
    pub fn met_before(&self, s: WideSet) -> Option<WideSet>
        ensures { maybe_wide_of result
            ≡ met_before wide_words (stored_at (header_words self.now.version) self.now.bytes.now match_at)
            (entry_transfer self.now.bytes.now) (wide_of s) }
    {
        self.matches().met_before(records::transfer(self.bytes), s)
    }
}
