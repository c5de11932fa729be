// A find is listed: its words are counted, and written where there is room. Document 01, the last three paragraphs of "The back-trace and
// its count".
#![tactic(auto)]

ghost use Rattle.std.specs.Prelude.{◌++◌, map, ◌≡◌, ◌+◌, ◌*◌, ◌/◌, ◌^◌, ◌<◌, ◌≤◌, ltb, leb, length};
ghost use Rattle.answer.specs.Answer.{written_at};
ghost use Rattle.layout.specs.Records.{set_words, port_of_edge};
ghost use Rattle.layout.specs.Versions.{header_words};
ghost use Rattle.wide.specs.Forms.{wide_of, narrowed};
ghost use Rattle.file.specs.Accepted.{HasEdge};
ghost use Rattle.events.specs.Play.{goes_on, find_words, too_many, counted_on, listed};
ghost use Rattle.events.specs.Asked.{Way, world_of, find_at};

use events::{Counters, Find};
use layout::Version;
use sets::HeaderSet;
use wide::{WideHeader, WideSet};

// The list's words: kinds 6 and 7 in bits 31..28, hops from bit 12 on. They are only written and never told apart, so they are no enum.
const FIND: u32 = 0x6000_0000;

const ENTRY: u32 = 0x7000_0000;

const HOP: u32 = 0x1000;

// More words than any area holds: the count stays there.
const TOO_MANY: u64 = 0x4000_0000_0000_0000;

// The port of edge k.
pub fn port_at(file: &[u8], k: usize) -> u32
    requires { HasEdge file.now k }
    ensures { result ≡ port_of_edge file.now k }
{
    records::port(file::edge_at(file, k))
}

// The words of a find: one, one for each hop, care and value.
fn words_of(version: Version, hops: usize) -> u64
    requires { hops ≤ 16 }
    ensures { result ≡ 1 + hops + set_words (header_words version) }
{
    (1 + hops + 2 * version.words()) as u64
}

// So many words more are counted.
fn count_words(words: u64, counters: &mut Counters)
    requires { words < 2 ^ 32 }
    ensures made_stays { counters.new.made ≡ counters.old.made }
    ensures words_after { counters.new.words
        ≡ counted_on (ltb counters.old.words too_many) counters.old.words words }
{
    if counters.words < TOO_MANY {
        counters.words += words;
    }
}

// Is there room for so many words at word `at` of the area and on?
fn has_room(area: &[u8], at: u64, words: u64) -> bool
    ensures { result ≡ leb (at + words) (length area.now / 4) }
{
    let room = (area.len() / 4) as u64;
    words <= room && at <= room - words
}

// The entries on the way, "for each entry .. a word of kind 7", at word `at` of the area and on.
fn put_entries(area: &mut [u8], at: usize, way: &[u32])
    requires way { Way way.now }
    requires room { 4 * (at + length way.now) ≤ length area.old }
    ensures { area.new ≡ written_at at (map (λ e. 7 * 2 ^ 28 + e) way.now) area.old }
{
    for (i, e) in way.iter().enumerate() {
        answer::put_word(area, at + i, ENTRY + *e);
    }
}

// Care and value at word `at` of the area and on.
fn put_set(area: &mut [u8], at: usize, version: Version, p: WideSet)
    requires { 4 * (at + set_words (header_words version)) ≤ length area.old }
    ensures { area.new
        ≡ written_at at ((narrowed (header_words version) (wide_of p)).care ++ (narrowed (header_words version) (wide_of p)).value)
        area.old }
{
    let HeaderSet { care, value } = p.low;
    let HeaderSet {
        care: late_care,
        value: late_value,
    } = p.high;
    let cares = WideHeader {
        low: care,
        high: late_care,
    };
    let values = WideHeader {
        low: value,
        high: late_value,
    };
    answer::put_header(area, at, version, cares);
    answer::put_header(area, at + version.words(), version, values);
}

// The words of a find at a port, at word `at` of the area and on.
fn put_find(area: &mut [u8], at: usize, version: Version, port: u32, set: WideSet, way: &[u32])
    requires way { Way way.now }
    requires port_bound { port < 4096 }
    requires room { 4 * (at + (1 + length way.now + set_words (header_words version))) ≤ length area.old }
    ensures { area.new ≡ written_at at
        (find_words (record { port = port; path = way.now; set = narrowed (header_words version) (wide_of set) })) area.old }
{
    let hops = way.len();
    answer::put_word(area, at, FIND + hops as u32 * HOP + port);
    put_entries(area, at + 1, way);
    put_set(area, at + 1 + hops, version, set);
}

// A find is listed: its words are written where there is room for them, and always counted.
pub fn list_find(
    file: &[u8],
    area: &mut [u8],
    version: Version,
    find: &Find,
    counters: &mut Counters,
)
    requires has_edge { HasEdge file.now find.now.edge }
    requires way { Way find.now.way.now }
    ensures { goes_on (world_of counters.new area.new)
        ≡ listed (header_words version) (find_at file.now find.now.edge find.now.way.now (wide_of find.now.set))
        (world_of counters.old area.old) }
{
    let Find { edge, set, way } = *find;
    let at = counters.words;
    let words = words_of(version, way.len());
    count_words(words, counters);
    if has_room(area, at, words) {
        put_find(area, at as usize, version, port_at(file, edge), set, way);
    }
}
