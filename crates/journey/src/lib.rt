// A packet on its way: document 01, "Forwarding".
#![tactic(auto)]

ghost use Rattle.std.specs.Prelude.{[], ◌∷◌, ◌≡◌, ◌*◌, ◌≤◌, ◌<◌, length, MatchOption};
ghost use Rattle.answer.specs.Answer.{answer_words, written_at};
ghost use Rattle.layout.specs.Versions.{header_words};
ghost use Rattle.wide.specs.Forms.{words_of};
ghost use Rattle.forwarding.specs.Run.{takers, miss_fate, run};
ghost use Rattle.model.specs.Model.{fabric_in, wide_in};
ghost use Rattle.journey.specs.Journey.{fate_number, IsJourney, journey_words, fated_words, Hopped};

use file::{Fabric, LinkPorts};
use layout::Version;
use model::Takers;
use stored::StoredSet;
use wide::WideHeader;

// What has become of a packet.
#[derive(Clone, Copy, PartialEq, Eq)]
pub enum Fate {
    Left,
    Dropped,
    Lost,
    Travelling,
    Tied,
}

impl Fate {
    // The fate's number in an answer. By a name and not as a From, which would need a relation of its own to say what this equation says.
    fn number(self) -> u32
        ensures { result ≡ fate_number self }
    {
        self as u32
    }
}

// A packet: its fate, port, header and hops made, and the entries that took it, in an array for 16 hops, as nothing is allocated; an answer
// has all 16, those of no hop as 0.
#[derive(Clone, Copy)]
pub struct Journey {
    pub fate: Fate,
    pub port: u32,
    pub hops: usize,
    pub header: WideHeader,
    pub entries: [u32; 16],
}

impl Journey {
    // The packet where it is, with another fate.
    fn ended(self, fate: Fate) -> Journey
        ensures { result ≡ record self { fate = fate } }
    {
        Journey { fate, ..self }
    }
}

// The to-port of the link from port o, if there is one.
fn link_after(links: &LinkPorts, o: u32) -> Option<u32>
    requires { o < 4096 }
    ensures { MatchOption result
        ((fabric_in links.now.fabric.file.now).link_to o ≡ 0)
        (λ z. (0 < z) × ((fabric_in links.now.fabric.file.now).link_to o ≡ z)) }
{
    let number = usize::from(links.from[o as usize]);
    if number == 0 {
        return None;
    }
    Some(links.fabric.link_to(number - 1))
}

// The fate of a packet that no entry takes.
fn miss_fate(fabric: &Fabric) -> Fate
    ensures { fate_number result ≡ miss_fate (fabric_in fabric.now.file.now) }
{
    if model::miss_drops(fabric) {
        Fate::Dropped
    } else {
        Fate::Lost
    }
}

// The hop of a travelling packet that entry e alone takes.
fn taken(links: &LinkPorts, j: Journey, e: usize) -> Journey
    requires e_lt_entries { e < links.now.fabric.counts.entries }
    requires hops_bound { j.hops < 16 }
    requires travelling { j.fate ≡ Fate.Travelling }
    requires alone { takers (wide_in links.now.fabric.file.now) j.port (words_of j.header) ≡ e ∷ [] }
    ensures { Hopped (wide_in links.now.fabric.file.now) j result }
{
    let x = links.fabric.entry(e);
    let version = links.fabric.counts.version;
    // `entries::Entry`, which has its rewrite as a method, stands beside this crate and not below it
    let rewrite = StoredSet {
        bytes: x,
        at: records::rewrite_at(version),
        version,
    };
    let mut entries = j.entries;
    entries[j.hops] = e as u32;
    let moved = Journey {
        hops: j.hops + 1,
        header: rewrite.applied(records::transfer(x), j.header),
        entries,
        ..j
    };
    let o = records::out_port(x);
    if o == 0 {
        return moved.ended(Fate::Dropped);
    }
    match link_after(links, o) {
        None => Journey {
            fate: Fate::Left,
            port: o,
            ..moved
        },
        Some(z) => Journey { port: z, ..moved },
    }
}

// One hop, if the packet is still travelling.
fn hop(links: &LinkPorts, j: Journey) -> Journey
    requires { j.hops < 16 }
    ensures { Hopped (wide_in links.now.fabric.file.now) j result }
{
    if j.fate != Fate::Travelling {
        return j;
    }
    match model::taker(&links.fabric, j.port, j.header) {
        Takers::Nobody => j.ended(miss_fate(&links.fabric)),
        Takers::One(e) => taken(links, j, e),
        Takers::Several(_) => j.ended(Fate::Tied),
    }
}

// The run of a packet that starts at a port.
pub fn travel(links: &LinkPorts, start: u32, limit: usize, header: WideHeader) -> Journey
    requires { limit ≤ 16 }
    ensures { IsJourney (wide_in links.now.fabric.file.now) (run (wide_in links.now.fabric.file.now) limit start (words_of header)) result }
{
    let mut j = Journey {
        fate: Fate::Travelling,
        port: start,
        hops: 0,
        header,
        entries: [0; 16],
    };
    for _ in 0..limit {
        j = hop(links, j);
    }
    j
}

// The words of a run's answer, in a file of this version.
pub fn put(area: &mut [u8], version: Version, j: Journey)
    requires in_bounds { 4 * answer_words (header_words version) ≤ length area.old }
    requires hops_bound { j.hops ≤ 16 }
    ensures { area.new ≡ written_at 0 (journey_words (header_words version) j) area.old }
{
    put_fated(area, version, j.fate.number(), j);
}

// The same with another number for the fate: any that word 0 is to hold.
pub fn put_fated(area: &mut [u8], version: Version, fate: u32, j: Journey)
    requires in_bounds { 4 * answer_words (header_words version) ≤ length area.old }
    requires hops_bound { j.hops ≤ 16 }
    ensures { area.new ≡ written_at 0 (fated_words (header_words version) fate j) area.old }
{
    answer::put_words(area, 0, &[fate, 0, j.port, j.hops as u32]);
    answer::put_header(area, 4, version, j.header);
    answer::put_words(area, 4 + version.words(), &j.entries);
}
