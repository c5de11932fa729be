// The fabric file of document 01, read record by record: questions 1 to 7, and the records of an accepted file. What is asked stands in
// the crate `questions`, what a record's bytes say in `records`. What follows for an accepted file is in proofs/Accepted.antt.
#![tactic(auto)]

ghost use Rattle.std.specs.Prelude.{◌≡◌, ◌<◌, ◌≤◌, MatchResult, IfOk};
ghost use Rattle.layout.specs.Words.{word_at, words_in};
ghost use Rattle.layout.specs.Records.{width_in, place_in, from_of_link, to_of_link, edge_bytes, entry_bytes};
ghost use Rattle.layout.specs.Versions.{header_words, shape_counted};
ghost use Rattle.questions.specs.Questions.{accepted};
ghost use Rattle.questions.specs.Tables.{EdgeTable, StartTable, EndTable};
ghost use Rattle.questions.specs.Reading.{Bounded};
ghost use Rattle.questions.specs.Refusals.{read_of};
ghost use Rattle.file.specs.Tables.{Empty, Tabled};
ghost use Rattle.file.specs.Accepted.{Accepted, HasEdge};
ghost use Rattle.file.specs.Reading.{RunRead, Refused, rest};

use layout::{Counts, Version};
use questions::{No, Refusal};
use records::Kind;

// By one more than its number: which edge has a port, which link starts there and which link ends there; 0 for none, where an
// Option would double a cell. They are arrays of a fixed length, as nothing is allocated, and are filled where they stand, so clauses say
// that they are empty before.
#[derive(Drop)]
pub struct Tables {
    pub edges: [u16; 4096],
    pub starts: [u16; 4096],
    pub ends: [u16; 4096],
}

impl Tables {
    pub fn empty() -> Self
        ensures edges { Empty result.edges }
        ensures starts { Empty result.starts }
        ensures ends { Empty result.ends }
    {
        Tables {
            edges: [0; 4096],
            starts: [0; 4096],
            ends: [0; 4096],
        }
    }
}

// An accepted file, and its counts.
#[derive(Clone, Copy)]
pub struct Fabric<'a> {
    pub file: &'a [u8],
    pub counts: Counts,
    ghost accepted: { Accepted file.now (shape_counted counts) },
}

// With the table of its edges by their ports.
#[derive(Clone, Copy)]
pub struct EdgePorts<'a> {
    pub fabric: Fabric<'a>,
    pub at: &'a [u16; 4096],
    ghost table: { EdgeTable fabric.file.now fabric.counts.edges at.now },
}

// With the table of its links by the ports that they start from.
#[derive(Clone, Copy)]
pub struct LinkPorts<'a> {
    pub fabric: Fabric<'a>,
    pub from: &'a [u16; 4096],
    ghost table: { StartTable fabric.file.now fabric.counts.edges fabric.counts.links from.now },
}

// ---- the records of each kind, each run with how many got yeses. A record's number and its place go up by different steps, so each
// run is a `while`. That a file is bounded and has this version is known from questions 1 and 2 to the end of the records, in these four
// functions alone; a type for it would be taken apart again at each record, whose questions ask for less. So clauses say it.
// A refusal gets its place by `if let`: with `map_err` it would come to the run by a closure's clauses.

// The edges, from word 1 on, each numbered at its port.
fn edges(file: &[u8], version: Version, edge_of: &mut [u16; 4096]) -> Result<usize, No>
    requires version_is { header_words version ≡ width_in file.now }
    requires bounded { Bounded file.now }
    requires empty { Empty edge_of.old }
    ensures run_read { MatchResult result (λ e. RunRead file.now 2 0 0 0 e 0 0 0) (λ first. Refused file.now 0 0 0 first) }
    ensures edge_table { IfOk result (λ e. EdgeTable file.now e edge_of.new) }
{
    let words = file.len() / 4;
    let mut e: usize = 0;
    let mut at: usize = 1;
    let mut last: u32 = 0;
    while at < words {
        let w = records::word(file, at);
        if !records::is_kind(w, Kind::Edge) {
            return Ok(e);
        }
        if let Err(refusal) = record_questions::edge_asked(file, version, at, w, last, e) {
            return Err(No {
                refusal,
                place: at as u32,
            });
        }
        last = records::port_of(w);
        e += 1;
        edge_of[last as usize] = e as u16;
        at += records::edge_words(version);
    }
    Ok(e)
}

// The links after e edges, each numbered where it starts and where it ends.
fn links(
    file: &[u8],
    version: Version,
    edge_of: &[u16; 4096],
    starts: &mut [u16; 4096],
    ends: &mut [u16; 4096],
    e: usize,
) -> Result<usize, No>
    requires version_is { header_words version ≡ width_in file.now }
    requires bounded { Bounded file.now }
    requires e_bound { place_in file.now e 0 0 ≤ words_in file.now }
    requires edge_table { EdgeTable file.now e edge_of.now }
    requires empty { Empty starts.old }
    requires empty_2 { Empty ends.old }
    ensures run_read { MatchResult result (λ l. RunRead file.now 3 e 0 0 e l 0 0) (λ first. Refused file.now e 0 0 first) }
    ensures start_table { IfOk result (λ l. StartTable file.now e l starts.new) }
    ensures end_table { IfOk result (λ l. EndTable file.now e l ends.new) }
{
    let words = file.len() / 4;
    let mut l: usize = 0;
    let mut at = records::place(version, e, 0, 0);
    let mut last: u32 = 0;
    while at < words {
        let w = records::word(file, at);
        if !records::is_kind(w, Kind::Link) {
            return Ok(l);
        }
        if let Err(refusal) = record_questions::link_asked(file, w, last, e, l, edge_of, ends) {
            return Err(No {
                refusal,
                place: at as u32,
            });
        }
        last = records::from_of(w);
        let to = records::port_of(w);
        l += 1;
        starts[last as usize] = l as u16;
        ends[to as usize] = l as u16;
        at += 1;
    }
    Ok(l)
}

// The entries after e edges and l links.
fn entries(file: &[u8], version: Version, e: usize, l: usize) -> Result<usize, No>
    requires version_is { header_words version ≡ width_in file.now }
    requires bounded { Bounded file.now }
    requires l_bound { place_in file.now e l 0 ≤ words_in file.now }
    ensures { MatchResult result (λ n. RunRead file.now 4 e l 0 e l n 0) (λ first. Refused file.now e l 0 first) }
{
    // how many entries a port has, in an array of a fixed length, as nothing is allocated
    let mut counts = [0u8; 4096];
    let words = file.len() / 4;
    let mut n: usize = 0;
    let mut at = records::place(version, e, l, 0);
    while at < words {
        let w = records::word(file, at);
        if !records::is_kind(w, Kind::Entry) {
            return Ok(n);
        }
        if let Err(refusal) = entry_questions::entry_asked(file, version, at, w, e, l, n, &counts) {
            return Err(No {
                refusal,
                place: at as u32,
            });
        }
        let port = records::port_of(w) as usize;
        counts[port] += 1;
        n += 1;
        at += records::entry_words(version);
    }
    Ok(n)
}

// ---- all of the questions

// The records after the start.
fn records(file: &[u8], version: Version, tables: &mut Tables) -> Result<Counts, No>
    requires version_is { header_words version ≡ width_in file.now }
    requires bounded { Bounded file.now }
    requires edges { Empty tables.old.edges }
    requires starts { Empty tables.old.starts }
    requires ends { Empty tables.old.ends }
    ensures value { read_of result ≡ rest file.now 0 0 0 }
    ensures tabled { Tabled file.now (read_of result) tables.new.edges tables.new.starts tables.new.ends }
{
    let e = edges(file, version, &mut tables.edges)?;
    let l = links(
        file,
        version,
        &tables.edges,
        &mut tables.starts,
        &mut tables.ends,
        e,
    )?;
    let n = entries(file, version, e, l)?;
    let at = records::place(version, e, l, n);
    if !record_questions::ends_at(file, at) {
        return Err(No {
            refusal: Refusal::Order,
            place: at as u32,
        });
    }
    Ok(Counts {
        version,
        edges: e,
        links: l,
        entries: n,
    })
}

// Questions 1 to 7, in a call for a version. The tables come in empty; of an accepted file they then have its edges and links.
pub fn accept(file: &[u8], version: Version, tables: &mut Tables) -> Result<Counts, No>
    requires edges { Empty tables.old.edges }
    requires starts { Empty tables.old.starts }
    requires ends { Empty tables.old.ends }
    ensures value { read_of result ≡ accepted (header_words version) file.now }
    ensures tabled { Tabled file.now (read_of result) tables.new.edges tables.new.starts tables.new.ends }
{
    if !file_questions::sized(file, version) {
        return Err(No {
            refusal: Refusal::Size,
            place: 0,
        });
    }
    if !file_questions::started(file, version) {
        return Err(No {
            refusal: Refusal::Start,
            place: 0,
        });
    }
    records(file, version, tables)
}

// ---- records of an accepted file

impl<'a> Fabric<'a> {
    // Entry i's own bytes of the file.
    pub fn entry(&self, i: usize) -> &'a [u8]
        requires { i < self.now.counts.entries }
        ensures { result.now ≡ entry_bytes self.now.file.now (shape_counted self.now.counts) i }
    {
        let counts = self.counts;
        records::part(
            self.file,
            records::place(counts.version, counts.edges, counts.links, i),
            records::entry_words(counts.version),
        )
    }

    // Edge i's own bytes of the file.
    pub fn edge(&self, i: usize) -> &'a [u8]
        requires { i < self.now.counts.edges }
        ensures { result.now ≡ edge_bytes self.now.file.now i }
    {
        let version = self.counts.version;
        records::part(
            self.file,
            records::place(version, i, 0, 0),
            records::edge_words(version),
        )
    }

    // The word of link i.
    fn link(&self, i: usize) -> u32
        requires { i < self.now.counts.links }
        ensures { result ≡ word_at self.now.file.now (place_in self.now.file.now self.now.counts.edges i 0) }
    {
        records::word(
            self.file,
            records::place(self.counts.version, self.counts.edges, i, 0),
        )
    }

    // The from-port of link i. It and the to-port are two fields of the same word, each read by its name.
    pub fn link_from(&self, i: usize) -> u32
        requires { i < self.now.counts.links }
        ensures { result ≡ from_of_link self.now.file.now self.now.counts.edges i }
    {
        records::from_of(self.link(i))
    }

    // The to-port of link i.
    pub fn link_to(&self, i: usize) -> u32
        requires { i < self.now.counts.links }
        ensures { result ≡ to_of_link self.now.file.now self.now.counts.edges i }
    {
        records::port_of(self.link(i))
    }
}

// Edge i's own bytes of an accepted file whose counts are not at hand: a find has an edge's number and no more.
pub fn edge_at<'a>(file: &'a [u8], i: usize) -> &'a [u8]
    requires { HasEdge file.now i }
    ensures { result.now ≡ edge_bytes file.now i }
{
    let version = records::version(file);
    records::part(
        file,
        records::place(version, i, 0, 0),
        records::edge_words(version),
    )
}
