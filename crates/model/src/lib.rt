// The entries of an accepted file that may take a header, and what befalls one that none takes. What a file's fabric is, is in
// specs/Model.antt.
#![tactic(auto)]

ghost use Rattle.std.specs.Prelude.{true, ◌≡◌, ℕ, ◌<◌, leb};
ghost use Rattle.headers.specs.Sets.{Header};
ghost use Rattle.wide.specs.Forms.{words_of};
ghost use Rattle.forwarding.specs.Best.{candidate};
ghost use Rattle.forwarding.specs.Fabric.{priority_of, outranks};
ghost use Rattle.model.specs.Model.{fabric_in, wide_in};
ghost use Rattle.model.specs.Taking.{AmongEntries, Takes, Better};

use file::Fabric;
use records::MATCH;
use stored::StoredSet;
use wide::WideHeader;

// Does an entry of priority p beat one of priority q at the same in-port? The tie rule stands here, and in `least_above`, alone.
pub fn outranks(p: u32, q: u32) -> bool
    ensures { result ≡ outranks p q }
{
    q < p
}

// The least priority that beats priority q, so that one number tells an entry's beaters.
pub fn least_above(q: u32) -> u32
    requires { q < 65536 }
    ensures { (p : ℕ) → leb result p ≡ outranks p q }
{
    q + 1
}

// Is a packet that no entry takes dropped (OpenFlow 1.3), and not lost?
pub fn miss_drops(fabric: &Fabric) -> bool
    ensures { result ≡ (fabric_in fabric.now.file.now).miss_drops }
{
    records::choice_of(records::word(fabric.file, 0)) == 1
}

// The entries that may take a header: none, one, or several of one priority, the first of which is named.
#[derive(Clone, Copy)]
pub enum Takers {
    Nobody,
    One(usize),
    Several(usize),
}

// Does entry i stand at in-port x, and does its match hold a header h?
fn is_candidate(fabric: &Fabric, x: u32, h: WideHeader, i: usize) -> bool
    requires { i < fabric.now.counts.entries }
    ensures { result ≡ candidate (wide_in fabric.now.file.now) x (words_of h) i }
{
    let e = fabric.entry(i);
    if records::in_port(e) != x {
        return false;
    }
    // `entries::Entry`, which has its match as a method, stands above this crate, whose model of the file it speaks of
    let matches = StoredSet {
        bytes: e,
        at: MATCH,
        version: fabric.counts.version,
    };
    matches.holds(h)
}

fn priority(fabric: &Fabric, i: usize) -> u32
    requires { i < fabric.now.counts.entries }
    ensures { result ≡ priority_of (fabric_in fabric.now.file.now) i }
{
    records::priority(fabric.entry(i))
}

// The highest candidates so far, with entry i, which is one too. A call, so that the search of all entries stays a short loop.
#[inline(never)]
fn better(fabric: &Fabric, i: usize, best: Takers) -> Takers
    requires i_lt_entries { i < fabric.now.counts.entries }
    requires best_lt_entries { AmongEntries fabric.now.counts.entries best }
    ensures { (x : ℕ) (h : Header) → candidate (wide_in fabric.now.file.now) x h i ≡ true
        → Better (wide_in fabric.now.file.now) x h i best result }
{
    match best {
        Takers::Nobody => Takers::One(i),
        Takers::One(at) | Takers::Several(at) => {
            let p = priority(fabric, at);
            let q = priority(fabric, i);
            if outranks(q, p) {
                Takers::One(i)
            } else if outranks(p, q) {
                best
            } else {
                Takers::Several(at)
            }
        }
    }
}

// The entries that may take a header h at in-port x.
pub fn taker(fabric: &Fabric, x: u32, h: WideHeader) -> Takers
    ensures { Takes (wide_in fabric.now.file.now) x (words_of h) result }
{
    let mut best = Takers::Nobody;
    for i in 0..fabric.counts.entries {
        if is_candidate(fabric, x, h, i) {
            best = better(fabric, i, best);
        }
    }
    best
}
