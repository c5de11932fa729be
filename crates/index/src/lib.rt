// The index of an accepted file, made once a call: see specs/Index.antt.
#![tactic(auto)]

ghost use Rattle.std.specs.Prelude.{◌≡◌, suc, ◌+◌, ◌<◌, get_or, replicate};
ghost use Rattle.index.specs.Chains.{no_entry};
ghost use Rattle.index.specs.Index.{Index, place_at, first_out, first_in, next_out, next_in, ranks, index_long};
ghost use Rattle.index.specs.Building.{no_place, place_after, Placed, Partly, pushed};
ghost use Rattle.index.specs.Places.{number_of_place, IsFormed, chain_number, IsEntry};

use file::Fabric;

// What a cell holds that is not used yet: at the end of a chain it stays. A cell has two bytes, which an Option would double.
pub const UNUSED: u16 = 512;

// The place of the port of edge k is k more than this; every port is less.
const FIRST_EDGE: usize = 4096;

// Where the index's parts after the places begin: the first entry with an out-port, with an in-port, the next entry likewise, and an
// entry's priority. They are one array, so that one predicate, `Index`, says all of it; each part is read by a function of its name, whose
// clause says its cells, where a function of a part's beginning would ask each caller for it.
const FIRST_OUT: usize = 4096;

const FIRST_IN: usize = 8192;

const NEXT_OUT: usize = 12288;

const NEXT_IN: usize = 12800;

const RANKS: usize = 13312;

// How many cells the index has: an array of a fixed length, as nothing is allocated.
pub const CELLS: usize = 13824;

// Where a part at an in-port comes from: from nowhere, from the link that starts at a port, or from an edge by its number.
#[derive(Clone, Copy)]
pub enum Place {
    Nowhere,
    Port(usize),
    Edge(usize),
}

// ---- making the index: what its cells say changes from step to step, so clauses say it

// Place 0, where a part comes from nowhere, at every port.
fn clear_places(index: &mut [u16; CELLS])
    requires { Placed no_place 0 index.old }
    ensures { Placed no_place 4096 index.new }
{
    index[..FIRST_OUT].fill(0);
}

// The places of the edge ports.
fn edge_places(fabric: &Fabric, index: &mut [u16; CELLS])
    requires { Placed no_place 4096 index.old }
    ensures { Placed (place_after fabric.now.file.now fabric.now.counts.edges 0) 4096 index.new }
{
    for k in 0..fabric.counts.edges {
        let port = records::port(fabric.edge(k));
        index[port as usize] = (FIRST_EDGE + k) as u16;
    }
}

// The places of the ports where a link ends, none of which is an edge port.
fn link_places(fabric: &Fabric, index: &mut [u16; CELLS])
    requires { Placed (place_after fabric.now.file.now fabric.now.counts.edges 0) 4096 index.old }
    ensures { Placed (place_at fabric.now.file.now) 4096 index.new }
{
    for l in 0..fabric.counts.links {
        let from = fabric.link_from(l);
        let to = fabric.link_to(l);
        index[to as usize] = from as u16;
    }
}

// The places, over an array that holds 'no entry' everywhere: by the records there are, as ports are many and edges and links few.
fn places(fabric: &Fabric, index: &mut [u16; CELLS])
    requires { Placed no_place 0 index.old }
    ensures { Placed (place_at fabric.now.file.now) 4096 index.new }
{
    clear_places(index);
    edge_places(fabric, index);
    link_places(fabric, index);
}

// Entry e goes to the front of a chain.
fn push(index: &mut [u16; CELLS], first: usize, next: usize, e: usize)
    requires first_lt_index_long { first < index_long }
    requires next_lt_index_long { next < index_long }
    requires e_bound { e < 512 }
    ensures { index.new ≡ pushed index.old first next e }
{
    index[next] = index[first];
    index[first] = e as u16;
}

// Entry e goes to the front of its two chains, and its priority into its cell.
fn chain_entry(fabric: &Fabric, e: usize, index: &mut [u16; CELLS])
    requires e_lt_entries { e < fabric.now.counts.entries }
    requires partly { Partly fabric.now.file.now (suc e) index.old }
    ensures { Partly fabric.now.file.now e index.new }
{
    let x = fabric.entry(e);
    let out = records::out_port(x) as usize;
    let into = records::in_port(x) as usize;
    let rank = records::priority(x);
    push(index, FIRST_OUT + out, NEXT_OUT + e, e);
    push(index, FIRST_IN + into, NEXT_IN + e, e);
    index[RANKS + e] = rank as u16;
}

// The chains, from the last entry to the first, so that each runs in file order.
fn chains(fabric: &Fabric, index: &mut [u16; CELLS])
    requires { Partly fabric.now.file.now fabric.now.counts.entries index.old }
    ensures { Index fabric.now.file.now index.new }
{
    for e in (0..fabric.counts.entries).rev() {
        chain_entry(fabric, e, index);
    }
}

// The index of an accepted file, made in the caller's array, in which no cell is used yet.
pub fn fill(fabric: &Fabric, index: &mut [u16; CELLS])
    requires { index.old ≡ replicate index_long no_entry }
    ensures { Index fabric.now.file.now index.new }
{
    places(fabric, index);
    chains(fabric, index);
}

// ---- reading the index: ports and entries are plain numbers where they come from, so each call asks that they are in range

// What the cell of a place says, and that the place is formed. A From would need a relation of its own to say these two clauses.
fn place_of(cell: u16) -> Place
    ensures value { number_of_place result ≡ cell }
    ensures formed { IsFormed result }
{
    let number = usize::from(cell);
    if number == 0 {
        Place::Nowhere
    } else if number < FIRST_EDGE {
        Place::Port(number)
    } else {
        Place::Edge(number - FIRST_EDGE)
    }
}

// What a cell of a chain says, and that it is no entry past the last. Inlined, so that trials test the cell: a select of the Option's
// value would stand between one entry of the chain and the next.
#[inline(always)]
fn entry_of(cell: u16) -> Option<usize>
    ensures value { chain_number result ≡ cell }
    ensures entry { IsEntry result }
{
    if cell == UNUSED {
        None
    } else {
        Some(usize::from(cell))
    }
}

// Where a part at this in-port comes from.
pub fn place_at(index: &[u16; CELLS], port: usize) -> Place
    requires { port < 4096 }
    ensures value { number_of_place result ≡ get_or index.now port 0 }
    ensures formed { IsFormed result }
{
    place_of(index[port])
}

// The first entry with this out-port.
pub fn first_out(index: &[u16; CELLS], port: usize) -> Option<usize>
    requires { port < 4096 }
    ensures value { chain_number result ≡ get_or index.now (first_out + port) 0 }
    ensures entry { IsEntry result }
{
    entry_of(index[FIRST_OUT + port])
}

// The first entry with this in-port.
pub fn first_in(index: &[u16; CELLS], port: usize) -> Option<usize>
    requires { port < 4096 }
    ensures value { chain_number result ≡ get_or index.now (first_in + port) 0 }
    ensures entry { IsEntry result }
{
    entry_of(index[FIRST_IN + port])
}

// The next entry with the out-port of entry e.
pub fn next_out(index: &[u16; CELLS], e: usize) -> Option<usize>
    requires { e < 512 }
    ensures value { chain_number result ≡ get_or index.now (next_out + e) 0 }
    ensures entry { IsEntry result }
{
    entry_of(index[NEXT_OUT + e])
}

// The next entry with the in-port of entry e.
#[inline(always)]
pub fn next_in(index: &[u16; CELLS], e: usize) -> Option<usize>
    requires { e < 512 }
    ensures value { chain_number result ≡ get_or index.now (next_in + e) 0 }
    ensures entry { IsEntry result }
{
    entry_of(index[NEXT_IN + e])
}

// The priority of entry e.
pub fn rank(index: &[u16; CELLS], e: usize) -> u32
    requires { e < 512 }
    ensures { result ≡ get_or index.now (ranks + e) 0 }
{
    u32::from(index[RANKS + e])
}
