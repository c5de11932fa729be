// What a trace is asked, what it counts, what it finds and how it ends. No code: what is done with an event of the back-trace is in
// specs/Play.antt, what follows from it in proofs/, and the code that does it in `units`, `listing` and `finds`.
#![tactic(auto)]

use layout::Version;
use wide::WideSet;

// The places of the path: a find's way is its entries from some place on, and an answer has room for all of them.
pub const PLACES: usize = 16;

// What is done with the finds: they are listed, or judged for the verdict.
#[derive(Clone, Copy, PartialEq, Eq)]
pub enum Mode {
    List,
    Judge,
}

// Why a trace ends before it is through: the budget is used, or the verdict is reached.
#[derive(Clone, Copy, PartialEq, Eq)]
pub enum Halt {
    BudgetUsed,
    Reached,
}

// The units made, and the words of the finds.
#[derive(Clone, Copy)]
pub struct Counters {
    pub made: u64,
    pub words: u64,
}

// How a pass ended, and what it counted: by then, where it halts, too. So the counters stand beside a Result, and not in it.
#[derive(Clone, Copy)]
pub struct Passed {
    pub ended: Result<(), Halt>,
    pub counters: Counters,
}

// What a trace is asked, and what it knows of the file. The floor is 16 less the hop limit: with d places of the path free, d less this
// many hops are left. The group is the target's, and the base is the byte at which the entries begin. Clauses alone read the target: a
// ghost field is a fact, and can't be a number.
#[derive(Clone, Copy)]
pub struct Ask {
    pub budget: u32,
    pub mode: Mode,
    pub floor: usize,
    pub target: u32,
    pub group: u32,
    pub base: usize,
    pub version: Version,
}

// A find: the edge by its number, the headers, and the entries on the way from there to the target. That the way has at most 16 entries,
// each of a file, is asked where they are written, by functions that have the way alone too.
#[derive(Clone, Copy)]
pub struct Find<'a> {
    pub edge: usize,
    pub set: WideSet,
    pub way: &'a [u32],
}
