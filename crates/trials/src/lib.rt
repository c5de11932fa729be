// A part tried against the entries of an in-port, in file order, until it meets one: specs/Trials.antt. So carving goes straight on to the
// next beater that a part meets, and the beaters passed over cost a unit and nothing else.
#![tactic(auto)]

ghost use Rattle.std.specs.Prelude.{◌≡◌};
ghost use Rattle.wide.specs.Forms.{wide_of};
ghost use Rattle.model.specs.Model.{fabric_in, wide_in};
ghost use Rattle.index.specs.Index.{Index};
ghost use Rattle.index.specs.Places.{chain_number, IsEntry};
ghost use Rattle.entries.specs.Entries.{OfChain};
ghost use Rattle.events.specs.Asked.{Asked, Asked-prop, budget_of};
ghost use Rattle.trials.specs.Trials.{number_of, ending_said, ending_number_of, answer_of, trials_from, NextMet};

use events::{Ask, Counters, Halt};
use index::CELLS;
use layout::Version;
use wide::WideSet;

// What a trace goes by: an accepted file, what is asked of it, and its index.
#[derive(Clone, Copy)]
pub struct Trace<'a> {
    pub file: &'a [u8],
    pub ask: Ask,
    pub index: &'a [u16; CELLS],
    pub ghost asked: { Asked file.now ask } by { Asked-prop file.now ask },
    pub ghost indexed: { Index file.now index.now },
}

// How trials end: at the entry that the part meets, past the last one, or where the budget has no unit for the next. It comes back in
// registers; a Result of an Option itself goes through memory, and misses a bar of speed that this meets (docs/DESIGN-PASS.md).
#[derive(Clone, Copy)]
pub enum Ending {
    Met(usize),
    Past,
    Used,
}

impl Ending {
    // The entry that is met, if there is one; or that the trace ends.
    #[inline(always)]
    pub fn entry(self) -> Result<Option<usize>, Halt>
        ensures { result ≡ answer_of (ending_said self) }
    {
        match self {
            Ending::Met(b) => Ok(Some(b)),
            Ending::Past => Ok(None),
            Ending::Used => Err(Halt::BudgetUsed),
        }
    }
}

// The trials of `next_met`, in a file of this version.
fn tried(
    trace: &Trace,
    version: Version,
    least: u32,
    j: Option<usize>,
    p: WideSet,
    counters: &mut Counters,
) -> Ending
    requires own_version { version ≡ trace.now.ask.version }
    requires of_chain { OfChain (fabric_in trace.now.file.now).entries (chain_number j) }
    requires entry { IsEntry j }
    ensures answered { NextMet
        (trials_from (wide_in trace.now.file.now) (budget_of trace.now.ask) least (chain_number j) (wide_of p) counters.old.made)
        counters.old (answer_of (ending_said result)) counters.new }
    ensures number_is { ending_number_of result ≡ number_of
        (trials_from (wide_in trace.now.file.now) (budget_of trace.now.ask) least (chain_number j) (wide_of p) counters.old.made).ending }
{
    // read once: for all that the compiler knows, counting a unit could change what stands behind a reference
    let Trace {
        file,
        ask,
        index,
        ..
    } = *trace;
    let Some(mut b) = j else {
        return Ending::Past;
    };
    // no `while let`: with the test where the next entry is read, the compiler tests the cell (`index::next_in`), which is a tenth faster
    loop {
        if least <= index::rank(index, b) {
            if units::unit(&ask, counters).is_err() {
                return Ending::Used;
            }
            if entries::meets(file, ask.base, version, b, p) {
                return Ending::Met(b);
            }
        }
        let Some(next) = index::next_in(index, b) else {
            return Ending::Past;
        };
        b = next;
    }
}

// The first entry that p meets, of those at the in-port of entry j, from j on, of this priority or higher; a unit for each one tried.
pub fn next_met(
    trace: &Trace,
    least: u32,
    j: Option<usize>,
    p: WideSet,
    counters: &mut Counters,
) -> Ending
    requires of_chain { OfChain (fabric_in trace.now.file.now).entries (chain_number j) }
    requires entry { IsEntry j }
    ensures answered { NextMet
        (trials_from (wide_in trace.now.file.now) (budget_of trace.now.ask) least (chain_number j) (wide_of p) counters.old.made)
        counters.old (answer_of (ending_said result)) counters.new }
    ensures number_is { ending_number_of result ≡ number_of
        (trials_from (wide_in trace.now.file.now) (budget_of trace.now.ask) least (chain_number j) (wide_of p) counters.old.made).ending }
{
    // a version that the compiler knows is faster
    match trace.ask.version {
        Version::One => tried(trace, Version::One, least, j, p, counters),
        Version::Two => tried(trace, Version::Two, least, j, p, counters),
    }
}
