// The back-trace: document 01, "The back-trace and its count". `stop` and `carve` call each other, by `descend`, and what they promise is
// that they play the events of the trace (specs/Cycle.antt). What is done with an event is in `units` and `finds`, what an entry gives in
// `entries`, and where a part goes next in `trials`.
// They are handed an index of the file, so that they read no entry but those of the chain in hand, and references to the caller's
// path and counters, so that a level of the descent copies neither; they go down one by one, as a struct of them would have to be lent
// anew at each level. What the path, its free places and the room are to each other changes at every level, so clauses say it (`Tracing`).
#![tactic(auto)]

ghost use Rattle.std.specs.Prelude.{◌≡◌, ◌-◌, ◌<◌, set, drop};
ghost use Rattle.wide.specs.Forms.{wide_of};
ghost use Rattle.model.specs.Model.{wide_in};
ghost use Rattle.index.specs.Places.{number_of_place};
ghost use Rattle.entries.specs.Entries.{IsEntry};
ghost use Rattle.events.specs.Asked.{floor_of};
ghost use Rattle.trials.specs.Trials.{Met, ending_said};
ghost use Rattle.backtrace.specs.Cycle.{Tracing, Traced, Kept, IsPlace, Ended, events_at, events_cut, events_after, taken_back};

use carving::Cut;
use entries::Entry;
use events::{Counters, Find, Halt};
use index::Place;
use trials::{Ending, Trace};
use wide::WideSet;

// ---- the path

// Entry e at place k of the path.
fn push(path: &mut [u32; 16], k: usize, e: usize)
    requires { (k < 16) × (e < 512) }
    ensures { path.new ≡ set path.old k e }
{
    path[k] = e as u32;
}

// ---- the cycle

// "carving hands each surviving part back to the stop": a part t that came to stand at `place`, with d places of the path free; those
// from place d on lead from there to the target.
// An entry that neither copies nor swaps addresses goes by itself, which the compiler makes vector code of.
#[cycle(carve_descend_stop)]
pub fn stop(
    trace: &Trace,
    area: &mut [u8],
    place: Place,
    t: WideSet,
    d: usize,
    path: &mut [u32; 16],
    counters: &mut Counters,
) -> Result<(), Halt>
    requires tracing { Tracing trace.now.ask d path.old counters.old area.old }
    requires place { IsPlace trace.now.file.now place }
    ensures traced { Traced trace.now.file.now trace.now.ask
        (events_at trace.now.file.now (number_of_place place) (wide_of t) (d - floor_of trace.now.ask) (drop d path.old))
        counters.old area.old result counters.new area.new }
    ensures kept { Kept d path.old path.new }
{
    let port = match place {
        Place::Nowhere => return Ok(()),
        Place::Port(port) => port,
        Place::Edge(edge) => {
            let find = Find {
                edge,
                set: t,
                way: &path[d..],
            };
            return finds::found(trace.file, &trace.ask, area, &find, counters);
        }
    };
    if d <= trace.ask.floor {
        return Ok(());
    }
    // read once: for all that the compiler knows, counting a unit could change what stands behind a reference
    let Trace {
        file,
        ask,
        index,
        ..
    } = *trace;
    let mut next = index::first_out(index, port);
    while let Some(e) = next {
        units::unit(&ask, counters)?;
        let entry = entries::entry_at(file, ask.base, ask.version, e);
        next = index::next_out(index, e);
        if let Some(s) = entry.unwritten(t) {
            if entries::keeps(entry.bytes) {
                if let Some(p) = entry.met(s) {
                    take_back(trace, area, e, &entry, p, d, path, counters)?;
                }
            } else if let Some(p) = entry.met_before(s) {
                take_back(trace, area, e, &entry, p, d, path, counters)?;
            }
        }
    }
    Ok(())
}

// What entry e takes back, p, is tried against its beaters, with the entry on the path. Inlined, so that it is no further
// level of the descent.
#[cycle(carve_descend_stop)]
#[inline(always)]
fn take_back(
    trace: &Trace,
    area: &mut [u8],
    e: usize,
    entry: &Entry,
    p: WideSet,
    d: usize,
    path: &mut [u32; 16],
    counters: &mut Counters,
) -> Result<(), Halt>
    requires tracing { Tracing trace.now.ask d path.old counters.old area.old }
    requires hop_left { floor_of trace.now.ask < d }
    requires is_entry { IsEntry trace.now.file.now e entry.now.bytes.now }
    ensures traced { Traced trace.now.file.now trace.now.ask
        (taken_back trace.now.file.now e (d - 1 - floor_of trace.now.ask) (drop d path.old) (wide_of p))
        counters.old area.old result counters.new area.new }
    ensures kept { Kept d path.old path.new }
{
    let port = records::in_port(entry.bytes) as usize;
    let least = model::least_above(records::priority(entry.bytes));
    let first = index::first_in(trace.index, port);
    push(path, d - 1, e);
    let b = trials::next_met(trace, least, first, p, counters);
    descend(trace, area, port, least, b, p, d - 1, path, counters)
}

// A part p at an in-port whose trials ended with b: on to the parts that the entry met leaves of it, or back to the stop, if none was met;
// else it says that the budget is used. What is met has at least this priority. The path from place d on begins with the entry that p is
// taken back by.
#[cycle(carve_descend_stop)]
pub fn descend(
    trace: &Trace,
    area: &mut [u8],
    port: usize,
    least: u32,
    b: Ending,
    p: WideSet,
    d: usize,
    path: &mut [u32; 16],
    counters: &mut Counters,
) -> Result<(), Halt>
    requires tracing { Tracing trace.now.ask d path.old counters.old area.old }
    requires port_bound { port < 4096 }
    requires ended { Ended trace.now.file.now trace.now.ask port (wide_of p) counters.old (ending_said b) }
    ensures traced { Traced trace.now.file.now trace.now.ask
        (events_after trace.now.file.now port least (ending_said b) (d - floor_of trace.now.ask) (drop d path.old) (wide_of p))
        counters.old area.old result counters.new area.new }
    ensures kept { Kept d path.old path.new }
{
    match b {
        Ending::Met(b) => carve(trace, area, port, least, b, p, d, path, counters),
        Ending::Past => {
            let place = index::place_at(trace.index, port);
            stop(trace, area, place, p, d, path, counters)
        }
        Ending::Used => Err(Halt::BudgetUsed),
    }
}

// "each part is then tried against the next beater": the parts that entry b, which p meets, leaves of it.
#[cycle(carve_descend_stop)]
fn carve(
    trace: &Trace,
    area: &mut [u8],
    port: usize,
    least: u32,
    b: usize,
    p: WideSet,
    d: usize,
    path: &mut [u32; 16],
    counters: &mut Counters,
) -> Result<(), Halt>
    requires tracing { Tracing trace.now.ask d path.old counters.old area.old }
    requires port_bound { port < 4096 }
    requires met { Met (wide_in trace.now.file.now) port (wide_of p) b }
    ensures traced { Traced trace.now.file.now trace.now.ask
        (events_cut trace.now.file.now port least b (d - floor_of trace.now.ask) (drop d path.old) (wide_of p))
        counters.old area.old result counters.new area.new }
    ensures kept { Kept d path.old path.new }
{
    let entry = entries::entry_at(trace.file, trace.ask.base, trace.ask.version, b);
    let matches = entry.matches();
    let next = index::next_in(trace.index, b);
    let mut cut = Cut::first(&matches, p);
    // no index is counted: each turn makes the cut of the next
    while !cut.is_done() {
        let part = cut.part(&matches);
        // the usual case: this is the last part, and nothing is read after its descent
        if cut.is_last(&matches) {
            let k = trials::next_met(trace, least, next, part, counters);
            return descend(trace, area, port, least, k, part, d, path, counters);
        }
        cut = cut.next(&matches);
        let k = trials::next_met(trace, least, next, part, counters);
        descend(trace, area, port, least, k, part, d, path, counters)?;
    }
    Ok(())
}
