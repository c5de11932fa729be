// The packets that are lost, traced back from every port where a packet can stand (specs/Losses.antt): what the entries there leave of the
// asked set goes on as any part does, by stop and carving.
#![tactic(auto)]

ghost use Rattle.std.specs.Prelude.{◌≡◌, ◌-◌, ◌≤◌};
ghost use Rattle.wide.specs.Forms.{wide_of};
ghost use Rattle.index.specs.Index.{Index};
ghost use Rattle.events.specs.Asked.{floor_of};
ghost use Rattle.backtrace.specs.Cycle.{Tracing, Traced};
ghost use Rattle.events.specs.Pass.{played_then};
ghost use Rattle.losses.specs.Losses.{lost_events, lost_pass_of};

use events::{Ask, Counters, Halt, Mode, Passed};
use file::Fabric;
use index::{CELLS, Place};
use trials::Trace;
use wide::{Query, WideSet};

// One more than the highest port.
const PORTS: usize = records::PORTS as usize;

// Every entry has it, or a higher one.
const ANY_PRIORITY: u32 = 0;

// T18: the asked set t carved by all entries of each edge port and link's end, in rising number of the ports. The path is empty.
fn lost_ports(
    trace: &Trace,
    area: &mut [u8],
    t: WideSet,
    path: &mut [u32; 16],
    counters: &mut Counters,
) -> Result<(), Halt>
    requires { Tracing trace.now.ask 16 path.old counters.old area.old }
    ensures { Traced trace.now.file.now trace.now.ask
        (lost_events trace.now.file.now (16 - floor_of trace.now.ask) (wide_of t))
        counters.old area.old result counters.new area.new }
{
    for port in 0..PORTS {
        if let Place::Nowhere = index::place_at(trace.index, port) {
            continue;
        }
        let first = index::first_in(trace.index, port);
        let b = trials::next_met(trace, ANY_PRIORITY, first, t, counters);
        backtrace::descend(trace, area, port, ANY_PRIORITY, b, t, 16, path, counters)?;
    }
    Ok(())
}

// One pass over the packets that are lost, which are listed. They have made fewer hops than the limit, so one place less is free.
// It begins at every port and without a target, so it is no instance of `passes::pass`.
pub fn lost_pass(fabric: &Fabric, index: &[u16; CELLS], query: &Query, area: &mut [u8]) -> Passed
    requires index { Index fabric.now.file.now index.now }
    requires le_limit { (1 ≤ query.now.limit) × (query.now.limit ≤ 16) }
    ensures { played_then result area.new
        ≡ lost_pass_of fabric.now.file.now query.now.limit query.now.budget (wide_of query.now.asked) area.old }
{
    let ask = Ask {
        budget: query.budget,
        mode: Mode::List,
        floor: 17 - query.limit as usize,
        target: 0,
        group: 0,
        base: entries::entries_at(fabric) as usize,
        version: fabric.counts.version,
    };
    let trace = Trace {
        file: fabric.file,
        ask,
        index,
    };
    let mut path = [0u32; 16];
    let mut counters = Counters { made: 0, words: 0 };
    let ended = lost_ports(&trace, area, query.asked, &mut path, &mut counters);
    Passed { ended, counters }
}
