// A pass of the back-trace: "The first stop is the target with the limit." Document 01, "The back-trace and its count".
#![tactic(auto)]

ghost use Rattle.std.specs.Prelude.{true, ◌≡◌, ◌*◌, ◌≤◌, length};
ghost use Rattle.answer.specs.Answer.{answer_words};
ghost use Rattle.layout.specs.Records.{width_in};
ghost use Rattle.wide.specs.Forms.{wide_of};
ghost use Rattle.model.specs.Model.{fabric_in};
ghost use Rattle.index.specs.Index.{Index};
ghost use Rattle.events.specs.Asked.{mode_number};
ghost use Rattle.events.specs.Pass.{played_then, pass_of};

use events::{Ask, Counters, Mode, Passed};
use file::EdgePorts;
use index::{CELLS, Place};
use trials::Trace;
use wide::Query;

// The group of the edge at a port.
fn group_at(edges: &EdgePorts, port: u32) -> u32
    requires { (fabric_in edges.now.fabric.file.now).is_edge port ≡ true }
    ensures { result ≡ (fabric_in edges.now.fabric.file.now).group port }
{
    let k = edges.at[port as usize];
    records::group(edges.fabric.edge(usize::from(k - 1)))
}

// One pass back from a target, an edge port: the finds are listed or judged, as the mode says. The index is made once for several passes;
// a type of index and fabric would leave a clause to say that its fabric is that of `edges`, so a clause says whose index it is.
pub fn pass(
    edges: &EdgePorts,
    index: &[u16; CELLS],
    mode: Mode,
    query: &Query,
    area: &mut [u8],
) -> Passed
    requires index { Index edges.now.fabric.file.now index.now }
    requires target_value { (fabric_in edges.now.fabric.file.now).is_edge query.now.port ≡ true }
    requires le_limit { (1 ≤ query.now.limit) × (query.now.limit ≤ 16) }
    requires file_in_bounds { mode_number mode ≡ 3 → 4 * answer_words (width_in edges.now.fabric.file.now) ≤ length area.old }
    ensures { played_then result area.new
        ≡ pass_of edges.now.fabric.file.now (mode_number mode) query.now.port query.now.limit query.now.budget
        (wide_of query.now.asked) area.old }
{
    let ask = Ask {
        budget: query.budget,
        mode,
        floor: 16 - query.limit as usize,
        target: query.port,
        group: group_at(edges, query.port),
        base: entries::entries_at(&edges.fabric) as usize,
        version: edges.fabric.counts.version,
    };
    let trace = Trace {
        file: edges.fabric.file,
        ask,
        index,
    };
    let target = Place::Port(query.port as usize);
    let mut path = [0u32; 16];
    let mut counters = Counters { made: 0, words: 0 };
    let ended = backtrace::stop(
        &trace,
        area,
        target,
        query.asked,
        16,
        &mut path,
        &mut counters,
    );
    Passed { ended, counters }
}
