// Document 01's list on an accepted fabric: questions 8 to 10, 13 and 12, and the answer. It returns the words of its answer, or the first
// question that got a no; after a no every lent byte is as it was.
#![tactic(auto)]

ghost use Rattle.std.specs.Prelude.{true, ◌++◌, ◌≡◌, ◌*◌, ◌≤◌, length, take, drop, ◌^◌, ◌<◌};
ghost use Rattle.answer.specs.Answer.{outcome};
ghost use Rattle.layout.specs.Records.{width_in};
ghost use Rattle.layout.specs.Versions.{header_words};
ghost use Rattle.wide.specs.Forms.{wide_of, Fits};
ghost use Rattle.questions.specs.Refusals.{read_of};
ghost use Rattle.model.specs.Model.{fabric_in, wide_in};
ghost use Rattle.index.specs.Index.{Index};
ghost use Rattle.events.specs.Pass.{played_then};
ghost use Rattle.queries.specs.Queries.{list_target};
ghost use Rattle.calls.specs.Codes.{code_of, query_of, wide_query};
ghost use Rattle.calls.specs.List.{list_pass_of, list_answer};

use events::{Mode, Passed};
use file::EdgePorts;
use index::{CELLS, UNUSED};
use questions::Refusal;
use wide::Query;

// The words that the list's own bytes hold.
const OWN_WORDS: usize = 4096;

const OWN_BYTES: usize = 4 * OWN_WORDS;

// The first words of those in `own` are copied to the area.
fn copy_words(area: &mut [u8], own: &[u8], words: usize)
    requires { (4 * words ≤ length area.old) × (4 * words ≤ length own.now) }
    ensures { area.new ≡ take (4 * words) own.now ++ drop (4 * words) area.old }
{
    let bytes = 4 * words;
    area[..bytes].copy_from_slice(&own[..bytes]);
}

// A pass over the finds at an edge port, or over the packets that are lost: a target is a word of the query, and 0 asks for these.
#[tactic(auto, using(queries::proofs::Targets::edge_asked, queries::proofs::Targets::edge_traced))]
fn list_pass(edges: &EdgePorts, index: &[u16; CELLS], query: &Query, area: &mut [u8]) -> Passed
    requires index { Index edges.now.fabric.file.now index.now }
    requires target { list_target (fabric_in edges.now.fabric.file.now) query.now.port ≡ true }
    requires limit { (1 ≤ query.now.limit) × (query.now.limit ≤ 16) }
    ensures { played_then result area.new
        ≡ list_pass_of (width_in edges.now.fabric.file.now) (wide_in edges.now.fabric.file.now)
        (wide_query query.now) area.old }
{
    if query.port == 0 {
        return losses::lost_pass(&edges.fabric, index, query, area);
    }
    passes::pass(edges, index, Mode::List, query, area)
}

// The list on an accepted file, after questions 8 to 10. No lent byte may change before questions 13 and 12 got a yes, so the trace
// writes to bytes of its own, from which the words are copied; a list that they don't hold is traced again.
pub fn list_accepted(edges: &EdgePorts, area: &mut [u8], query: Query) -> Result<u64, Refusal>
    requires { Fits (header_words edges.now.fabric.counts.version) (wide_of query.asked) }
    ensures answers { outcome (code_of result) area.new ≡ list_answer edges.now.fabric.file.now
        (query_of edges.now.fabric.counts.version query) (read_of (Ok edges.now.fabric.counts)) area.old }
    ensures few { code_of result < 2 ^ 64 }
{
    let right = queries::list_target(edges, query.port);
    queries::trace_asked(right, &query)?;
    let mut index = [UNUSED; CELLS];
    index::fill(&edges.fabric, &mut index);
    let mut own = [0u8; OWN_BYTES];
    let counted = list_pass(edges, &index, &query, &mut own);
    if counted.ended.is_err() {
        return Err(Refusal::Budget);
    }
    let room = (area.len() / 4) as u64;
    let words = counted.counters.words;
    if room < words {
        return Err(Refusal::Room);
    }
    if words <= OWN_WORDS as u64 {
        copy_words(area, &own, words as usize);
        return Ok(words);
    }
    list_pass(edges, &index, &query, area);
    Ok(words)
}
