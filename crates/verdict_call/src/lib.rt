// Document 01's verdict on an accepted fabric: questions 8 to 13 but for a run's question 11, and the answer. It returns the words of its
// answer, or the first question that got a no; after a no every lent byte is as it was.
#![tactic(auto)]

ghost use Rattle.std.specs.Prelude.{◌≡◌, ◌*◌, ◌≤◌, length, ◌^◌, ◌<◌};
ghost use Rattle.answer.specs.Answer.{answer_words, outcome, written_at};
ghost use Rattle.layout.specs.Versions.{header_words};
ghost use Rattle.wide.specs.Forms.{wide_of, Fits};
ghost use Rattle.questions.specs.Refusals.{read_of};
ghost use Rattle.forwarding.specs.Verdict.{isolated};
ghost use Rattle.calls.specs.Codes.{code_of, query_of};
ghost use Rattle.calls.specs.Verdict.{verdict_words, verdict_answer};

use answer::answer_words;
use events::{Halt, Mode};
use file::EdgePorts;
use index::{CELLS, UNUSED};
use layout::Version;
use questions::Refusal;
use wide::Query;

// The words of 'isolated'.
fn put_isolated(area: &mut [u8], version: Version, units: u32)
    requires { 4 * answer_words (header_words version) ≤ length area.old }
    ensures { area.new ≡ written_at 0 (verdict_words (header_words version) (isolated units)) area.old }
{
    // as many as the longer answer has, in an array of a fixed length, as nothing is allocated
    let mut words = [0u32; 28];
    words[1] = units;
    let n = answer_words(version);
    answer::put_words(area, 0, &words[..n]);
}

// The verdict on an accepted file.
pub fn verdict_accepted(edges: &EdgePorts, area: &mut [u8], query: Query) -> Result<u64, Refusal>
    requires { Fits (header_words edges.now.fabric.counts.version) (wide_of query.asked) }
    ensures answers { outcome (code_of result) area.new ≡ verdict_answer edges.now.fabric.file.now
        (query_of edges.now.fabric.counts.version query) (read_of (Ok edges.now.fabric.counts)) area.old }
    ensures few { code_of result < 2 ^ 64 }
{
    let edge = queries::is_edge(edges, query.port);
    queries::trace_asked(edge, &query)?;
    let version = edges.fabric.counts.version;
    let words = answer_words(version);
    if area.len() < 4 * words {
        return Err(Refusal::Room);
    }
    let mut index = [UNUSED; CELLS];
    index::fill(&edges.fabric, &mut index);
    let passed = passes::pass(edges, &index, Mode::Judge, &query, area);
    match passed.ended {
        Ok(()) => {
            put_isolated(area, version, passed.counters.made as u32);
            Ok(words as u64)
        }
        Err(Halt::Reached) => Ok(words as u64),
        Err(Halt::BudgetUsed) => Err(Refusal::Budget),
    }
}
