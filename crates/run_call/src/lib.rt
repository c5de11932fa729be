// Document 01's packet run on an accepted fabric: questions 9 to 12, and the answer. It returns the words of its answer, or the first
// question that got a no; after a no every lent byte is as it was.
#![tactic(auto)]

ghost use Rattle.std.specs.Prelude.{◌≡◌, ◌^◌, ◌<◌};
ghost use Rattle.answer.specs.Answer.{outcome};
ghost use Rattle.layout.specs.Versions.{header_words};
ghost use Rattle.wide.specs.Forms.{wide_of, Fits};
ghost use Rattle.questions.specs.Refusals.{read_of};
ghost use Rattle.calls.specs.Codes.{code_of, query_of};
ghost use Rattle.calls.specs.Run.{run_answer};

use answer::answer_words;
use file::{EdgePorts, LinkPorts};
use questions::Refusal;
use record_questions::ask;
use wide::{Query, WideHeader};

// The run of a packet on an accepted file, after questions 9 to 12.
pub fn run_accepted(
    edges: &EdgePorts,
    links: &LinkPorts,
    area: &mut [u8],
    query: Query,
) -> Result<u64, Refusal>
    requires same_file { links.now.fabric.file.now ≡ edges.now.fabric.file.now }
    requires fits { Fits (header_words edges.now.fabric.counts.version) (wide_of query.asked) }
    ensures answers { outcome (code_of result) area.new ≡ run_answer edges.now.fabric.file.now
        (query_of edges.now.fabric.counts.version query) (read_of (Ok edges.now.fabric.counts)) area.old }
    ensures few { code_of result < 2 ^ 64 }
{
    let version = edges.fabric.counts.version;
    let asked = query.asked;
    let tidy = queries::is_clean(asked);
    let all = queries::cares_for_all(version, asked);
    let words = answer_words(version);
    ask(queries::limit_right(query.limit), Refusal::HopLimit)?;
    ask(tidy & all, Refusal::AskedSet)?;
    ask(queries::is_edge(edges, query.port), Refusal::StartPort)?;
    ask(4 * words <= area.len(), Refusal::Room)?;
    let low = asked.low.value;
    let high = asked.high.value;
    let header = WideHeader { low, high };
    let journey = journey::travel(links, query.port, query.limit as usize, header);
    journey::put(area, version, journey);
    Ok(words as u64)
}
