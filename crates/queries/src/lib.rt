// Questions 8 to 11, which are of a query on an accepted fabric (specs/Queries.antt): each answer, and those that verdict and list ask
// first.
#![tactic(auto)]

ghost use Rattle.std.specs.Prelude.{◌≡◌};
ghost use Rattle.layout.specs.Versions.{header_words};
ghost use Rattle.wide.specs.Forms.{wide_words, wide_of, narrowed};
ghost use Rattle.questions.specs.Questions.{clean, first_no};
ghost use Rattle.questions.specs.Refusals.{number_in};
ghost use Rattle.model.specs.Model.{fabric_in};
ghost use Rattle.queries.specs.Queries.{limit_right, cares_for_all, list_target, trace_questions};

use file::EdgePorts;
use layout::Version;
use questions::Refusal;
use record_questions::ask;
use wide::{Query, WideSet};

// Every bit of a word, and every bit of word 7 that may be cared for.
const ALL: u32 = 0xffff_ffff;

const ALL_BUT_SPARE: u32 = 0xffff_ff00;

pub fn limit_right(limit: u32) -> bool
    ensures { result ≡ limit_right limit }
{
    (1..=16).contains(&limit)
}

// Are all bits cared for, but for the last eight of eight words?
pub fn cares_for_all(version: Version, s: WideSet) -> bool
    ensures { result ≡ cares_for_all (header_words version) (narrowed (header_words version) (wide_of s)) }
{
    s.low.care == [ALL; 4]
        && match version {
            Version::One => true,
            Version::Two => s.high.care == [ALL, ALL, ALL, ALL_BUT_SPARE],
        }
}

// Is the port an edge's? By the table of edges.
pub fn is_edge(edges: &EdgePorts, port: u32) -> bool
    ensures { result ≡ (fabric_in edges.now.fabric.file.now).is_edge port }
{
    let at = edges.at;
    match at.get(port as usize) {
        Some(number) => 0 < *number,
        None => false,
    }
}

// Is the asked value zero outside its care, and are the last eight bits of eight words?
pub fn is_clean(asked: WideSet) -> bool
    ensures { result ≡ clean wide_words (wide_of asked) }
{
    asked.low.is_tidy() && record_questions::clean_high(asked.high)
}

// Is the target right for a list? Target 0 asks for the packets that are lost, which there are not where they are dropped.
pub fn list_target(edges: &EdgePorts, target: u32) -> bool
    ensures { result ≡ list_target (fabric_in edges.now.fabric.file.now) target }
{
    is_edge(edges, target) || (target == 0 && !model::miss_drops(&edges.fabric))
}

// Questions 8, 9 and 10, which verdict and list ask first. The first is whether the target is right.
pub fn trace_asked(right: bool, query: &Query) -> Result<(), Refusal>
    ensures { number_in result ≡ first_no (trace_questions wide_words right query.now.limit (wide_of query.now.asked)) }
{
    ask(right, Refusal::Target)?;
    ask(limit_right(query.limit), Refusal::HopLimit)?;
    ask(is_clean(query.asked), Refusal::AskedSet)
}
