// The calls, of any kind, file and query: document 01's questions asked in turn. `answer` says the first no and its place, and `make`, for
// the host, returns place × 256 + number; after a no every lent byte is as it was. `fabric_c` exports them.
#![tactic(auto)]

ghost use Rattle.std.specs.Prelude.{◌≡◌, ℕ, ◌^◌, ◌<◌};
ghost use Rattle.headers.specs.Sets.{Set};
ghost use Rattle.sets.specs.Forms.{set_of};
ghost use Rattle.answer.specs.Answer.{outcome};
ghost use Rattle.layout.specs.Records.{half};
ghost use Rattle.layout.specs.Versions.{header_words, shape_counted};
ghost use Rattle.wide.specs.Forms.{wide_words, wide_of, narrowed, Fits};
ghost use Rattle.questions.specs.Refusals.{read_of};
ghost use Rattle.questions.specs.Tables.{EdgeTable, StartTable};
ghost use Rattle.file.specs.Accepted.{Accepted};
ghost use Rattle.calls.specs.Codes.{code_of, code_at, query_of};
ghost use Rattle.calls.specs.Questions.{query};
ghost use Rattle.fabric.specs.Calls.{answer_of, call_of, Names};

use file::{EdgePorts, Fabric, LinkPorts, Tables};
use layout::{Counts, Version};
use questions::{No, Refusal};
use sets::HeaderSet;
use wide::{Query, WideSet};

// ---- the calls

// Document 01's calls.
#[derive(Clone, Copy, PartialEq, Eq)]
pub enum Call {
    Verdict,
    List,
    Run,
}

// A number that names no call.
#[derive(Clone, Copy, PartialEq, Eq)]
pub struct UnknownCall(pub u32);

impl TryFrom<u32> for Call {
    type Error = UnknownCall;

    ghost try_from_gives = { Names };

    fn try_from(number: u32) -> Result<Self, UnknownCall> {
        match number {
            1 => Ok(Call::Verdict),
            2 => Ok(Call::List),
            3 => Ok(Call::Run),
            _ => Err(UnknownCall(number)),
        }
    }
}

// A call on an accepted file, by its tables. Which call it is comes from outside as a name or a number, so it is matched here, once.
fn answer_accepted<'a>(
    call: Call,
    file: &'a [u8],
    counts: Counts,
    tables: &'a Tables,
    area: &mut [u8],
    query: Query,
) -> Result<u64, Refusal>
    requires accepted { Accepted file.now (shape_counted counts) }
    requires edge_table { EdgeTable file.now counts.edges tables.now.edges }
    requires start_table { StartTable file.now counts.edges counts.links tables.now.starts }
    requires fits { Fits (header_words counts.version) (wide_of query.asked) }
    ensures answers { outcome (code_of result) area.new ≡ answer_of call file.now
        (query_of counts.version query) (read_of (Ok counts)) area.old }
    ensures few { code_of result < 2 ^ 64 }
{
    let fabric = Fabric { file, counts };
    let edges = EdgePorts {
        fabric,
        at: &tables.edges,
    };
    let links = LinkPorts {
        fabric,
        from: &tables.starts,
    };
    match call {
        Call::Verdict => verdict_call::verdict_accepted(&edges, area, query),
        Call::List => list_call::list_accepted(&edges, area, query),
        Call::Run => run_call::run_accepted(&edges, &links, area, query),
    }
}

// A call on files of this version: questions 1 to 7, then its own. It returns the words of its answer, or the first no.
pub fn answer(
    call: Call,
    file: &[u8],
    version: Version,
    area: &mut [u8],
    query: Query,
) -> Result<u64, No>
    requires { Fits (header_words version) (wide_of query.asked) }
    ensures answers { outcome (code_at result) area.new
        ≡ call_of call (header_words version) file.now (query_of version query) area.old }
    ensures few { code_at result < 2 ^ 64 }
{
    let mut tables = Tables::empty();
    let counts = file::accept(file, version, &mut tables)?;
    answer_accepted(call, file, counts, &tables, area, query).map_err(|refusal| No {
        refusal,
        place: 0,
    })
}

// What a call returns: the words written × 256, or place × 256 + number of the first no.
pub fn coded(answered: Result<u64, No>) -> u64
    requires { code_at answered < 2 ^ 64 }
    ensures { result ≡ code_at answered }
{
    match answered {
        Ok(words) => words * 256,
        Err(no) => no.place as u64 * 256 + no.refusal.number() as u64,
    }
}

// A set that a query asks, of as many words as the headers of its version.
pub trait AskedSet {
    // So many words.
    ghost words: { ℕ };

    // The set that is asked.
    ghost asked: { Self → Set };

    fn version() -> Version
        ensures { header_words result ≡ words };

    // The set as one of eight words, of which only those of the version may be cared for.
    fn wide(self) -> WideSet
        ensures fits { Fits words (wide_of result) }
        ensures narrowed { narrowed words (wide_of result) ≡ asked self };
}

impl AskedSet for HeaderSet {
    ghost words = { half };

    ghost asked = { set_of };

    fn version() -> Version {
        Version::One
    }

    fn wide(self) -> WideSet {
        WideSet::padded(self)
    }
}

impl AskedSet for WideSet {
    ghost words = { wide_words };

    ghost asked = { wide_of };

    fn version() -> Version {
        Version::Two
    }

    fn wide(self) -> WideSet {
        self
    }
}

// A call by its numbers and an asked set, for files of the version that the set has.
pub fn make<S: AskedSet>(
    call: Call,
    file: &[u8],
    area: &mut [u8],
    port: u32,
    limit: u32,
    budget: u32,
    asked: S,
) -> u64
    ensures { outcome result area.new ≡ call_of call S.words file.now
        (query port limit budget (S.asked asked)) area.old }
{
    let query = Query {
        port,
        limit,
        budget,
        asked: asked.wide(),
    };
    coded(answer(call, file, S::version(), area, query))
}
