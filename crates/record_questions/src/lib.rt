// Questions 3 to 7 of an edge or a link, after the records that passed, and of the end; and how questions are asked in turn. Those of an
// entry are in `entry_questions`. What came before a record is another with each record, so clauses say it (`Here`).
#![tactic(auto)]

ghost use Rattle.std.specs.Prelude.{◌≡◌, ◌+◌, ◌≤◌};
ghost use Rattle.sets.specs.Forms.{set_of};
ghost use Rattle.layout.specs.Words.{words_in};
ghost use Rattle.layout.specs.Records.{width_in, set_words, set_from, place_in, port_of_edge, from_of_link, recent};
ghost use Rattle.layout.specs.Versions.{header_words};
ghost use Rattle.questions.specs.Questions.{pick, latest, clean, clean_high};
ghost use Rattle.questions.specs.Tables.{EdgeTable, EndTable};
ghost use Rattle.questions.specs.Reading.{Here, asked_at, ends_at};
ghost use Rattle.questions.specs.Refusals.{number, number_in};

use layout::Version;
use questions::Refusal;
use records::ADMITTED;
use sets::HeaderSet;

// ---- questions in turn

// What a question gives, whatever that is: what comes later if it got a yes, else its no.
pub fn in_turn<T: Copy>(yes: bool, later: T, no: T) -> T
    ensures { result ≡ pick yes later no }
{
    if yes { later } else { no }
}

// A question that got a yes, or its refusal.
pub fn ask(yes: bool, refusal: Refusal) -> Result<(), Refusal>
    ensures { number_in result ≡ pick yes 0 (number refusal) }
{
    in_turn(yes, Ok(()), Err(refusal))
}

// ---- questions 3 to 7 of one record

// Of the last four of eight words: are value bits zero outside care, and the last eight bits of care?
pub fn clean_high(s: HeaderSet) -> bool
    ensures { result ≡ clean_high (set_of s) }
{
    let c = s.care;
    s.is_tidy() & (c[3] % 256 == 0)
}

// The same of the set from word k on.
pub fn clean_at(file: &[u8], k: usize, version: Version) -> bool
    requires { k + set_words (header_words version) ≤ words_in file.now }
    ensures { result ≡ clean (header_words version) (set_from (header_words version) file.now k) }
{
    let tidy = records::low_at(file, k, version).is_tidy();
    match version {
        Version::One => tidy,
        Version::Two => tidy & clean_high(records::high_at(file, k, version)),
    }
}

// An edge with first word w, after e edges, of which the last has the port `last`.
pub fn edge_asked(
    file: &[u8],
    version: Version,
    at: usize,
    w: u32,
    last: u32,
    e: usize,
) -> Result<(), Refusal>
    requires version_is { header_words version ≡ width_in file.now }
    requires here { Here file.now e 0 0 2 w }
    requires at_value { at ≡ place_in file.now e 0 0 }
    requires last_value { last ≡ latest (recent (port_of_edge file.now) e) }
    ensures { number_in result ≡ asked_at file.now e 0 0 }
{
    let room = records::edge_words(version) <= file.len() / 4 - at;
    ask(room, Refusal::Order)?;
    let port = records::port_of(w);
    let rising = (1 <= port) & (last < port);
    ask(rising, Refusal::Ports)?;
    let clean = clean_at(file, at + ADMITTED, version);
    ask(clean, Refusal::Tidiness)?;
    ask(e < 64, Refusal::Limits)
}

// A link with the word w, after e edges and l links, of which the last has the from-port `last`.
pub fn link_asked(
    file: &[u8],
    w: u32,
    last: u32,
    e: usize,
    l: usize,
    edge_of: &[u16; 4096],
    ends: &[u16; 4096],
) -> Result<(), Refusal>
    requires here { Here file.now e l 0 3 w }
    requires last_value { last ≡ latest (recent (from_of_link file.now e) l) }
    requires edge_table { EdgeTable file.now e edge_of.now }
    requires end_table { EndTable file.now e l ends.now }
    ensures { number_in result ≡ asked_at file.now e l 0 }
{
    let from = records::from_of(w);
    let to = records::port_of(w);
    let zero = w / 0x100_0000 % 16 == 0;
    ask(zero, Refusal::Order)?;
    let ports = (1 <= from) & (1 <= to) & (last < from) & (from != to);
    ask(ports, Refusal::Ports)?;
    let free = (edge_of[from as usize] == 0)
        & (edge_of[to as usize] == 0)
        & (ends[to as usize] == 0);
    ask(free, Refusal::Ends)?;
    ask(l < 256, Refusal::Limits)
}

// The end: its kind, and no bit beside it.
const END: u32 = 0x5000_0000;

// Does the end stand at this place, as the last word?
pub fn ends_at(file: &[u8], at: usize) -> bool
    requires { at ≤ words_in file.now }
    ensures { result ≡ ends_at file.now at }
{
    at + 1 == file.len() / 4 && records::word(file, at) == END
}
