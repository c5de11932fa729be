// Questions 3 to 7 of an entry, after the records that passed.
#![tactic(auto)]

ghost use Rattle.std.specs.Prelude.{◌≡◌};
ghost use Rattle.layout.specs.Records.{width_in, place_in, in_of_entry, recent};
ghost use Rattle.layout.specs.Limits.{most_entries};
ghost use Rattle.layout.specs.Versions.{header_words};
ghost use Rattle.questions.specs.Tables.{Counts};
ghost use Rattle.questions.specs.Reading.{Here, asked_at};
ghost use Rattle.questions.specs.Refusals.{number_in};

use layout::Version;
use questions::Refusal;
use record_questions::{ask, clean_at};
use records::MATCH;

fn most_entries(version: Version) -> usize
    ensures { result ≡ most_entries (header_words version) }
{
    match version {
        Version::One => 512,
        Version::Two => 400,
    }
}

// An entry with first word w, after e edges, l links and n entries: what comes before it is another with each record, so clauses say it.
pub fn entry_asked(
    file: &[u8],
    version: Version,
    at: usize,
    w: u32,
    e: usize,
    l: usize,
    n: usize,
    counts: &[u8; 4096],
) -> Result<(), Refusal>
    requires version_is { header_words version ≡ width_in file.now }
    requires here { Here file.now e l n 4 w }
    requires at_value { at ≡ place_in file.now e l n }
    requires counts { Counts (recent (in_of_entry file.now e l) n) counts.now }
    ensures { number_in result ≡ asked_at file.now e l n }
{
    let room = records::entry_words(version) <= file.len() / 4 - at;
    ask(room, Refusal::Order)?;
    let second = records::word(file, at + 1);
    let port = records::port_of(w);
    let zero = records::rank_of(second) == 0;
    // a number is asked for: before this question it may be no transfer's
    let known = records::transfer_of(second) <= 2;
    ask(zero & known, Refusal::Order)?;
    let ports = (1 <= port) & (port != records::port_of(second));
    ask(ports, Refusal::Ports)?;
    let clean = clean_at(file, at + MATCH, version)
        & clean_at(file, at + records::rewrite_at(version), version);
    ask(clean, Refusal::Tidiness)?;
    let within = (n < most_entries(version)) & (counts[port as usize] < 64);
    ask(within, Refusal::Limits)
}
