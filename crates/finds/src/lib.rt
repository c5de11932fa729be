// What is done with a find, by the mode: it is listed, or judged for the verdict. Document 01, the last three paragraphs of "The back-trace
// and its count".
#![tactic(auto)]

ghost use Rattle.std.specs.Prelude.{cond, ◌≡◌, ◌+◌, ◌*◌, ◌≤◌, eqb, length, take};
ghost use mathlib.Core.List.{head?};
ghost use Rattle.std.proofs.Math.Option.{some};
ghost use Rattle.headers.specs.Sets.{lowest};
ghost use Rattle.headers.specs.Carving.{carve};
ghost use Rattle.answer.specs.Answer.{answer_words, written_at, sixteen};
ghost use Rattle.layout.specs.Records.{width_in, admitted_at, edge_group};
ghost use Rattle.layout.specs.Versions.{header_words};
ghost use Rattle.wide.specs.Forms.{wide_words, wide_of, maybe_wide_of, stored_at};
ghost use Rattle.file.specs.Accepted.{HasEdge};
ghost use Rattle.model.specs.Model.{wide_in};
ghost use Rattle.events.specs.Play.{reached_words, judged};
ghost use Rattle.events.specs.Asked.{Asked, Way, Room, EdgeLong, budget_of, world_of, played_of, mode_number, by_mode, found_by};
ghost use Rattle.events.specs.Asked.{find_at};

use events::{Ask, Counters, Find, Halt, Mode, PLACES};
use layout::Version;
use records::ADMITTED;
use stored::StoredSet;
use wide::WideSet;

// ---- the verdict

// A part of the find p at an edge in which every packet is foreign to the group, if there is one: "in a foreign group" all of it,
// "else .. the first part of the find carved by the admitted set".
fn foreign_part(edge: &[u8], version: Version, group: u32, p: WideSet) -> Option<WideSet>
    requires { EdgeLong (header_words version) edge.now }
    ensures { maybe_wide_of result ≡ cond (eqb (edge_group edge.now) group)
        (head? (carve wide_words (wide_of p) (stored_at (header_words version) edge.now admitted_at))) (some (wide_of p)) }
{
    if records::group(edge) != group {
        return Some(p);
    }
    let admitted = StoredSet {
        bytes: edge,
        at: ADMITTED,
        version,
    };
    leading::first_part(&admitted, p)
}

// The entries on the way, "16, unused ones 0", at word `at` of the area and on.
fn put_sixteen(area: &mut [u8], at: usize, way: &[u32])
    requires way { Way way.now }
    requires room { 4 * (at + 16) ≤ length area.old }
    ensures { area.new ≡ written_at at (sixteen way.now) area.old }
{
    let unused = [0; PLACES];
    answer::put_words(area, at, way);
    answer::put_words(area, at + way.len(), &unused[..PLACES - way.len()]);
}

// The words of a verdict that is reached by the lowest header of a set.
fn put_reached(area: &mut [u8], version: Version, units: u32, port: u32, way: &[u32], set: WideSet)
    requires way { Way way.now }
    requires room { 4 * answer_words (header_words version) ≤ length area.old }
    ensures { area.new ≡ written_at 0
        (reached_words units port way.now (take (header_words version) (lowest wide_words (wide_of set)))) area.old }
{
    answer::put_words(area, 0, &[1, units, port, way.len() as u32]);
    answer::put_header(area, 4, version, set.lowest());
    put_sixteen(area, 4 + version.words(), way);
}

// The verdict stops at a find with a foreign packet.
fn judge(
    file: &[u8],
    ask: Ask,
    area: &mut [u8],
    find: &Find,
    counters: Counters,
) -> Result<(), Halt>
    requires asked { Asked file.now ask }
    requires has_edge { HasEdge file.now find.now.edge }
    requires way { Way find.now.way.now }
    requires made_within { counters.made ≤ budget_of ask }
    requires room { 4 * answer_words (width_in file.now) ≤ length area.old }
    ensures { played_of result counters area.new
        ≡ judged (wide_in file.now) (width_in file.now) ask.target
        (find_at file.now find.now.edge find.now.way.now (wide_of find.now.set)) (world_of counters area.old) }
{
    let edge = file::edge_at(file, find.edge);
    match foreign_part(edge, ask.version, ask.group, find.set) {
        None => Ok(()),
        Some(set) => {
            let port = listing::port_at(file, find.edge);
            put_reached(area, ask.version, counters.made as u32, port, find.way, set);
            Err(Halt::Reached)
        }
    }
}

// ---- by the mode

// The mode that a number says: 3 judges, and every other lists.
pub fn mode_said(number: u32) -> Mode
    ensures { by_mode (mode_number result) ≡ by_mode number }
{
    if number == 3 { Mode::Judge } else { Mode::List }
}

// A find is listed or judged, and the trace goes on or is over. Both write to the same area, and a list counts its words, so a closure in
// place of the mode would have to be lent both at every find.
pub fn found(
    file: &[u8],
    ask: &Ask,
    area: &mut [u8],
    find: &Find,
    counters: &mut Counters,
) -> Result<(), Halt>
    requires asked { Asked file.now ask.now }
    requires has_edge { HasEdge file.now find.now.edge }
    requires way { Way find.now.way.now }
    requires room { Room ask.now counters.old area.old }
    ensures { played_of result counters.new area.new ≡ found_by file.now ask.now
        (find_at file.now find.now.edge find.now.way.now (wide_of find.now.set)) (world_of counters.old area.old) }
{
    match ask.mode {
        Mode::List => {
            listing::list_find(file, area, ask.version, find, counters);
            Ok(())
        }
        Mode::Judge => judge(file, *ask, area, find, *counters),
    }
}
