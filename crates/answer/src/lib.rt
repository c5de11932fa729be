// Answers are little-endian words in the area lent; how many a verdict's or a run's has. Document 01, the last paragraph of "The
// back-trace and its count".
#![tactic(auto)]

ghost use Rattle.std.specs.Prelude.{◌≡◌, [], ◌∷◌, ◌+◌, ◌*◌, ◌≤◌, length, take};
ghost use Rattle.layout.specs.Versions.{header_words};
ghost use Rattle.wide.specs.Forms.{words_of};
ghost use Rattle.answer.specs.Answer.{written_at, answer_words};

use layout::{HALF, Version};
use wide::WideHeader;

// The word w at word `at` of the area. That there is room is asked of each writer, as the area is as long as the caller's.
pub fn put_word(area: &mut [u8], at: usize, w: u32)
    requires { 4 * (at + 1) ≤ length area.old }
    ensures { area.new ≡ written_at at (w ∷ []) area.old }
{
    let i = 4 * at;
    area[i..i + 4].copy_from_slice(&w.to_le_bytes());
}

// The words at word `at` of the area and on.
pub fn put_words(area: &mut [u8], at: usize, words: &[u32])
    requires { 4 * (at + length words.now) ≤ length area.old }
    ensures { area.new ≡ written_at at words.now area.old }
{
    for (i, w) in words.iter().enumerate() {
        put_word(area, at + i, *w);
    }
}

// A header of a file of this version at word `at` of the area and on.
pub fn put_header(area: &mut [u8], at: usize, version: Version, h: WideHeader)
    requires { 4 * (at + header_words version) ≤ length area.old }
    ensures { area.new ≡ written_at at (take (header_words version) (words_of h)) area.old }
{
    put_words(area, at, &h.low);
    if let Version::Two = version {
        put_words(area, at + HALF, &h.high);
    }
}

// The words of a verdict's or a run's answer: four, a header, and an entry for each hop.
pub fn answer_words(version: Version) -> usize
    ensures { result ≡ answer_words (header_words version) }
{
    4 + version.words() + 16
}
