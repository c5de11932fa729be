// Questions 1 and 2, of the whole file, in a call for a version.
#![tactic(auto)]

ghost use Rattle.std.specs.Prelude.{◌≡◌};
ghost use Rattle.layout.specs.Limits.{most_bytes};
ghost use Rattle.layout.specs.Versions.{header_words};
ghost use Rattle.questions.specs.Questions.{version, sized, started};
ghost use Rattle.questions.specs.Reading.{Bounded};

use layout::{HALF, Version};
use records::Kind;

// ---- what the version says

// What a file with headers of hw words says for its version.
fn number(hw: usize) -> u32
    ensures { result ≡ version hw }
{
    if hw == HALF { 1 } else { 2 }
}

fn most_bytes(v: Version) -> usize
    ensures { result ≡ most_bytes (header_words v) }
{
    match v {
        Version::One => 40200,
        Version::Two => 59784,
    }
}

// ---- the questions

// Both answer as the definitions do; the reader says which refusal a no is.

// Question 1: a length that is a multiple of 4 from 8 to the most of the call's version.
pub fn sized(file: &[u8], version: Version) -> bool
    ensures { result ≡ sized (header_words version) file.now }
{
    let len = file.len();
    (len % 4 == 0) & (8 <= len) & (len <= most_bytes(version))
}

// Question 2: a start of the call's version with the right count.
pub fn started(file: &[u8], version: Version) -> bool
    requires { Bounded file.now }
    ensures { result ≡ started (header_words version) file.now }
{
    started_in(file, version.words())
}

// The same by the words of a header, and of any number of them, as the definition has it.
pub fn started_in(file: &[u8], hw: usize) -> bool
    requires { Bounded file.now }
    ensures { result ≡ started hw file.now }
{
    let w = records::word(file, 0);
    let count = records::count_of(w) as usize;
    records::is_kind(w, Kind::Start)
        & (records::version_of(w) == number(hw))
        & (count == file.len() / 4)
}
