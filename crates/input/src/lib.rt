// What the program's input asks: a query and a fabric, in either version. Document 01, "The program", and document 02, 2.6.
#![tactic(auto)]

ghost use Rattle.std.specs.Prelude.{◌≡◌, ◌*◌, ◌^◌, ◌<◌, ◌≤◌, length};
ghost use Rattle.answer.specs.Answer.{outcome};
ghost use Rattle.layout.specs.Versions.{header_words};
ghost use Rattle.wide.specs.Forms.{wide_of, narrowed, Fits};
ghost use Rattle.calls.specs.Codes.{code_at};
ghost use Rattle.input.specs.Program.{width_marked, asked_in, query_words, program_call};

use fabric::Call;
use layout::Version;
use questions::{No, Refusal};
use wide::{Query, WideSet};

// A first word from this on marks version 2: bit 31.
const MARK: u32 = 0x8000_0000;

// The words of a query before its set.
const NUMBERS: usize = 4;

// The version that the first word marks.
fn marked(first: u32) -> Version
    ensures { header_words result ≡ width_marked first }
{
    if first < MARK {
        Version::One
    } else {
        Version::Two
    }
}

// The bytes of a query: four words, a care and a value.
fn query_bytes(version: Version) -> usize
    ensures { result ≡ 4 * query_words (header_words version) }
{
    4 * (NUMBERS + 2 * version.words())
}

// The asked set: the words of the query after the numbers.
fn asked(input: &[u8], version: Version) -> WideSet
    requires { 4 * query_words (header_words version) ≤ length input.now }
    ensures fits { Fits (header_words version) (wide_of result) }
    ensures narrowed { narrowed (header_words version) (wide_of result) ≡ asked_in (header_words version) input.now }
{
    WideSet {
        low: records::low_at(input, NUMBERS, version),
        high: records::high_at(input, NUMBERS, version),
    }
}

// The call that the input asks for, made on the area; where it asks for none, a no to question 14.
pub fn call(input: &[u8], area: &mut [u8]) -> Result<u64, No>
    ensures answers { outcome (code_at result) area.new ≡ program_call input.now area.old }
    ensures few { code_at result < 2 ^ 64 }
{
    let unknown = No {
        refusal: Refusal::Input,
        place: 0,
    };
    if input.len() < query_bytes(Version::One) {
        return Err(unknown);
    }
    let first = records::word(input, 0);
    let version = marked(first);
    let bytes = query_bytes(version);
    if input.len() < bytes {
        return Err(unknown);
    }
    let Ok(call) = Call::try_from(first % MARK) else {
        return Err(unknown);
    };
    let query = Query {
        port: records::word(input, 1),
        limit: records::word(input, 2),
        budget: records::word(input, 3),
        asked: asked(input, version),
    };
    fabric::answer(call, &input[bytes..], version, area, query)
}
