// What the runtime's host links: `fabric::make` for each call and version, exported. A host that links the archive has these six symbols.
// C takes no generic function and no set, so each call and version is one of its own, on numbers.
#![tactic(auto)]

ghost use Rattle.std.specs.Prelude.{◌≡◌, [], ◌∷◌};
ghost use Rattle.answer.specs.Answer.{outcome};
ghost use Rattle.calls.specs.Questions.{query};
ghost use Rattle.calls.specs.Verdict.{verdict_call};
ghost use Rattle.calls.specs.List.{list_call};
ghost use Rattle.calls.specs.Run.{run_call};

use fabric::Call;
use sets::HeaderSet;
use wide::WideSet;

// The call verdict on a file of version 1: the file, the area lent and words 1 to 11 of the query.
#[unsafe(no_mangle)]
pub extern "C" fn fabric_verdict(
    file: &[u8],
    area: &mut [u8],
    target: u32,
    limit: u32,
    budget: u32,
    care0: u32,
    care1: u32,
    care2: u32,
    care3: u32,
    value0: u32,
    value1: u32,
    value2: u32,
    value3: u32,
) -> u64
    ensures { outcome result area.new ≡ verdict_call 4 file.now
        (query target limit budget (record {
          care = care0 ∷ care1 ∷ care2 ∷ care3 ∷ [];
          value = value0 ∷ value1 ∷ value2 ∷ value3 ∷ [];
        }))
        area.old }
{
    let asked = HeaderSet {
        care: [care0, care1, care2, care3],
        value: [value0, value1, value2, value3],
    };
    fabric::make(Call::Verdict, file, area, target, limit, budget, asked)
}

// The call verdict on a file of version 2: the file, the area lent and words 1 to 19 of the query.
#[unsafe(no_mangle)]
pub extern "C" fn fabric_verdict_v2(
    file: &[u8],
    area: &mut [u8],
    target: u32,
    limit: u32,
    budget: u32,
    care0: u32,
    care1: u32,
    care2: u32,
    care3: u32,
    care4: u32,
    care5: u32,
    care6: u32,
    care7: u32,
    value0: u32,
    value1: u32,
    value2: u32,
    value3: u32,
    value4: u32,
    value5: u32,
    value6: u32,
    value7: u32,
) -> u64
    ensures { outcome result area.new ≡ verdict_call 8 file.now
        (query target limit budget (record {
          care = care0 ∷ care1 ∷ care2 ∷ care3 ∷ care4 ∷ care5 ∷ care6 ∷ care7 ∷ [];
          value = value0 ∷ value1 ∷ value2 ∷ value3 ∷ value4 ∷ value5 ∷ value6 ∷ value7 ∷ [];
        }))
        area.old }
{
    let wide = WideSet {
        low: HeaderSet {
            care: [care0, care1, care2, care3],
            value: [value0, value1, value2, value3],
        },
        high: HeaderSet {
            care: [care4, care5, care6, care7],
            value: [value4, value5, value6, value7],
        },
    };
    fabric::make(Call::Verdict, file, area, target, limit, budget, wide)
}

// The call list on a file of version 1: the file, the area lent and words 1 to 11 of the query.
#[unsafe(no_mangle)]
pub extern "C" fn fabric_list(
    file: &[u8],
    area: &mut [u8],
    target: u32,
    limit: u32,
    budget: u32,
    care0: u32,
    care1: u32,
    care2: u32,
    care3: u32,
    value0: u32,
    value1: u32,
    value2: u32,
    value3: u32,
) -> u64
    ensures { outcome result area.new ≡ list_call 4 file.now
        (query target limit budget (record {
          care = care0 ∷ care1 ∷ care2 ∷ care3 ∷ [];
          value = value0 ∷ value1 ∷ value2 ∷ value3 ∷ [];
        }))
        area.old }
{
    let asked = HeaderSet {
        care: [care0, care1, care2, care3],
        value: [value0, value1, value2, value3],
    };
    fabric::make(Call::List, file, area, target, limit, budget, asked)
}

// The call list on a file of version 2: the file, the area lent and words 1 to 19 of the query.
#[unsafe(no_mangle)]
pub extern "C" fn fabric_list_v2(
    file: &[u8],
    area: &mut [u8],
    target: u32,
    limit: u32,
    budget: u32,
    care0: u32,
    care1: u32,
    care2: u32,
    care3: u32,
    care4: u32,
    care5: u32,
    care6: u32,
    care7: u32,
    value0: u32,
    value1: u32,
    value2: u32,
    value3: u32,
    value4: u32,
    value5: u32,
    value6: u32,
    value7: u32,
) -> u64
    ensures { outcome result area.new ≡ list_call 8 file.now
        (query target limit budget (record {
          care = care0 ∷ care1 ∷ care2 ∷ care3 ∷ care4 ∷ care5 ∷ care6 ∷ care7 ∷ [];
          value = value0 ∷ value1 ∷ value2 ∷ value3 ∷ value4 ∷ value5 ∷ value6 ∷ value7 ∷ [];
        }))
        area.old }
{
    let wide = WideSet {
        low: HeaderSet {
            care: [care0, care1, care2, care3],
            value: [value0, value1, value2, value3],
        },
        high: HeaderSet {
            care: [care4, care5, care6, care7],
            value: [value4, value5, value6, value7],
        },
    };
    fabric::make(Call::List, file, area, target, limit, budget, wide)
}

// The call run on a file of version 1: the file, the area lent and words 1 to 11 of the query.
#[unsafe(no_mangle)]
pub extern "C" fn fabric_run(
    file: &[u8],
    area: &mut [u8],
    start: u32,
    limit: u32,
    budget: u32,
    care0: u32,
    care1: u32,
    care2: u32,
    care3: u32,
    value0: u32,
    value1: u32,
    value2: u32,
    value3: u32,
) -> u64
    ensures { outcome result area.new ≡ run_call 4 file.now
        (query start limit budget (record {
          care = care0 ∷ care1 ∷ care2 ∷ care3 ∷ [];
          value = value0 ∷ value1 ∷ value2 ∷ value3 ∷ [];
        }))
        area.old }
{
    let asked = HeaderSet {
        care: [care0, care1, care2, care3],
        value: [value0, value1, value2, value3],
    };
    fabric::make(Call::Run, file, area, start, limit, budget, asked)
}

// The call run on a file of version 2: the file, the area lent and words 1 to 19 of the query.
#[unsafe(no_mangle)]
pub extern "C" fn fabric_run_v2(
    file: &[u8],
    area: &mut [u8],
    start: u32,
    limit: u32,
    budget: u32,
    care0: u32,
    care1: u32,
    care2: u32,
    care3: u32,
    care4: u32,
    care5: u32,
    care6: u32,
    care7: u32,
    value0: u32,
    value1: u32,
    value2: u32,
    value3: u32,
    value4: u32,
    value5: u32,
    value6: u32,
    value7: u32,
) -> u64
    ensures { outcome result area.new ≡ run_call 8 file.now
        (query start limit budget (record {
          care = care0 ∷ care1 ∷ care2 ∷ care3 ∷ care4 ∷ care5 ∷ care6 ∷ care7 ∷ [];
          value = value0 ∷ value1 ∷ value2 ∷ value3 ∷ value4 ∷ value5 ∷ value6 ∷ value7 ∷ [];
        }))
        area.old }
{
    let wide = WideSet {
        low: HeaderSet {
            care: [care0, care1, care2, care3],
            value: [value0, value1, value2, value3],
        },
        high: HeaderSet {
            care: [care4, care5, care6, care7],
            value: [value4, value5, value6, value7],
        },
    };
    fabric::make(Call::Run, file, area, start, limit, budget, wide)
}
