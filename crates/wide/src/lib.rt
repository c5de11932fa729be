// Headers and header sets of eight words: a set of four beside another of four. Document 02, 2.6.
// In version 1 of the file a set has four words, and is taken for one of eight whose last four are wild: so one code serves both
// versions. How such a set meets one that stands in the file is in `stored`.
#![tactic(auto)]

ghost use Rattle.std.specs.Prelude.{◌≡◌};
ghost use Rattle.headers.specs.Sets.{padded, lowest};
ghost use Rattle.sets.specs.Forms.{set_of};
ghost use Rattle.layout.specs.Records.{half};
ghost use Rattle.wide.specs.Forms.{wide_words, words_of, wide_of};

use sets::HeaderSet;

// The words of a header, the first four and the last four.
#[derive(Clone, Copy)]
pub struct WideHeader {
    pub low: [u32; 4],
    pub high: [u32; 4],
}

// The headers that equal the value on every care bit.
#[derive(Clone, Copy)]
pub struct WideSet {
    pub low: HeaderSet,
    pub high: HeaderSet,
}

// A query: the port that is its target or start, a hop limit, a budget, and the asked set. That the set fits a version is asked by the
// calls, which are told one.
#[derive(Clone, Copy)]
pub struct Query {
    pub port: u32,
    pub limit: u32,
    pub budget: u32,
    pub asked: WideSet,
}

impl WideSet {
    // A set of four words, with four more that are wild.
    pub fn padded(s: HeaderSet) -> Self
        ensures { wide_of result ≡ padded half (set_of s) }
    {
        WideSet {
            low: s,
            high: HeaderSet::all_wild(),
        }
    }

    // The member with every wild bit 0.
    pub fn lowest(self) -> WideHeader
        ensures { words_of result ≡ lowest wide_words (wide_of self) }
    {
        WideHeader {
            low: self.low.lowest(),
            high: self.high.lowest(),
        }
    }
}
