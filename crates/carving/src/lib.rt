// What a set that stands in some bytes leaves of a header set of eight words, part by part: document 01's parts, in its order, those of
// the first four words before those of the last four. Document 02, 2.6.
#![tactic(auto)]

ghost use Rattle.std.specs.Prelude.{true, false, ◌≡◌};
ghost use Rattle.headers.specs.Bits.{no_bit};
ghost use Rattle.headers.specs.Sets.{outside};
ghost use Rattle.headers.specs.Carving.{free, turned, taking};
ghost use Rattle.sets.specs.Forms.{set_of};
ghost use Rattle.layout.specs.Records.{half, low_from, high_from};
ghost use Rattle.layout.specs.Versions.{header_words};
ghost use Rattle.wide.specs.Forms.{wide_words, wide_of};
ghost use Rattle.stored.specs.Forms.{set_there};
ghost use Rattle.carving.specs.Cuts.{free_left, bit_of, IsCut};

use layout::Version;
use stored::StoredSet;
use wide::WideSet;

// What is left to carve of a set: the bits that are free in its first four words, or, those done, in its last four; and the first of them.
// What carves it is handed to each method, as a cut that kept it would be copied with it at every part; so clauses tie the two.
#[derive(Clone, Copy)]
pub struct Cut {
    pub set: WideSet,
    // of which half they are; `IsCut` tells the two apart. As two variants, each would have the same three fields.
    pub high: bool,
    pub free: [u32; 4],
    pub bit: [u32; 4],
}

impl Cut {
    // All parts of p, which it overlaps, are to be made.
    pub fn first(x: &StoredSet, p: WideSet) -> Cut
        ensures cut { IsCut (header_words x.now.version) x.now.bytes.now x.now.at result }
        ensures set_value { result.set ≡ p }
    {
        Self::from_low(x, p, p.low.free(x.low()))
    }

    // The free bits of the first four words of p, from the first on; where there are none, those of the last four.
    // Inlined: a cut handed back through memory makes traces up to half as slow again, and takes a third more stack.
    #[inline(always)]
    fn from_low(x: &StoredSet, p: WideSet, left: [u32; 4]) -> Cut
        requires { left ≡ free half (set_of p.low) (low_from (header_words x.now.version) x.now.bytes.now x.now.at) }
        ensures cut { IsCut (header_words x.now.version) x.now.bytes.now x.now.at result }
        ensures set_value { result.set ≡ p }
    {
        if x.version == Version::Two && words::none_set(left) {
            return Self::from_high(x, p, p.high.free(x.high()));
        }
        Cut {
            set: p,
            high: false,
            free: left,
            bit: words::first_bit(left),
        }
    }

    // The free bits of the last four words of p, from the first on.
    #[inline(always)]
    fn from_high(x: &StoredSet, p: WideSet, left: [u32; 4]) -> Cut
        requires free_value { left ≡ free half (set_of p.high) (high_from (header_words x.now.version) x.now.bytes.now x.now.at) }
        requires low_done { let w = header_words x.now.version in
            no_bit half (free half (set_of p.low) (low_from w x.now.bytes.now x.now.at)) ≡ true }
        ensures cut { IsCut (header_words x.now.version) x.now.bytes.now x.now.at result }
        ensures set_value { result.set ≡ p }
    {
        Cut {
            set: p,
            high: true,
            free: left,
            bit: words::first_bit(left),
        }
    }

    // Are there no more parts?
    pub fn is_done(self) -> bool
        ensures { result ≡ no_bit half self.free }
    {
        words::none_set(self.free)
    }

    // The next part: the first free bit opposite.
    pub fn part(self, x: &StoredSet) -> WideSet
        requires cut { IsCut (header_words x.now.version) x.now.bytes.now x.now.at self }
        requires free_value { no_bit half self.free ≡ false }
        ensures { let bit = bit_of (header_words x.now.version) x.now.bytes.now x.now.at self in
            wide_of result ≡ taking wide_words bit (turned wide_words (set_there x.now)) (wide_of self.set) }
    {
        let WideSet { low, high } = self.set;
        if self.high {
            return WideSet {
                low,
                high: high.unlike(self.bit, x.high()),
            };
        }
        WideSet {
            low: low.unlike(self.bit, x.low()),
            high,
        }
    }

    // Is there no part after it?
    pub fn is_last(self, x: &StoredSet) -> bool
        requires cut { IsCut (header_words x.now.version) x.now.bytes.now x.now.at self }
        requires free_value { no_bit half self.free ≡ false }
        ensures { let w = header_words x.now.version in let f = x.now.bytes.now in let k = x.now.at in
            result ≡ no_bit wide_words (outside wide_words (bit_of w f k self) (free_left w f k self)) }
    {
        if !words::none_set(words::outside(self.bit, self.free)) {
            return false;
        }
        if self.high {
            return true;
        }
        match x.version {
            Version::One => true,
            Version::Two => words::none_set(self.set.high.free(x.high())),
        }
    }

    // The parts after it are to be made: that bit is as it stands there.
    pub fn next(self, x: &StoredSet) -> Cut
        requires cut { IsCut (header_words x.now.version) x.now.bytes.now x.now.at self }
        requires free_value { no_bit half self.free ≡ false }
        ensures cut_2 { IsCut (header_words x.now.version) x.now.bytes.now x.now.at result }
        ensures set_value { let bit = bit_of (header_words x.now.version) x.now.bytes.now x.now.at self in
            wide_of result.set ≡ taking wide_words bit (set_there x.now) (wide_of self.set) }
    {
        let WideSet { low, high } = self.set;
        let bit = self.bit;
        let left = words::outside(bit, self.free);
        if self.high {
            let set = WideSet {
                low,
                high: high.like(bit, x.high()),
            };
            return Self::from_high(x, set, left);
        }
        let set = WideSet {
            low: low.like(bit, x.low()),
            high,
        };
        Self::from_low(x, set, left)
    }
}
