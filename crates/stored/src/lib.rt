// A header or a header set of eight words with a set that stands in some bytes. Document 02, 2.6. The last four words are looked at only
// where the file has them, and where the first four leave the answer open.
#![tactic(auto)]

ghost use Rattle.std.specs.Prelude.{◌≡◌};
ghost use Rattle.headers.specs.Sets.{contains, overlaps, intersection, undone};
ghost use Rattle.headers.specs.Actions.{acted, met_before};
ghost use Rattle.sets.specs.Forms.{form_of};
ghost use Rattle.layout.specs.Versions.{header_words};
ghost use Rattle.layout.specs.Records.{low_from, high_from};
ghost use Rattle.wide.specs.Forms.{wide_words, words_of, wide_of, maybe_wide_of, Stored};

use actions::Action;
use headers::Transfer;
use layout::Version;
use sets::HeaderSet;
use wide::{WideHeader, WideSet};

// A transfer and a rewrite, whose mask and value stand as care and value of a set do.
fn action_of(transfer: Transfer, writes: HeaderSet) -> Action
    ensures { result ≡ record { transfer = transfer; mask = writes.care; value = writes.value } }
{
    // A literal is proved of arrays that are variables, and not of those that are fields.
    let mask = writes.care;
    let value = writes.value;
    Action {
        transfer,
        mask,
        value,
    }
}

// A set, or a rewrite, that stands in some bytes from word `at` on.
#[derive(Clone, Copy)]
pub struct StoredSet<'a> {
    pub bytes: &'a [u8],
    pub at: usize,
    pub version: Version,
    pub ghost stored: { Stored bytes.now at (header_words version) },
}

impl StoredSet<'_> {
    ghost use Rattle.stored.specs.Forms.{set_there, rewrite_there};

    // Its first four words.
    pub fn low(&self) -> HeaderSet
        ensures { result ≡ form_of (low_from (header_words self.now.version) self.now.bytes.now self.now.at) }
    {
        records::low_at(self.bytes, self.at, self.version)
    }

    // Its last four words, which are wild where it has but four.
    pub fn high(&self) -> HeaderSet
        ensures { result ≡ form_of (high_from (header_words self.now.version) self.now.bytes.now self.now.at) }
    {
        records::high_at(self.bytes, self.at, self.version)
    }

    pub fn holds(&self, h: WideHeader) -> bool
        ensures { result ≡ contains wide_words (set_there self.now) (words_of h) }
    {
        if !self.low().contains(h.low) {
            return false;
        }
        match self.version {
            Version::One => true,
            Version::Two => self.high().contains(h.high),
        }
    }

    // Does it overlap p?
    pub fn meets(&self, p: WideSet) -> bool
        ensures { result ≡ overlaps wide_words (wide_of p) (set_there self.now) }
    {
        if !p.low.overlaps(self.low()) {
            return false;
        }
        match self.version {
            Version::One => true,
            Version::Two => p.high.overlaps(self.high()),
        }
    }

    // What it has in common with s.
    pub fn intersect(&self, s: WideSet) -> Option<WideSet>
        ensures { maybe_wide_of result ≡ intersection wide_words (wide_of s) (set_there self.now) }
    {
        let low = s.low.intersect(self.low())?;
        let high = match self.version {
            Version::One => s.high,
            Version::Two => s.high.intersect(self.high())?,
        };
        Some(WideSet { low, high })
    }

    // What the rewrite that stands there takes into t.
    pub fn unwritten(&self, t: WideSet) -> Option<WideSet>
        ensures { maybe_wide_of result ≡ undone wide_words (rewrite_there self.now) (wide_of t) }
    {
        let low = action_of(Transfer::Keep, self.low()).unwritten(t.low)?;
        let high = match self.version {
            Version::One => t.high,
            Version::Two => action_of(Transfer::Keep, self.high()).unwritten(t.high)?,
        };
        Some(WideSet { low, high })
    }

    // What a transfer takes into t, met with the set that stands there: it moves words of the first four alone.
    pub fn met_before(&self, transfer: Transfer, t: WideSet) -> Option<WideSet>
        ensures { maybe_wide_of result ≡ met_before wide_words (set_there self.now) transfer (wide_of t) }
    {
        let low = action_of(transfer, HeaderSet::all_wild()).met_before(t.low, self.low())?;
        let high = match self.version {
            Version::One => t.high,
            Version::Two => t.high.intersect(self.high())?,
        };
        Some(WideSet { low, high })
    }

    // A transfer, and then the rewrite that stands there.
    pub fn applied(&self, transfer: Transfer, h: WideHeader) -> WideHeader
        ensures { words_of result
            ≡ acted wide_words (record { transfer = transfer; rewrite = rewrite_there self.now }) (words_of h) }
    {
        let low = action_of(transfer, self.low()).apply(h.low);
        let high = match self.version {
            Version::One => h.high,
            Version::Two => action_of(Transfer::Keep, self.high()).written(h.high),
        };
        WideHeader { low, high }
    }
}
