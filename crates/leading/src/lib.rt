// The first part that a set that stands in some bytes leaves of a header set of eight words. Document 01's order: parts of the first four
// words before those of the last four. Document 02, 2.6.
#![tactic(auto)]

ghost use Rattle.std.specs.Prelude.{false, ◌&&◌, ◌≡◌};
ghost use mathlib.Core.List.{head?};
ghost use Rattle.std.proofs.Math.Option.{some};
ghost use Rattle.headers.specs.Bits.{no_bit};
ghost use Rattle.headers.specs.Sets.{overlaps};
ghost use Rattle.headers.specs.Carving.{free, carve};
ghost use Rattle.wide.specs.Forms.{wide_words, wide_of, maybe_wide_of};
ghost use Rattle.stored.specs.Forms.{set_there};

use layout::Version;
use stored::StoredSet;
use wide::WideSet;

// Does the set that stands there hold all of p?
fn covers(x: &StoredSet, p: WideSet) -> bool
    ensures { result ≡ (overlaps wide_words (wide_of p) (set_there x.now)
        && no_bit wide_words (free wide_words (wide_of p) (set_there x.now))) }
{
    let m = x.low();
    if !p.low.overlaps(m) {
        return false;
    }
    if !words::none_set(p.low.free(m)) {
        return false;
    }
    match x.version {
        Version::One => true,
        Version::Two => {
            let c = x.high();
            p.high.overlaps(c) & words::none_set(p.high.free(c))
        }
    }
}

// The first part that it leaves of p, of which it doesn't hold all.
fn leading_part(x: &StoredSet, p: WideSet) -> WideSet
    requires { (overlaps wide_words (wide_of p) (set_there x.now)
        && no_bit wide_words (free wide_words (wide_of p) (set_there x.now))) ≡ false }
    ensures { head? (carve wide_words (wide_of p) (set_there x.now)) ≡ some (wide_of result) }
{
    let WideSet { low, high } = p;
    let m = x.low();
    let c = x.high();
    if !(low.overlaps(m) & high.overlaps(c)) {
        return p;
    }
    let low_free = low.free(m);
    if words::none_set(low_free) {
        return WideSet {
            low,
            high: high.unlike(words::first_bit(high.free(c)), c),
        };
    }
    WideSet {
        low: low.unlike(words::first_bit(low_free), m),
        high,
    }
}

// The first part that it leaves of p, if there is one.
pub fn first_part(x: &StoredSet, p: WideSet) -> Option<WideSet>
    ensures { maybe_wide_of result ≡ head? (carve wide_words (wide_of p) (set_there x.now)) }
{
    if covers(x, p) {
        return None;
    }
    Some(leading_part(x, p))
}
