// Header sets of four words: membership, intersection, the undoing of transfers, and what carving makes of a set. What each call means is
// in crates/headers, specs/Sets, Actions and Carving.
#![tactic(auto)]

ghost use Rattle.std.specs.Prelude.{◌≡◌};
ghost use Rattle.headers.specs.Sets.{contains, tidy, overlaps, joined, intersection, widened, lowest, all_wild};
ghost use Rattle.headers.specs.Actions.{swapped, moved_set, uncopied, untransferred};
ghost use Rattle.headers.specs.Carving.{free, turned, taking};
ghost use Rattle.sets.specs.Forms.{set_of, form_of, maybe_of};

use headers::Transfer;

// The headers that equal the value on every care bit.
#[derive(Clone, Copy)]
pub struct HeaderSet {
    pub care: [u32; 4],
    pub value: [u32; 4],
}

impl HeaderSet {
    // The set of every header.
    pub fn all_wild() -> Self
        ensures { result ≡ form_of (all_wild 4) }
    {
        HeaderSet {
            care: [0; 4],
            value: [0; 4],
        }
    }

    // Are the value bits outside care 0?
    pub fn is_tidy(self) -> bool
        ensures { result ≡ tidy 4 (set_of self) }
    {
        words::none_set(words::outside(self.care, self.value))
    }

    pub fn contains(self, h: [u32; 4]) -> bool
        ensures { result ≡ contains 4 (set_of self) h }
    {
        words::agree(self.care, h, self.value)
    }

    // The member with every wild bit 0.
    pub fn lowest(self) -> [u32; 4]
        ensures { result ≡ lowest 4 (set_of self) }
    {
        words::both(self.value, self.care)
    }

    // Do the values agree on every bit that both care for?
    pub fn overlaps(self, b: HeaderSet) -> bool
        ensures { result ≡ overlaps 4 (set_of self) (set_of b) }
    {
        words::agree(words::both(self.care, b.care), self.value, b.value)
    }

    pub fn intersect(self, b: HeaderSet) -> Option<HeaderSet>
        ensures { result ≡ maybe_of (intersection 4 (set_of self) (set_of b)) }
    {
        if self.overlaps(b) {
            Some(self.joined(b))
        } else {
            None
        }
    }

    // What two sets that overlap have in common.
    fn joined(self, b: HeaderSet) -> HeaderSet
        ensures { result ≡ form_of (joined 4 (set_of self) (set_of b)) }
    {
        HeaderSet {
            care: words::either(self.care, b.care),
            value: words::either(self.value, b.value),
        }
    }

    // The set with all bits of a mask wild.
    pub fn widened(self, m: [u32; 4]) -> HeaderSet
        ensures { result ≡ form_of (widened 4 m (set_of self)) }
    {
        HeaderSet {
            care: words::outside(m, self.care),
            value: words::outside(m, self.value),
        }
    }

    // The headers that a copy takes into this set: what it wants of word 1 joins what it wants of word 0.
    fn uncopied(self) -> Option<HeaderSet>
        ensures { result ≡ maybe_of (uncopied 4 (set_of self)) }
    {
        let c = self.care;
        let v = self.value;
        let others = HeaderSet {
            care: [c[0], 0, c[2], c[3]],
            value: [v[0], 0, v[2], v[3]],
        };
        let wanted = HeaderSet {
            care: [c[1], 0, 0, 0],
            value: [v[1], 0, 0, 0],
        };
        others.intersect(wanted)
    }

    // The headers that a swap takes into this set.
    fn unswapped(self) -> HeaderSet
        ensures { result ≡ form_of (moved_set 4 swapped (set_of self)) }
    {
        HeaderSet {
            care: words::swapped(self.care),
            value: words::swapped(self.value),
        }
    }

    // The headers that a transfer takes into this set: by its variants, which a closure for each would only name again.
    pub fn untransferred(self, transfer: Transfer) -> Option<HeaderSet>
        ensures { result ≡ maybe_of (untransferred 4 transfer (set_of self)) }
    {
        match transfer {
            Transfer::Keep => Some(self),
            Transfer::Copy => self.uncopied(),
            Transfer::Swap => Some(self.unswapped()),
        }
    }

    // The bits that b cares for and this set doesn't: carving by b, which the set overlaps, makes a part at each, from first to last.
    pub fn free(self, b: HeaderSet) -> [u32; 4]
        ensures { result ≡ free 4 (set_of self) (set_of b) }
    {
        words::outside(self.care, b.care)
    }

    // The set with every bit of its value turned round.
    fn turned(self) -> HeaderSet
        ensures { result ≡ form_of (turned 4 (set_of self)) }
    {
        // the check takes no array field straight into a literal
        let care = self.care;
        HeaderSet {
            care,
            value: self.value.map(|w| !w),
        }
    }

    // The set with the bits of a mask as in b.
    fn taking(self, m: [u32; 4], b: HeaderSet) -> HeaderSet
        ensures { result ≡ form_of (taking 4 m (set_of b) (set_of self)) }
    {
        HeaderSet {
            care: words::overwritten(m, b.care, self.care),
            value: words::overwritten(m, b.value, self.value),
        }
    }

    // The set with a free bit opposite to b's: the part at that bit, if it is the first that is free.
    pub fn unlike(self, bit: [u32; 4], b: HeaderSet) -> HeaderSet
        ensures { result ≡ form_of (taking 4 bit (turned 4 (set_of b)) (set_of self)) }
    {
        self.taking(bit, b.turned())
    }

    // The set with a free bit as in b: the parts at the later bits are made of it.
    pub fn like(self, bit: [u32; 4], b: HeaderSet) -> HeaderSet
        ensures { result ≡ form_of (taking 4 bit (set_of b) (set_of self)) }
    {
        self.taking(bit, b)
    }
}
