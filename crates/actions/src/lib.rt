// What an entry does to a header, and its undoing, on four words. What each call means is in crates/headers, specs/Actions.
#![tactic(auto)]

ghost use Rattle.std.specs.Prelude.{◌≡◌};
ghost use Rattle.headers.specs.Sets.{rewritten, undone, writes};
ghost use Rattle.headers.specs.Actions.{acted, met_before, before, no_action};
ghost use Rattle.sets.specs.Forms.{set_of, form_of, maybe_of};
ghost use Rattle.actions.specs.Forms.{rewrite_of, act_of};

use headers::Transfer;
use sets::HeaderSet;

// What an entry does to a header: the transfer, and then masked bits become the value's.
#[derive(Clone, Copy)]
pub struct Action {
    pub transfer: Transfer,
    pub mask: [u32; 4],
    pub value: [u32; 4],
}

impl Action {
    // The action that leaves every header as it is.
    pub fn no_rewrite() -> Self
        ensures { act_of result ≡ no_action 4 }
    {
        Action {
            transfer: Transfer::Keep,
            mask: [0; 4],
            value: [0; 4],
        }
    }

    // The action's written bits, as the set of headers that have them.
    pub fn writes(self) -> HeaderSet
        ensures { result ≡ form_of (writes (rewrite_of self)) }
    {
        // the check takes no array field straight into a literal
        let care = self.mask;
        let value = self.value;
        HeaderSet { care, value }
    }

    pub fn apply(self, h: [u32; 4]) -> [u32; 4]
        ensures { result ≡ acted 4 (act_of self) h }
    {
        self.written(words::transferred(self.transfer, h))
    }

    // The words with masked bits as the value's.
    pub fn written(self, h: [u32; 4]) -> [u32; 4]
        ensures { result ≡ rewritten 4 (rewrite_of self) h }
    {
        words::overwritten(self.mask, self.value, h)
    }

    // The headers of a match that this action takes into t: what it does last is undone first.
    pub fn undo(self, t: HeaderSet, matching: HeaderSet) -> Option<HeaderSet>
        ensures { result ≡ maybe_of (before 4 (set_of matching) (act_of self) (set_of t)) }
    {
        let s = self.unwritten(t)?;
        self.met_before(s, matching)
    }

    // The headers of a match that its transfer takes into s.
    pub fn met_before(self, s: HeaderSet, matching: HeaderSet) -> Option<HeaderSet>
        ensures { result ≡ maybe_of (met_before 4 (set_of matching) self.transfer (set_of s)) }
    {
        let moved = s.untransferred(self.transfer)?;
        moved.intersect(matching)
    }

    // The headers that its rewrite takes into t.
    pub fn unwritten(self, t: HeaderSet) -> Option<HeaderSet>
        ensures { result ≡ maybe_of (undone 4 (rewrite_of self) (set_of t)) }
    {
        if t.overlaps(self.writes()) {
            Some(t.widened(self.mask))
        } else {
            None
        }
    }
}
