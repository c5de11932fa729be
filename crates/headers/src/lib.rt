// Header sets, actions and carving, for any number of words: what they mean is in specs/, Sets, Actions and Carving, and what follows
// from it in proofs/, Members, Intersection, Undoing, Acting, Carved and Parts. Document 01, "Header sets", and document 02, 2.5. The
// crates above have the code, on four words: `words`, `sets` and `actions`.
#![tactic(auto)]

// What an entry does to the addresses of a header: nothing, nw_src (word 0) copied over nw_dst (word 1), or the two swapped.
#[derive(Clone, Copy)]
pub enum Transfer {
    Keep,
    Copy,
    Swap,
}
