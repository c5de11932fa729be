// Four words, word by word: what the operations on sets and actions are made of.
#![tactic(auto)]

ghost use Rattle.std.specs.Prelude.{◌≡◌, ◌-◌, ◌^◌, ◌<◌, ◌==◌, cond, eqb, not, position};
ghost use Rattle.std.specs.Int.Count.{count_leading_zeros};
ghost use Rattle.headers.specs.Bits.{words, no_bit, first_bit};
ghost use Rattle.headers.specs.Sets.{agree, overwritten, outside, both, either};
ghost use Rattle.headers.specs.Actions.{moved, copied, swapped, transferred};

use headers::Transfer;
use std::array;

// Are x and y the same on the bits of a mask?
pub fn agree(m: [u32; 4], x: [u32; 4], y: [u32; 4]) -> bool
    ensures { result ≡ agree 4 m x y }
{
    both(x, m) == both(y, m)
}

pub fn both(x: [u32; 4], y: [u32; 4]) -> [u32; 4]
    ensures { result ≡ both 4 x y }
{
    array::from_fn(|i| x[i] & y[i])
}

pub fn either(x: [u32; 4], y: [u32; 4]) -> [u32; 4]
    ensures { result ≡ either 4 x y }
{
    array::from_fn(|i| x[i] | y[i])
}

// The bits of x outside a mask.
pub fn outside(m: [u32; 4], x: [u32; 4]) -> [u32; 4]
    ensures { result ≡ outside 4 m x }
{
    array::from_fn(|i| x[i] & !m[i])
}

// The words of y with the bits of a mask taken from x.
pub fn overwritten(m: [u32; 4], x: [u32; 4], y: [u32; 4]) -> [u32; 4]
    ensures { result ≡ overwritten 4 m x y }
{
    array::from_fn(|i| y[i] & !m[i] | x[i] & m[i])
}

// Word 0 over word 1.
fn copied(h: [u32; 4]) -> [u32; 4]
    ensures { result ≡ moved 4 copied h }
{
    [h[0], h[0], h[2], h[3]]
}

// Words 0 and 1 exchanged.
pub fn swapped(h: [u32; 4]) -> [u32; 4]
    ensures { result ≡ moved 4 swapped h }
{
    [h[1], h[0], h[2], h[3]]
}

// What a transfer makes of a header: by its variants, which a closure for each would only name again.
pub fn transferred(transfer: Transfer, h: [u32; 4]) -> [u32; 4]
    ensures { result ≡ transferred 4 transfer h }
{
    match transfer {
        Transfer::Keep => h,
        Transfer::Copy => copied(h),
        Transfer::Swap => swapped(h),
    }
}

pub fn none_set(x: [u32; 4]) -> bool
    ensures { result ≡ no_bit 4 x }
{
    x == [0; 4]
}

// The highest set bit of a word that is not 0.
fn top(x: u32) -> u32
    requires { 0 < x }
    ensures { result ≡ 2 ^ (31 - count_leading_zeros 32 x) }
{
    1u32 << (31 - u32::leading_zeros(x))
}

// The first word that is not 0.
fn first_word(x: [u32; 4]) -> Option<usize>
    ensures { result ≡ position (λ w. not (w == 0)) x }
{
    x.iter().position(|w| *w != 0)
}

// Word i alone is v, and the others are 0.
fn alone(i: usize, v: u32) -> [u32; 4]
    ensures { result ≡ words 4 (λ w. cond (eqb w i) v 0) }
{
    array::from_fn(|w| if w == i { v } else { 0 })
}

// The first set bit alone, in document 01's order; no bit where none is set.
pub fn first_bit(x: [u32; 4]) -> [u32; 4]
    ensures { result ≡ first_bit 4 x }
{
    match first_word(x) {
        Some(i) => alone(i, top(x[i])),
        None => [0; 4],
    }
}
