//! The bits of a slot in one word of the bitmap.

ghost use Rattle.std.specs.Prelude.{◌≡◌, ◌+◌, ◌*◌, ◌/◌, ◌^◌, ◌<◌, ◌≤◌};
ghost use Rattle.gh_base.specs.Shapes.{bits_at};
ghost use Rattle.gh_bitmap.specs.Bits.{bits_between, pointer_bits, slot_bits};

use gh_base::Shape;
use gh_base::limits::MOST_PAGES;

/// The bits from `low` to `high - 1`.
#[tactic(auto, using(crate::proofs::Moved::powers_apart))]
fn bits_between(low: u32, high: u32) -> u64
    requires order { low ≤ high }
    requires low { low < 64 }
    requires few { high ≤ 64 }
    ensures is { result ≡ bits_between low high }
{
    if high == 64 {
        u64::MAX - ((1 << low) - 1)
    } else {
        (1 << high) - (1 << low)
    }
}

/// The bits in word `i` of the heap words of the slot at heap word `at`.
pub(crate) fn slot_bits(at: u32, slot: u32, i: u32) -> u64
    requires begins { at / 64 ≤ i }
    requires ends { 64 * i < at + slot }
    requires within { at + slot ≤ 1024 * MOST_PAGES }
    ensures is { result ≡ slot_bits at slot i }
    ensures fits { result < 2 ^ 64 }
{
    let base = 64 * i;
    let low = at.max(base) - base;
    let high = (at + slot).min(base + 64) - base;
    bits_between(low, high)
}

/// Fields 64 i to 64 i + 63 of the shape, a bit each, set where the field is a pointer.
fn field_bits(shape: &Shape, i: u32) -> u64
    ensures { result ≡ bits_at shape.now i }
{
    let words = &shape.bits.words;
    if (i as usize) < words.len() {
        words[i as usize]
    } else {
        0
    }
}

/// The bits in word `i` of the pointer fields of an object of this shape at heap word `at`.
#[tactic(auto, using(crate::proofs::Moved::moved_fits, crate::proofs::Moved::moved_none))]
pub(crate) fn pointer_bits(shape: &Shape, at: u32, i: u32) -> u64
    requires { at / 64 ≤ i }
    ensures { result ≡ pointer_bits shape.now at i }
{
    let first = at / 64;
    let shift = at % 64;
    let here = field_bits(shape, i - first) << shift;
    if i == first {
        return here;
    }
    let below = field_bits(shape, i - first - 1);
    if shift == 0 {
        here
    } else {
        here + (below >> (64 - shift))
    }
}
