//! The slots of a span that begin in one alloc word.

ghost use Rattle.std.specs.Prelude.{◌≡◌, ℕ, ◌+◌, ◌*◌, ◌-◌, ◌%◌, ◌<◌, ◌≤◌, ◌^◌, ◌↔◌, IsTrue, slice_index};
ghost use Rattle.std.specs.Int.{bit_at};
ghost use Rattle.gh_central.specs.Slots.{LacksSlot, lacks_slot, slot_starts};

// By the words of a slot: the bits at which slots begin, the first at bit 0.
const STARTS: [u64; 64] = [
    0x0000_0000_0000_0000,
    0xffff_ffff_ffff_ffff,
    0x5555_5555_5555_5555,
    0x9249_2492_4924_9249,
    0x1111_1111_1111_1111,
    0x1084_2108_4210_8421,
    0x1041_0410_4104_1041,
    0x8102_0408_1020_4081,
    0x0101_0101_0101_0101,
    0x8040_2010_0804_0201,
    0x1004_0100_4010_0401,
    0x0080_1002_0040_0801,
    0x1001_0010_0100_1001,
    0x0010_0080_0400_2001,
    0x0100_0400_1000_4001,
    0x1000_2000_4000_8001,
    0x0001_0001_0001_0001,
    0x0008_0004_0002_0001,
    0x0040_0010_0004_0001,
    0x0200_0040_0008_0001,
    0x1000_0100_0010_0001,
    0x8000_0400_0020_0001,
    0x0000_1000_0040_0001,
    0x0000_4000_0080_0001,
    0x0001_0000_0100_0001,
    0x0004_0000_0200_0001,
    0x0010_0000_0400_0001,
    0x0040_0000_0800_0001,
    0x0100_0000_1000_0001,
    0x0400_0000_2000_0001,
    0x1000_0000_4000_0001,
    0x4000_0000_8000_0001,
    0x0000_0001_0000_0001,
    0x0000_0002_0000_0001,
    0x0000_0004_0000_0001,
    0x0000_0008_0000_0001,
    0x0000_0010_0000_0001,
    0x0000_0020_0000_0001,
    0x0000_0040_0000_0001,
    0x0000_0080_0000_0001,
    0x0000_0100_0000_0001,
    0x0000_0200_0000_0001,
    0x0000_0400_0000_0001,
    0x0000_0800_0000_0001,
    0x0000_1000_0000_0001,
    0x0000_2000_0000_0001,
    0x0000_4000_0000_0001,
    0x0000_8000_0000_0001,
    0x0001_0000_0000_0001,
    0x0002_0000_0000_0001,
    0x0004_0000_0000_0001,
    0x0008_0000_0000_0001,
    0x0010_0000_0000_0001,
    0x0020_0000_0000_0001,
    0x0040_0000_0000_0001,
    0x0080_0000_0000_0001,
    0x0100_0000_0000_0001,
    0x0200_0000_0000_0001,
    0x0400_0000_0000_0001,
    0x0800_0000_0000_0001,
    0x1000_0000_0000_0001,
    0x2000_0000_0000_0001,
    0x4000_0000_0000_0001,
    0x8000_0000_0000_0001,
];

// By the words of a slot: 2 ^ 32 over them, rounded up. Only the time that a remainder takes rests on these numbers.
const RECIPROCALS: [u64; 64] = [
    0x0000_0000_0000,
    0x0001_0000_0000,
    0x0000_8000_0000,
    0x0000_5555_5556,
    0x0000_4000_0000,
    0x0000_3333_3334,
    0x0000_2aaa_aaab,
    0x0000_2492_4925,
    0x0000_2000_0000,
    0x0000_1c71_c71d,
    0x0000_1999_999a,
    0x0000_1745_d175,
    0x0000_1555_5556,
    0x0000_13b1_3b14,
    0x0000_1249_2493,
    0x0000_1111_1112,
    0x0000_1000_0000,
    0x0000_0f0f_0f10,
    0x0000_0e38_e38f,
    0x0000_0d79_435f,
    0x0000_0ccc_cccd,
    0x0000_0c30_c30d,
    0x0000_0ba2_e8bb,
    0x0000_0b21_642d,
    0x0000_0aaa_aaab,
    0x0000_0a3d_70a4,
    0x0000_09d8_9d8a,
    0x0000_097b_425f,
    0x0000_0924_924a,
    0x0000_08d3_dcb1,
    0x0000_0888_8889,
    0x0000_0842_1085,
    0x0000_0800_0000,
    0x0000_07c1_f07d,
    0x0000_0787_8788,
    0x0000_0750_7508,
    0x0000_071c_71c8,
    0x0000_06eb_3e46,
    0x0000_06bc_a1b0,
    0x0000_0690_6907,
    0x0000_0666_6667,
    0x0000_063e_7064,
    0x0000_0618_6187,
    0x0000_05f4_17d1,
    0x0000_05d1_745e,
    0x0000_05b0_5b06,
    0x0000_0590_b217,
    0x0000_0572_620b,
    0x0000_0555_5556,
    0x0000_0539_782a,
    0x0000_051e_b852,
    0x0000_0505_0506,
    0x0000_04ec_4ec5,
    0x0000_04d4_873f,
    0x0000_04bd_a130,
    0x0000_04a7_904b,
    0x0000_0492_4925,
    0x0000_047d_c120,
    0x0000_0469_ee59,
    0x0000_0456_c798,
    0x0000_0444_4445,
    0x0000_0432_5c54,
    0x0000_0421_0843,
    0x0000_0410_4105,
];

/// Each bit of `found` is set at which a slot of the span may begin: `before` words of the span lie
/// before those of this alloc word, and the slots are cut from the span's first word on. Said of slots
/// of fewer than 64 words alone.
///
/// This is what the pass meets most, in a span that is full: it is told so by one `and`, with no loop
/// over the slots.
pub(crate) fn none_clear(slot: u32, before: u32, found: u64) -> bool
    requires { 1 ≤ slot }
    ensures { IsTrue result → (j : ℕ) → j < 64 → (before + j) % slot ≡ 0 → bit_at found j ≡ 1 }
{
    if slot >= 64 {
        return false;
    }
    (!found >> first_start(slot, before)) & starts(slot) == 0
}

/// A word with each bit set at which a slot of so many words begins, the first at bit 0.
#[tactic(auto, unfolding(crate::specs::Slots::slot_starts))]
fn starts(slot: u32) -> u64
    requires { slot < 64 }
    ensures { result ≡ slice_index slot_starts slot }
{
    STARTS[slot as usize]
}

/// The remainder of so many words over those of a slot.
///
/// The pass asks for it at each alloc word, and a product takes a fraction of the time of a division. So the quotient is guessed
/// by the slot's reciprocal. It is right exactly where what is left of the words is less than a slot: a guess too low leaves a
/// slot or more, and one too high wraps around. Else it is divided. So the table settles the time, and nothing else.
fn remainder(before: u32, slot: u32) -> u32
    requires { 1 ≤ slot }
    ensures { result ≡ before % slot }
{
    if slot < 64 {
        let (words, size) = (u64::from(before), u64::from(slot));
        let whole = (words.wrapping_mul(RECIPROCALS[slot as usize]) >> 32) * size;
        let left = words.wrapping_sub(whole);
        if left < size {
            return left as u32;
        }
    }
    before % slot
}

/// The first word at which a slot begins, counted from word `before` of the span on.
fn first_start(slot: u32, before: u32) -> u32
    requires { 1 ≤ slot }
    ensures below { result < slot }
    ensures begins { (before + result) % slot ≡ 0 }
{
    let into = remainder(before, slot);
    if into == 0 { 0 } else { slot - into }
}

/// How many slots begin before so many words of a span.
fn slots_before(slot: u32, words: u32) -> u32
    requires { 1 ≤ slot }
    ensures { (i : ℕ) → (i < result) ↔ (i * slot < words) }
{
    words.div_ceil(slot)
}

/// A slot of the span that begins at heap word `first` begins in alloc word `word`, and its bit is
/// clear in what was found there.
fn some_clear(slot: u32, slots: u32, first: u32, word: u32, found: u64) -> bool
    requires some { 1 ≤ slot }
    requires behind { first ≤ 64 * word }
    requires within { word < 2 ^ 24 }
    ensures { IsTrue result ↔ LacksSlot slot slots first word found }
{
    let from = slots_before(slot, 64 * word - first);
    let end = slots_before(slot, 64 * word + 64 - first).min(slots);
    for i in from..end {
        let at = first + i * slot;
        if (found >> (at % 64)) & 1 == 0 {
            return true;
        }
    }
    false
}

/// The same, as the test that the pass makes.
pub(crate) fn lacks_slot(slot: u32, slots: u32, first: u32, word: u32, found: u64) -> bool
    requires some { 1 ≤ slot }
    requires behind { first ≤ 64 * word }
    requires within { word < 2 ^ 24 }
    ensures is { result ≡ lacks_slot slot slots first word found }
    ensures says { IsTrue result ↔ LacksSlot slot slots first word found }
{
    some_clear(slot, slots, first, word, found)
}
