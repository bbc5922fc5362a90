//! Calls at each block type: rows worked out by hand, and calls that leave the same bits at each. Other
//! tests are at one type, since a contract says the same of each.
use super::support::{check_bits, listed, pattern, push, resize, same, same_list, vob_of, write};
use std::process::Abort;
use vob::Vob;
use vob_block::Block;

/// Compares the bits, and the blocks as they print.
fn check_row<T: Block>(rt: &(impl Abort + AllocGlobal), digits: &str, blocks: &str) {
    let vob = vob_of::<T>(rt, digits);
    check_bits(rt, &vob, digits);
    let found = vob.get(digits.len());
    same(rt, "past the end", digits.len(), found, None);
    let text = format!(in rt.alloc(); "{:?}", vob.get_storage()).expect(rt, "memory");
    same(rt, digits, 0, text.as_str(), blocks);
}

/// Compares the blocks of some digits, as they print, at each type from `u8` to `u128`, and at `usize`.
fn check_each(rt: &(impl Abort + AllocGlobal), digits: &str, blocks: [&str; 6]) {
    let [bytes, halves, quarters, words, double, native] = blocks;
    check_row::<u8>(rt, digits, bytes);
    check_row::<u16>(rt, digits, halves);
    check_row::<u32>(rt, digits, quarters);
    check_row::<u64>(rt, digits, words);
    check_row::<u128>(rt, digits, double);
    check_row::<usize>(rt, digits, native);
}

#[test]
fn each_block_type_takes_as_many_blocks_as_its_width_needs(rt: HostRuntime) {
    // One bit more than two words takes one more block.
    let ones = "111111111111111111111111111111111111111111111111111111111111111111111111111111\
        111111111111111111111111111111111111111111111111111";
    let bytes =
        "[255, 255, 255, 255, 255, 255, 255, 255, 255, 255, 255, 255, 255, 255, 255, 255, 1]";
    let halves = "[65535, 65535, 65535, 65535, 65535, 65535, 65535, 65535, 1]";
    let quarters = "[4294967295, 4294967295, 4294967295, 4294967295, 1]";
    let words = "[18446744073709551615, 18446744073709551615, 1]";
    let double = "[340282366920938463463374607431768211455, 1]";
    for (digits, blocks) in [
        ("101", ["[5]"; 6]),
        // Ten bits take one block or two bytes.
        (
            "1011011101",
            ["[237, 2]", "[749]", "[749]", "[749]", "[749]", "[749]"],
        ),
        (
            "111111111",
            ["[255, 1]", "[511]", "[511]", "[511]", "[511]", "[511]"],
        ),
        (ones, [bytes, halves, quarters, words, double, words]),
    ] {
        check_each(&rt, digits, blocks);
    }
}

/// `set_unchecked`, with the length tested first.
pub fn write_unchecked<T: Block>(vob: &mut Vob<T>, index: usize, value: bool) -> Option<bool> {
    if index < vob.len() {
        Some(vob.set_unchecked(index, value))
    } else {
        None
    }
}

/// Compares what `get` reads, and within the length `get_unchecked` and an index too.
pub fn reads<T: Block>(rt: &impl Abort, vob: &Vob<T>, index: usize, wanted: Option<bool>) {
    same(rt, "bit", index, vob.get(index), wanted);
    if wanted.is_some() {
        assert!(rt; index < vob.len());
        same(rt, "bit", index, Some(vob.get_unchecked(index)), wanted);
        same(rt, "bit", index, Some(vob[index]), wanted);
    }
}

/// As many true bits as a block has places, `width`, and one more in a block of its own.
fn check_word<T: Block>(rt: &(impl Abort + AllocGlobal), width: u8) {
    let next = width as usize;
    let last = next.saturating_sub(1);
    let before = next.saturating_sub(2);
    let mut vob = vob_of::<T>(rt, "");
    for _ in 0..width {
        push(rt, &mut vob, true);
    }
    reads(rt, &vob, 0, Some(true));
    reads(rt, &vob, last, Some(true));
    reads(rt, &vob, next, None);
    same(rt, "blocks of bits", next, vob.get_storage().len(), 1);
    push(rt, &mut vob, true);
    same(rt, "blocks behind", next, vob.get_storage().len(), 2);
    // The first bit of its block is written, and no bit before it.
    reads(rt, &vob, next, Some(true));
    reads(rt, &vob, next.saturating_add(1), None);
    same(rt, "clears", next, write(&mut vob, next, false), Some(true));
    reads(rt, &vob, next, Some(false));
    same(rt, "sets", next, write(&mut vob, next, true), Some(true));
    same(rt, "stays", next, write(&mut vob, next, true), Some(false));
    reads(rt, &vob, last, Some(true));
    reads(rt, &vob, before, Some(true));
    let changed = write_unchecked(&mut vob, before, true);
    same(rt, "true stays", before, changed, Some(false));
}

#[test]
fn a_full_block_and_one_bit_more(rt: HostRuntime) {
    check_word::<u8>(&rt, 8);
    check_word::<u16>(&rt, 16);
    check_word::<u32>(&rt, 32);
    check_word::<u64>(&rt, 64);
    check_word::<u128>(&rt, 128);
    check_word::<usize>(&rt, 64);
}

/// Changes bits in place by calls of each kind.
fn turn<T: Block>(vob: &mut Vob<T>) {
    vob.reverse();
    vob.rotate_left(77);
    vob.rotate_right(usize::MAX);
    vob.shl(5);
    vob.shr(3);
    vob.negate_range(9..140);
    vob.set_range(130..=200, true);
    vob.negate();
}

/// The bits that these calls leave of a pattern.
fn changed_bits<T: Block>(rt: &(impl Abort + AllocGlobal), len: usize) -> Vec<bool> {
    let mut vob = pattern::<T>(rt, 1, len);
    turn(&mut vob);
    resize(rt, &mut vob, 450, true);
    listed(rt, vob.iter())
}

#[test]
fn calls_leave_the_same_bits_at_each_block_type(rt: HostRuntime) {
    for len in [0, 1, 8, 64, 129, 300] {
        let wanted = changed_bits::<u8>(&rt, len);
        same_list(&rt, "u16", &changed_bits::<u16>(&rt, len), &wanted);
        same_list(&rt, "u32", &changed_bits::<u32>(&rt, len), &wanted);
        same_list(&rt, "u64", &changed_bits::<u64>(&rt, len), &wanted);
        same_list(&rt, "u128", &changed_bits::<u128>(&rt, len), &wanted);
        same_list(&rt, "usize", &changed_bits::<usize>(&rt, len), &wanted);
    }
}
