//! What blocks return: they ask for no memory.
use crate::tests::support::{FIRST, request, same, same_list, tell};
use std::process::Abort;
use vob_block::{BitBlock, Blocks, Kernel};

/// Places 1 and 2, with places 0 and 1.
fn check_operators(rt: &impl Abort) {
    same(rt, "band", 0, 6u8.band(3), 2);
    same(rt, "bor", 0, 6u8.bor(3), 7);
    same(rt, "bxor", 0, 6u8.bxor(3), 5);
    same(rt, "bnot", 0, 6u8.bnot(), 249);
    same(rt, "low_mask", 0, u8::low_mask(3), 7);
}

/// Places 1 and 2, moved: up by 6, place 2 passes the width.
fn check_moves(rt: &impl Abort) {
    same(rt, "up", 0, 6u8.up(6), 128);
    same(rt, "down", 0, 6u8.down(2), 1);
    same(rt, "rotate_up", 0, 6u8.rotate_up(6), 129);
    same(rt, "funnel_down", 0, 6u8.funnel_down(3, 1), 131);
}

/// Places 1 and 2 of eight, counted and found.
fn check_places(rt: &impl Abort) {
    same(rt, "ones_in", 0, 6u8.ones_in(), 2);
    same(rt, "zeros_low", 0, 6u8.zeros_low(), 1);
    same(rt, "zeros_high", 0, 6u8.zeros_high(), 5);
    same(rt, "bit", 0, 6u8.bit(2), true);
    6u8.in_range();
    u8::all_in_range(&[6]);
}

/// `or`, `xor` and `and` of two blocks into others.
fn check_kernels(rt: &impl Abort) {
    let mut own = [5u8, 0];
    let other = [6u8, 9];
    same(
        rt,
        "or",
        0,
        u8::or_into(&mut own, &mut Blocks::new(&other)),
        true,
    );
    same_list(rt, "or", &own, &[7, 9]);
    same(
        rt,
        "xor",
        0,
        u8::xor_into(&mut own, &mut Blocks::new(&other)),
        true,
    );
    same_list(rt, "xor", &own, &[1, 0]);
    same(
        rt,
        "and",
        0,
        u8::and_into(&mut own, &mut Blocks::new(&other)),
        true,
    );
    same_list(rt, "and", &own, &[0, 0]);
}

/// Eight blocks, read at once.
fn check_chunk(rt: &impl Abort) {
    let stored = [6u8, 9, 0, 0, 0, 0, 0, 1];
    let mut blocks = Blocks::new(&stored);
    assert!(rt; blocks.len() >= 8);
    same_list(rt, "a chunk", &blocks.chunk(0), &stored);
}

#[test]
fn blocks_take_no_memory(rt: HostRuntime) {
    request(&rt, FIRST);
    check_operators(&rt);
    check_moves(&rt);
    check_places(&rt);
    check_kernels(&rt);
    check_chunk(&rt);
    let stored = [6u8, 9];
    let mut blocks = Blocks::new(&stored);
    same(&rt, "the blocks", 0, blocks.len(), 2);
    same(&rt, "a block", 0, blocks.block(1), 9);
    tell(&rt, true);
}
