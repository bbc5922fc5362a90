//! Bytes of which the least significant bit is first, against one bit after another.
use super::support::{
    check_bits, check_blocks, check_made, check_same, pattern, pattern_bit, resize, same,
};
use std::process::Abort;
use vob::Vob;

/// Byte `k` of the first `len` bits of pattern 1.
fn pattern_byte(len: usize, k: usize) -> u8 {
    let mut byte = 0;
    for place in 0..8_u8 {
        let index = k.saturating_mul(8).saturating_add(usize::from(place));
        if index < len && pattern_bit(1, index) {
            byte |= 1_u8 << place;
        }
    }
    byte
}

/// Writes the bits of a pattern as bytes, and reads these.
fn check_bytes(rt: &(impl Abort + AllocGlobal), len: usize) {
    let mut vob = pattern::<usize>(rt, 1, len);
    let bytes = vob.to_le_bytes(rt.alloc()).expect(rt, "memory");
    same(rt, "the bytes", len, bytes.len(), len.div_ceil(8));
    for k in 0..bytes.len() {
        same(rt, "byte", k, bytes[k], pattern_byte(len, k));
    }
    let read = Vob::from_le_bytes(rt.alloc(), bytes.as_slice()).expect(rt, "memory");
    resize(rt, &mut vob, bytes.len().saturating_mul(8), false);
    check_same(rt, &read, &vob);
}

#[test]
fn bits_of_every_length_are_low_bytes_and_back(rt: HostRuntime) {
    for len in 0..131 {
        check_bytes(&rt, len);
    }
    check_bytes(&rt, 1000);
}

#[test]
fn low_bytes_give_their_least_bit_first(rt: HostRuntime) {
    let alloc = rt.alloc();
    let two = Vob::from_le_bytes(alloc, &[0b0000_0101, 0b0100_1000]).expect(&rt, "memory");
    check_blocks(&rt, &two, 16, &[0x4805]);
    check_bits(&rt, &two, "1010000000010010");
    check_made(&rt, Vob::from_le_bytes(alloc, &[]), 0, &[]);
    let nine = Vob::from_le_bytes(alloc, &[0x05, 0x48, 0xac, 0x53, 0x8c, 0xa9, 0x3e, 0x8a, 1]);
    check_made(&rt, nine, 72, &[0x8a3e_a98c_53ac_4805, 1]);
}
