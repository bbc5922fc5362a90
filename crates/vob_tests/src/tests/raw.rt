//! Raw storage: what is taken back as a Vob and what isn't, and records of it as text.
ghost use Rattle.std.specs.Prelude.{◌≡◌, ◌++◌, ◌∷◌, [], OnOk};

use super::support::{check_bits, check_blocks, same, same_list, vob_of};
use std::alloc::AllocError;
use std::process::Abort;
use vob::{RawVob, Vob, VobRecord};
use vob_block::Kernel;

/// Raw storage of these blocks.
fn raw_of<T: Kernel>(rt: &(impl Abort + AllocGlobal), len: usize, blocks: &[T]) -> RawVob<T> {
    RawVob::from_parts(len, blocks.to_vec(rt.alloc()).expect(rt, "memory"))
}

/// Compares the length and the blocks.
fn check_raw<T: Kernel>(rt: &impl Abort, raw: &RawVob<T>, len: usize, blocks: &[T]) {
    same(rt, "the length", len, raw.len(), len);
    same_list(rt, "the blocks", raw.get_storage(), blocks);
}

/// Raw storage that is taken as a Vob.
fn check_taken<T: Kernel>(rt: &impl Abort, raw: RawVob<T>, digits: &str, blocks: &[T]) {
    let vob = raw.into_vob().ok().expect(rt, "this storage is canonical");
    check_blocks(rt, &vob, digits.len(), blocks);
    check_bits(rt, &vob, digits);
}

/// Raw storage that isn't taken, and is returned.
fn check_refused<T: Kernel>(
    rt: &(impl Abort + AllocGlobal),
    len: usize,
    blocks: &[T],
) -> RawVob<T> {
    let refused = raw_of(rt, len, blocks).into_vob().err();
    let raw = refused.expect(rt, "this storage isn't canonical");
    check_raw(rt, &raw, len, blocks);
    raw
}

/// Storage whose block count is that of its length: the last block is masked.
fn masked<T: Kernel>(rt: &impl Abort, raw: RawVob<T>) -> RawVob<T> {
    let mut raw = raw;
    assert!(rt; raw.fits(), "the block count of {raw:?}");
    raw.mask_last_block();
    raw
}

/// Appends a block.
fn push_block<T: Kernel>(raw: &mut RawVob<T>, block: T) -> Result<(), AllocError>
    ensures len { raw.new.len ≡ raw.old.len }
    ensures blocks { OnOk result (raw.new.blocks ≡ raw.old.blocks ++ block ∷ []) }
{
    raw.get_storage_mut().push(block)?;
    Ok(())
}

#[test]
fn dirty_storage_is_taken_once_it_is_masked(rt: HostRuntime) {
    let dirty = masked(&rt, check_refused(&rt, 3, &[13u8]));
    check_raw(&rt, &dirty, 3, &[5]);
    check_taken(&rt, dirty, "101", &[5]);
    let dirty = masked(&rt, check_refused(&rt, 10, &[11u8, 6]));
    check_taken(&rt, dirty, "1101000001", &[11, 2]);
    let dirty = masked(&rt, check_refused(&rt, 9, &[255u8, 2]));
    check_raw(&rt, &dirty, 9, &[255, 0]);
    check_taken(&rt, dirty, "111111110", &[255, 0]);
    // Words are masked in the last block alone.
    let word = 0xaaaa_aaaa_aaaa_aaaa;
    let one = masked(&rt, raw_of(&rt, 7, &[0xaaaa_aaaau64]));
    check_taken(&rt, one, "0101010", &[42]);
    let one = masked(&rt, raw_of(&rt, 30, &[0xffff_aaaau64]));
    check_taken(&rt, one, "010101010101010111111111111111", &[1_073_719_978]);
    let two = masked(&rt, raw_of(&rt, 68, &[word, word]));
    check_raw(&rt, &two, 68, &[word, 10u64]);
    let taken = two.into_vob().ok().expect(&rt, "a Vob");
    check_blocks(&rt, &taken, 68, &[word, 10]);
}

#[test]
fn a_block_too_many_or_too_few_is_handed_back(rt: HostRuntime) {
    for (len, blocks) in [
        (3, [5u8, 0].as_slice()),
        (9, &[1]),
        (0, &[0]),
        (usize::MAX, &[]),
    ] {
        let fits = check_refused(&rt, len, blocks).fits();
        same(&rt, "the block count", len, fits, false);
    }
    // Nothing and whole blocks have no unused bit.
    check_taken(&rt, raw_of::<u8>(&rt, 0, &[]), "", &[]);
    check_taken(&rt, raw_of(&rt, 8, &[255u8]), "11111111", &[255]);
}

#[test]
fn blocks_and_length_are_changed_and_taken_back(rt: HostRuntime) {
    let mut raw = vob_of::<u8>(&rt, "10").into_raw();
    check_raw(&rt, &raw, 2, &[1]);
    push_block(&mut raw, 1).expect(&rt, "memory");
    raw.set_len(9);
    check_taken(&rt, raw, "100000001", &[1, 1]);
    let mut raw = vob_of::<usize>(&rt, "101").into_raw();
    check_raw(&rt, &raw, 3, &[5]);
    if let Some(first) = raw.get_storage_mut().first_mut() {
        *first = 7;
    }
    check_taken(&rt, raw, "111", &[7]);
}

/// The record of this text.
fn record_of(rt: &(impl Abort + AllocGlobal), text: &str) -> VobRecord {
    serde_json::from_str(rt.alloc(), text)
        .ok()
        .expect(rt, "a record")
}

/// A text that is read as a record, which isn't taken.
fn check_refused_text(rt: &(impl Abort + AllocGlobal), text: &str, len: usize, blocks: &[usize]) {
    let refused = record_of(rt, text).into_vob().err();
    let record = refused.expect(rt, "this record isn't canonical");
    same(rt, "the length", len, record.len, len);
    same_list(rt, "the blocks", record.vec.as_slice(), blocks);
}

/// A text that is read as a record, which is taken, and written again.
fn check_taken_text(rt: &(impl Abort + AllocGlobal), text: &str, digits: &str, blocks: &[usize]) {
    let taken = record_of(rt, text).into_vob().ok();
    let vob = taken.expect(rt, "this record is canonical");
    check_blocks(rt, &vob, digits.len(), blocks);
    check_bits(rt, &vob, digits);
    let written = serde_json::to_string(rt.alloc(), &vob.into_record()).ok();
    let written = written.expect(rt, "memory");
    same(rt, "written", 0, written.as_str(), text);
}

#[test]
fn a_record_is_written_as_it_was_read_or_handed_back(rt: HostRuntime) {
    check_taken_text(&rt, r#"{"len":3,"vec":[5]}"#, "101", &[5]);
    check_taken_text(&rt, r#"{"len":4,"vec":[2]}"#, "0100", &[2]);
    check_taken_text(&rt, r#"{"len":0,"vec":[]}"#, "", &[]);
    check_refused_text(&rt, r#"{"len":3,"vec":[13]}"#, 3, &[13]);
    let longest = r#"{"len":18446744073709551615,"vec":[]}"#;
    check_refused_text(&rt, longest, usize::MAX, &[]);
}
