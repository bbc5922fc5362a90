//! Rows of lines and their replies, by reasoning on the lists of bits.

use super::expect_rows;

#[test]
fn vobs_are_made_at_the_end_of_the_list(rt: HostRuntime) {
    expect_rows(
        &rt,
        &[
            (
                "slice 101; elem 1 9; elem 0 2; clone 0; pop 0; clone 4; bits 0; bits 1; bits 2; \
                    bits 3; bits 4",
                "vob 0; vob 1; vob 2; vob 3; bit 1; skipped; bits 10; bits 111111111; bits 00; \
                    bits 101; skipped",
            ),
            (
                "fresh; room 65; fill 1 2; bytes a012; slice 101; items 01; record 3 13; \
                    record 3 5; equal 4 6; bits 0; bits 1; bits 2; bits 3; bits 4; bits 5; bits 6",
                "vob 0; vob 1; vob 2; vob 3; vob 4; vob 5; refused 3; vob 6; true; bits -; \
                    bits -; bits 11; bits 1010000000010010; bits 101; bits 01; bits 101",
            ),
        ],
    );
}

#[test]
fn room_changes_no_bit(rt: HostRuntime) {
    expect_rows(
        &rt,
        &[(
            "slice 101; reserve 0 200; bits 0; reserve 0 18446744073709551615; \
                reserve 0 18446744073709551613; bits 0; shrink 0; bits 0; \
                reserve 1 18446744073709551615; shrink 1",
            "vob 0; done; bits 101; refused 1; refused 1; bits 101; done; bits 101; skipped; \
                skipped",
        )],
    );
}

#[test]
fn lists_are_joined_and_cut(rt: HostRuntime) {
    expect_rows(
        &rt,
        &[
            (
                "slice 10110; slice 11101; join 0 1; bits 0; bits 1; join 1 0; bits 1; join 0 0; \
                    join 0 2; join 2 0",
                "vob 0; vob 1; done; bits 1011011101; bits 11101; done; bits 111011011011101; \
                    skipped; skipped; skipped",
            ),
            (
                "slice 1011011101; split 0 4; bits 0; bits 1; split 0 0; bits 0; bits 2; \
                    split 2 5; split 2 4; bits 2; bits 3; split 4 5",
                "vob 0; vob 1; bits 1011; bits 011101; vob 2; bits -; bits 1011; refused 4; \
                    vob 3; bits 1011; bits -; skipped",
            ),
        ],
    );
}

#[test]
fn lists_of_one_length_are_combined(rt: HostRuntime) {
    expect_rows(
        &rt,
        &[
            (
                "slice 1101; slice 1011; and 0 1; bits 0; bits 1; and 0 1; xor 1 0; bits 1; \
                    or 1 0; bits 1; or 1 0; bits 0",
                "vob 0; vob 1; true; bits 1001; bits 1011; false; true; bits 0010; true; \
                    bits 1011; false; bits 1001",
            ),
            (
                "slice 1001; slice 111; and 0 0; or 0 1; xor 1 0; and 0 2; or 2 0; bits 0; bits 1",
                "vob 0; vob 1; skipped; skipped; skipped; skipped; skipped; bits 1001; bits 111",
            ),
            (
                "slice 1101; slice 1011; slice 111; andnew 0 1; ornew 1 0; xornew 0 1; bits 0; \
                    bits 1; bits 3; bits 4; bits 5",
                "vob 0; vob 1; vob 2; vob 3; vob 4; vob 5; bits 1101; bits 1011; bits 1001; \
                    bits 1111; bits 0110",
            ),
            (
                "slice 1101; slice 111; andnew 0 0; ornew 0 1; xornew 2 0; xornew 0 2; bits 2",
                "vob 0; vob 1; skipped; skipped; skipped; skipped; skipped",
            ),
        ],
    );
}

#[test]
fn lists_are_equal_by_their_bits(rt: HostRuntime) {
    expect_rows(
        &rt,
        &[(
            "slice 0100000001; slice 0100000001; slice 01000000010; slice 0100000011; equal 0 1; \
                equal 1 0; equal 0 2; equal 0 3; equal 0 0; equal 0 4; equal 4 0; reserve 0 200; \
                equal 0 1",
            "vob 0; vob 1; vob 2; vob 3; true; true; false; false; skipped; skipped; skipped; \
                done; true",
        )],
    );
}

#[test]
fn all_bits_change_at_once(rt: HostRuntime) {
    expect_rows(
        &rt,
        &[(
            "slice 1011000001; slice 1; negate 0; bits 0; setall 0 1; bits 0; setall 0 0; bits 0; \
                clear 0; bits 0; negate 0; setall 0 1; bits 0; bits 1; negate 2; setall 2 1; \
                clear 2",
            "vob 0; vob 1; done; bits 0100111110; done; bits 1111111111; done; bits 0000000000; \
                done; bits -; done; done; bits -; bits 1; skipped; skipped; skipped",
        )],
    );
}

#[test]
fn lists_grow_behind_the_last_bit(rt: HostRuntime) {
    expect_rows(
        &rt,
        &[
            (
                "slice 101; resize 0 11 1; bits 0; resize 0 12 0; bits 0; resize 0 2 1; bits 0; \
                    resize 0 2 1; bits 0; resize 0 0 1; bits 0; resize 1 3 1",
                "vob 0; done; bits 10111111111; done; bits 101111111110; done; bits 10; done; \
                    bits 10; done; bits -; skipped",
            ),
            (
                "slice 1011; append 0 01101; bits 0; append 0 -; bits 0; extend 0 1100; bits 0; \
                    extend 0 -; bits 0; append 1 1; extend 1 1",
                "vob 0; done; bits 101101101; done; bits 101101101; done; bits 1011011011100; \
                    done; bits 1011011011100; skipped; skipped",
            ),
        ],
    );
}

#[test]
fn indices_are_dealt_and_counted(rt: HostRuntime) {
    expect_rows(
        &rt,
        &[
            (
                "slice 1011011101; walk 0 1 .. FBFBFBFB; walk 0 0 .. BFBF; walk 0 1 >0..=8 FFB; \
                    walk 0 1 18446744073709551615..=18446744073709551615 B; walk 0 0 .. -",
                "vob 0; dealt 0 9 2 7 3 6 5 none; dealt 8 1 4 none; dealt 2 3 7; dealt none; \
                    dealt -",
            ),
            (
                "slice 1011011101; count 0 1 ..=18446744073709551615; count 0 0 ..; \
                    count 0 0 3..1; bits 0; count 1 1 ..; walk 1 1 .. -",
                "vob 0; number 7; number 3; number 0; bits 1011011101; skipped; skipped",
            ),
        ],
    );
}

#[test]
fn blocks_are_taken_where_they_are_canonical(rt: HostRuntime) {
    expect_rows(
        &rt,
        &[(
            "raw 3 0 13; raw 3 1 13; raw 3 0 5; equal 0 1; raw 3 0 5 0; raw 3 1 5 0; \
                raw 18446744073709551615 0; raw 18446744073709551615 1; raw 0 1; raw 9 0 767; \
                raw 9 1 767; bits 0; len 2; bits 3; bits 4",
            "refused 3; vob 0; vob 1; true; refused 3; skipped; \
                refused 3; skipped; vob 2; refused 3; \
                vob 3; bits 101; number 0; bits 111111110; skipped",
        )],
    );
}
