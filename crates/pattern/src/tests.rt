use crate::like::*;
use std::test::Fail;

const LOWER_A: u16 = 97;

const LOWER_B: u16 = 98;

#[test]
fn matches_the_whole_text(rt: HostRuntime) {
    let pattern = [LOWER_A, LOWER_B];
    assert!(rt; wildcard_match(&pattern, b"ab"));
    assert!(rt; !wildcard_match(&pattern, b"a"));
    assert!(rt; !wildcard_match(&pattern, b"abb"));
    assert!(rt; !wildcard_match(&pattern, b"bb"));
}

#[test]
fn the_empty_pattern_matches_the_empty_text(rt: HostRuntime) {
    assert!(rt; wildcard_match(&[], b""));
    assert!(rt; !wildcard_match(&[], b"a"));
    assert!(rt; !wildcard_match(&[LOWER_A], b""));
}

#[test]
fn a_run_between_bytes(rt: HostRuntime) {
    let pattern = [LOWER_A, ANY_RUN, LOWER_B];
    assert!(rt; wildcard_match(&pattern, b"ab"));
    assert!(rt; wildcard_match(&pattern, b"acb"));
    assert!(rt; wildcard_match(&pattern, b"abcb"));
    assert!(rt; !wildcard_match(&pattern, b"abc"));
    assert!(rt; !wildcard_match(&pattern, b"a"));
    assert!(rt; !wildcard_match(&pattern, b"cab"));
}

#[test]
fn a_run_at_the_ends(rt: HostRuntime) {
    assert!(rt; wildcard_match(&[ANY_RUN], b""));
    assert!(rt; wildcard_match(&[ANY_RUN, ANY_RUN], b"ab"));
    assert!(rt; wildcard_match(&[ANY_RUN, LOWER_A], b"bba"));
    assert!(rt; !wildcard_match(&[ANY_RUN, LOWER_A], b"ab"));
    assert!(rt; wildcard_match(&[LOWER_A, ANY_RUN], b"a"));
    assert!(rt; wildcard_match(&[ANY_RUN, LOWER_A, ANY_RUN], b"bab"));
    assert!(rt; !wildcard_match(&[ANY_RUN, LOWER_A, ANY_RUN], b"bcb"));
}

// What follows the run fits in part before it fits as a whole.
#[test]
fn goes_back_to_the_run(rt: HostRuntime) {
    let pattern = [ANY_RUN, LOWER_A, LOWER_A, LOWER_B];
    assert!(rt; wildcard_match(&pattern, b"aaab"));
    assert!(rt; wildcard_match(&pattern, b"aabaab"));
    assert!(rt; !wildcard_match(&pattern, b"aabab"));
}

#[test]
fn bytes_that_are_not_ascii(rt: HostRuntime) {
    let text = "é".as_bytes();
    assert!(rt; wildcard_match(&[195, 169], text));
    assert!(rt; wildcard_match(&[195, ANY_RUN], text));
    assert!(rt; wildcard_match(&[ANY_RUN, 255], &[0, 255]));
    assert!(rt; !wildcard_match(&[195], text));
}

#[test]
fn a_number_above_a_run_matches_nothing(rt: HostRuntime) {
    assert!(rt; !wildcard_match(&[257], b""));
    assert!(rt; !wildcard_match(&[257], &[1]));
    assert!(rt; !wildcard_match(&[ANY_RUN, 65535, ANY_RUN], &[255, 255]));
}

// A hundred runs over a long text: every choice of places for all of them would take for ever.
#[test]
fn many_runs_over_a_long_text(rt: HostRuntime) -> Result<(), Fail> {
    let mut pattern = [ANY_RUN; 201];
    for pair in pattern.chunks_exact_mut(2) {
        pair[0] = LOWER_A;
    }
    let text = [97; 20000];
    assert!(rt; wildcard_match(&pattern, &text));
    pattern[200] = LOWER_B;
    assert!(rt; !wildcard_match(&pattern, &text));
    Ok(())
}
