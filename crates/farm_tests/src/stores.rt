//! The two stores by their trait, and the real files and streams by theirs.
use crate::drawn::hold;
use crate_trials::{steps, what_fails, what_fails_in_memory, what_fails_of_two};
use farm_base::DiskFiles;
use std::process::Abort;

// Nothing was wrong.
fn ends(rt: &impl Abort, told: Option<String>) {
    let Some(text) = told else {
        panic!(rt; "no memory")
    };
    assert!(rt; text.is_empty(), "{text}");
}

#[test]
fn memory_and_files_hold(rt: HostRuntime) {
    ends(&rt, what_fails_in_memory(rt.alloc()));
    ends(&rt, what_fails(rt, rt.alloc(), steps::HOLDS));
}

#[test]
fn each_wrong_step_is_told(rt: HostRuntime) {
    assert!(rt; crate_trials::each_wrong_step_is_told(rt, rt.alloc()));
}

#[test]
fn the_system_refuses(rt: HostRuntime) {
    ends(&rt, what_fails(rt, rt.alloc(), steps::THE_SYSTEM_REFUSES));
}

#[test]
fn what_was_staged_is_put(rt: HostRuntime) {
    ends(&rt, what_fails(rt, rt.alloc(), steps::STAGED_IS_PUT));
}

#[test]
fn two_are_staged_at_once(rt: HostRuntime) {
    ends(&rt, what_fails(rt, rt.alloc(), steps::TWO_ARE_STAGED));
}

#[test]
fn a_number_that_is_there_is_not_staged(rt: HostRuntime) {
    ends(&rt, what_fails(rt, rt.alloc(), steps::A_NUMBER_IS_THERE));
}

#[test]
fn what_is_replaced_is_kept_until_the_clear(rt: HostRuntime) {
    ends(&rt, what_fails(rt, rt.alloc(), steps::REPLACED_IS_KEPT));
}

#[test]
fn what_a_run_left_is_removed(rt: HostRuntime) {
    ends(&rt, what_fails(rt, rt.alloc(), steps::LEFT_IS_REMOVED));
}

#[test]
fn one_store_has_the_folder(rt: HostRuntime) {
    ends(&rt, what_fails_of_two(rt, rt.alloc()));
}

#[test]
fn a_cut_file_is_read_anew(rt: HostRuntime) {
    ends(
        &rt,
        what_fails(rt, rt.alloc(), steps::A_CUT_FILE_IS_READ_ANEW),
    );
}

#[test]
fn a_linked_folder_is_not_emptied(rt: HostRuntime) {
    ends(
        &rt,
        what_fails(rt, rt.alloc(), steps::A_LINKED_FOLDER_IS_NOT_EMPTIED),
    );
}

#[test]
fn the_longest_part(rt: HostRuntime) {
    hold(&rt, crate_trials::the_longest_part(rt, rt.alloc()));
}

#[test]
fn bytes_whose_file_is_gone_are_put(rt: HostRuntime) {
    ends(&rt, what_fails(rt, rt.alloc(), steps::FILE_IS_GONE));
}

#[test]
fn a_staged_put_that_fails_is_told(rt: HostRuntime) {
    ends(&rt, what_fails(rt, rt.alloc(), steps::A_PUT_FAILS));
}

#[test]
fn a_staging_that_fails_is_told(rt: HostRuntime) {
    ends(&rt, what_fails(rt, rt.alloc(), steps::A_STAGING_FAILS));
}

#[test]
fn a_piece_is_taken_whole_or_not(rt: HostRuntime) {
    assert!(rt; crate_trials::a_piece_is_taken_whole_or_not(rt.alloc()));
}

#[test]
fn files_are_read(rt: HostRuntime) {
    let mut files = DiskFiles::new(rt);
    assert!(rt; crate_trials::files_are_read(&rt, rt.alloc(), &mut files));
}

#[test]
fn a_longer_file_is_refused(rt: HostRuntime) {
    assert!(rt; crate_trials::a_longer_file_is_refused(rt.alloc()));
}
