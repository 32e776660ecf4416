//! A farm of one thread by a script, a shared one by a seat and over loopback, and cells of a counter.
use crate::drawn::hold;

#[test]
fn the_life_of_a_metatile_through_one_seat(rt: HostRuntime) {
    let Some(parts) = farm_trials::the_life_of_a_metatile(&rt, rt.alloc()) else {
        panic!(rt; "a file is refused, or no memory")
    };
    let [begun, later] = parts;
    hold(&rt, Some(begun));
    hold(&rt, Some(later));
}

#[test]
fn a_script_on_a_farm_of_one_thread(rt: HostRuntime) {
    hold(&rt, farm_trials::a_script_is_answered(rt.alloc()));
}

#[test]
fn every_front_is_woken(rt: HostRuntime) {
    hold(&rt, Some(farm_trials::every_front_is_woken()));
}

#[test]
fn a_cell_of_three_turns_wears_out(rt: HostRuntime) {
    hold(
        &rt,
        farm_trials::a_cell_of_three_turns_wears_out(&rt, rt.alloc()),
    );
}

#[test]
fn threads_count_every_turn_once(rt: HostRuntime) {
    assert!(rt; farm_trials::threads_count_every_turn_once(&rt, rt.alloc()));
}

#[test]
fn a_client_over_loopback(rt: HostRuntime) {
    hold(&rt, farm_trials::a_client_over_loopback(rt, rt.alloc()));
}
