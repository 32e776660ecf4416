//! A script under way: the steps that are left.
ghost use Rattle.std.specs.Prelude.{◌≡◌, ◌<◌, ◌+◌, ◌-◌, ◌^◌, ◌∷◌, ◌||◌, [], true, false, length, drop, IfNone, IfSome};
ghost use Rattle.std.specs.List.{list_all};
ghost use Rattle.reactor_ports.specs.Playing.{is_alive_at, is_live, is_through, BeginsLive, Passes};
ghost use Rattle.reactor_ports.specs.Scripts.{has_piece};
ghost use Rattle.reactor_ports.specs.inner.Moving.{GoneIf, Passings, PassesScript};

use crate::mem_counts::Counts;
use crate::peers::{self, Peer};
use crate::port_steps::PortStep;
use std::marker::Model;

/// The steps that are left, how often the Await that stands first has answered Woken, and whether it was
/// seen before the first step who is to hear Writable. Each piece of them has 1 to 4,096 bytes.
#[derive(Drop)]
pub struct Script {
    steps: Vec<PortStep>,
    // the steps before this place are over
    place: usize,
    used: u64,
    ready: bool,
}

impl Model for Script {
    ghost use Rattle.std.specs.Prelude.{◌≡◌, true, drop};
    ghost use Rattle.std.specs.List.{list_all};
    ghost use Rattle.reactor_ports.specs.Scripts.{has_piece};
    ghost use Rattle.reactor_ports.specs.inner.Moving.{ScriptHeld};

    ghost Value = { ScriptHeld };

    ghost view = { λ s. record {
      steps = drop s.place s.steps.items;
      used = s.used;
      ready = s.ready;
    } };

    ghost invariant = { λ s. list_all has_piece (drop s.place s.steps.items) ≡ true };
}

fn if_gone(peers: &[Peer], conn: u32) -> Option<bool>
    ensures { GoneIf (is_alive_at peers.now conn) result }
{
    if peers::is_alive_at(peers, conn) {
        None
    } else {
        Some(false)
    }
}

// Whether a step is passed over: nothing where it is played, else whether it is an Await whose number
// of bytes was sent.
fn passing_of(peers: &[Peer], counts: &Counts, step: &PortStep) -> Option<bool>
    ensures { Passings peers.now step.now result }
{
    match step {
        PortStep::Open => None,
        PortStep::Break => None,
        PortStep::Await(front, bytes) => {
            if counts.has_sent(*front, *bytes) {
                Some(true)
            } else {
                None
            }
        }
        PortStep::Bytes(conn, _) => if_gone(peers, *conn),
        PortStep::End(conn) => if_gone(peers, *conn),
        PortStep::Lose(conn) => if_gone(peers, *conn),
    }
}

// Both are computed before this, so that no branch is left to a proof.
fn either(a: bool, b: bool) -> bool
    ensures { result ≡ (a || b) }
{
    a || b
}

// The place of the first step from this one on that is played, and whether an Await was passed over.
fn first_left(peers: &[Peer], counts: &Counts, steps: &[PortStep], from: usize) -> (usize, bool)
    ensures { Passes peers.now (drop from steps.now) (drop result.0 steps.now) result.1 }
{
    let mut reached = false;
    for place in from..steps.len() {
        let Some(reaches) = passing_of(peers, counts, &steps[place]) else {
            return (place, reached);
        };
        reached = either(reached, reaches);
    }
    (steps.len(), reached)
}

impl Script {
    pub fn new(steps: Vec<PortStep>) -> Script
        requires { list_all has_piece steps.items ≡ true }
        ensures { result ≡ record { steps = steps.items; used = 0; ready = false } }
    {
        Script {
            steps,
            place: 0,
            used: 0,
            ready: false,
        }
    }

    pub fn used(&self) -> u64
        ensures { result ≡ self.now.used }
    {
        self.used
    }

    pub fn is_ready(&self) -> bool
        ensures { result ≡ self.now.ready }
    {
        self.ready
    }

    /// Whether no step is left.
    pub fn is_through(&self) -> bool
        ensures { result ≡ is_through self.now.steps }
    {
        self.steps.as_slice().get(self.place).is_none()
    }

    /// Passes over the steps that are not played.
    pub fn pass(&mut self, peers: &[Peer], counts: &Counts)
        ensures { PassesScript peers.now self.old self.new }
    {
        let (place, reached) = first_left(peers, counts, self.steps.as_slice(), self.place);
        self.place = place;
        if reached {
            self.used = 0;
            self.ready = false;
        }
    }

    /// The step that stands first and is played.
    pub fn first(&self, peers: &[Peer]) -> Option<&PortStep>
        requires { BeginsLive peers.now self.now.steps }
        ensures some { IfSome result (λ s.
            (self.entry.now.steps ≡ s.now ∷ drop 1 self.entry.now.steps)
            × (is_live peers.entry.now s.now ≡ true) × (has_piece s.now ≡ true)) }
        ensures none { IfNone result (self.entry.now.steps ≡ []) }
    {
        self.steps.get(self.place)
    }

    /// The next step is to come.
    pub fn step_on(&mut self)
        requires { 0 < length self.old.steps }
        ensures { self.new ≡ record { steps = drop 1 self.old.steps; used = 0; ready = false } }
    {
        self.place += 1;
        self.used = 0;
        self.ready = false;
    }

    /// One more Woken of the Await that stands first.
    pub fn wait(&mut self)
        requires { self.old.used < 2 ^ 64 - 1 }
        ensures { self.new ≡ record self.old { used = self.old.used + 1 } }
    {
        self.used += 1;
    }

    /// It was seen who is to hear Writable before the first step.
    pub fn get_ready(&mut self)
        ensures { self.new ≡ record self.old { ready = true } }
    {
        self.ready = true;
    }
}
