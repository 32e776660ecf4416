//! The steps: the tiles that the farm is asked for.
ghost use Rattle.std.specs.Prelude.{◌≡◌, ◌<◌, ◌≤◌, ◌+◌, ◌*◌, ◌^◌};
ghost use Rattle.std.specs.Prelude.{◌-◌};
ghost use Rattle.work_gen.specs.Draws.{draw};
ghost use Rattle.work_gen.specs.Work as spec;

use crate::draws::Draws;
use arrayvec::ArrayVec;
use farm_plan::Spot;

/// A step: the tile that is asked for, and whether it is expired first.
#[derive(Clone, Copy)]
pub struct Step {
    pub spot: Spot,
    pub expire: bool,
}

/// Any step will do: it fills the places of an `ArrayVec` before their own steps stand there.
impl Default for Step {
    fn default() -> Step {
        Step {
            spot: Spot {
                map: None,
                z: 0,
                x: 0,
                y: 0,
            },
            expire: false,
        }
    }
}

/// How many steps there are.
const STEPS: u32 = 32;

#[tactic(auto, using(crate::proofs::Turns::power_some, crate::proofs::Turns::power_small))]
fn power(n: u32) -> u32
    requires { n ≤ 13 }
    ensures value { result ≡ 2 ^ n }
    ensures some { 0 < result }
    ensures small { result ≤ 8192 }
{
    1 << n
}

// A column or row of a zoom from 11 to 14: the draw lies behind the world's middle, in its first
// `2^19` units.
fn behind_middle(draws: &mut Draws, z: u32) -> u32
    requires low { 11 ≤ z }
    requires high { z < 15 }
    requires few { draws.old.made < 2 ^ 32 }
    ensures value { result ≡ 2 ^ (z - 1) + draw draws.old.seed draws.old.made (2 ^ (z - 11)) }
    ensures next { draws.new ≡ record { seed = draws.old.seed; made = draws.old.made + 1 } }
{
    let middle = power(z - 1);
    let spread = power(z - 11);
    middle + draws.next(spread)
}

#[tactic(auto, unfolding(crate::specs::Work::step_at))]
fn next_step(draws: &mut Draws, features: u32, number: u32) -> Step
    requires features { features ≤ 100000 }
    requires few { number < 32 }
    requires turn { draws.old.made ≡ 4 * features + 3 * number }
    ensures value { result ≡ spec.step_at draws.old.seed features number }
    ensures next { draws.new
        ≡ record { seed = draws.old.seed; made = 4 * features + 3 * (number + 1) } }
{
    let z = 11 + draws.next(4);
    let x = behind_middle(draws, z);
    let y = behind_middle(draws, z);
    Step {
        spot: Spot {
            map: Some(0),
            z,
            x,
            y,
        },
        expire: number % 4 == 3,
    }
}

/// The steps of the work with so many features, from 1 to 100,000: their draws are those of the seed
/// behind the draws of the data, three for each step. Every fourth step expires its tile first.
#[tactic(auto, using(crate::proofs::Turns::no_steps, crate::proofs::Turns::step_next))]
pub fn steps(seed: u64, features: u32) -> ArrayVec<Step, 32>
    requires { features ≤ 100000 }
    ensures { result.items ≡ spec.steps_of seed features 32 }
{
    let mut draws = Draws::behind(seed, 4 * u64::from(features));
    let mut steps = ArrayVec::new();
    for number in 0..STEPS {
        steps.push(next_step(&mut draws, features, number));
    }
    steps
}
