//! The jobs in hand: those that a claim of the script gave and no line has ended.
ghost use Rattle.std.specs.Prelude.{◌≡◌, ◌<◌, ◌^◌, ◌==◌, ◌++◌, ◌∷◌, [], Bool, List, find, position, false, IfOk, OnOk};
ghost use Rattle.farm_history.specs.Entries.{Entry};
ghost use Rattle.farm_history.specs.Lists.{without_first};
ghost use Rattle.farm_refinement.specs.Stands.{StandsFor};
ghost use Rattle.farm_plan.specs.Jobs.{job_key};
ghost use Rattle.farm_history.specs.declared.answers.ClaimAnswer.{ClaimAnswer};
ghost use Rattle.script_answers.specs.Answers.{claim_line};
ghost use Rattle.script_text.specs.ScriptTexts.{names_of};
ghost use Rattle.farm_core.specs.Answers.{Lasts};
ghost use Rattle.script_lines.specs.declared.script.ScriptLine.TheVariants as line;
ghost use Rattle.script_text.specs.inner.Hands.{HandStands};
ghost use Rattle.script_text.specs.inner.Steps.{Answers, is_failed_finish};

use crate::said::{LineAnswer, noted, said};
use farm_base::{NoMemory, Text};
use farm_core::{Claimed, Drawn, Farm, Job};
use farm_history::{ClaimAnswer, Finished};
use meta_drawing::draw_job;
use script_answers::{claim_line, finish_line};
use std::alloc::Global;
use tile_store::TileStore;

fn place_of(hand: &[Job], ticket: u64) -> Option<usize>
    ensures { result ≡ position (λ j. j.ticket == ticket) hand.now }
{
    hand.iter().position(|job| job.ticket == ticket)
}

/// Takes the job of the ticket out of hand.
pub(crate) fn take_job(hand: &mut Vec<Job>, ticket: u64) -> Option<Job>
    ensures found { result ≡ find (λ j. j.ticket == ticket) hand.old.items }
    ensures left { hand.new.items ≡ without_first (λ j. j.ticket == ticket) hand.old.items }
{
    let place = place_of(hand.as_slice(), ticket)?;
    Some(hand.remove(place))
}

fn job_line<D>(alloc: Global, farm: &Farm<D>, job: &Job) -> Result<Text, NoMemory>
    requires { job.now.plan ≡ farm.now.plan }
    ensures { IfOk result (λ t. t ≡ claim_line (names_of farm.now.plan)
        (ClaimAnswer.Job job.now.ticket (job_key job.now) job.now.version)) }
{
    let answer = ClaimAnswer::Job(job.ticket, job.key(), job.version);
    claim_line(alloc, farm.map_name(job.map), answer)
}

fn take_in_hand<D>(
    alloc: Global,
    farm: &Farm<D>,
    hand: &mut Vec<Job>,
    job: Job,
) -> Result<LineAnswer, NoMemory>
    requires { job.plan ≡ farm.now.plan }
    ensures said { IfOk result (λ s. s ≡ record {
      text = claim_line (names_of farm.now.plan)
          (ClaimAnswer.Job job.ticket (job_key job) job.version);
      failed = false;
    }) }
    ensures hand { OnOk result (hand.new.items ≡ hand.old.items ++ job ∷ []) }
{
    let line = job_line(alloc, farm, &job)?;
    hand.push(job)?;
    said(Ok(line))
}

/// `claim W`: a job that it gives is in hand.
pub(crate) fn claim<D: TileStore>(
    alloc: Global,
    farm: &mut Farm<D>,
    hand: &mut Vec<Job>,
    worker: u32,
) -> Result<LineAnswer, NoMemory>
    requires turns { farm.old.counts.turns < 2 ^ 63 }
    requires stands { (store_tells : Bool) × (g : List Entry)
        × StandsFor D.state store_tells farm.old g }
    ensures step { (store_tells : Bool) (g : List Entry) → StandsFor D.state store_tells farm.old g
        → HandStands farm.old.plan g hand.old.items
        → Answers D.state store_tells farm.new farm.old.plan (line.Claim worker)
        g hand.old.items hand.new.items result }
    ensures kept { Lasts D.state farm.old farm.new }
{
    match farm.claim(worker) {
        Claimed::Job(job) => take_in_hand(alloc, farm, hand, job),
        Claimed::Idle => said(claim_line(alloc, "", ClaimAnswer::Idle)),
        Claimed::Crowded => said(claim_line(alloc, "", ClaimAnswer::Crowded)),
        Claimed::Stopped => said(claim_line(alloc, "", ClaimAnswer::Stopped)),
    }
}

/// Whether the put of a drawing failed.
pub fn is_failed_finish(answer: Finished) -> bool
    ensures { result ≡ is_failed_finish answer }
{
    match answer {
        Finished::PutFailed => true,
        _ => false,
    }
}

/// `finish T`: the job in hand is drawn and finished.
pub(crate) fn finish<D: TileStore>(
    alloc: Global,
    farm: &mut Farm<D>,
    hand: &mut Vec<Job>,
    ticket: u64,
) -> Result<LineAnswer, NoMemory>
    requires turns { farm.old.counts.turns < 2 ^ 63 }
    requires stands { (store_tells : Bool) × (g : List Entry)
        × StandsFor D.state store_tells farm.old g × HandStands farm.old.plan g hand.old.items }
    ensures step { (store_tells : Bool) (g : List Entry) → StandsFor D.state store_tells farm.old g
        → HandStands farm.old.plan g hand.old.items
        → Answers D.state store_tells farm.new farm.old.plan (line.Finish ticket)
        g hand.old.items hand.new.items result }
    ensures kept { Lasts D.state farm.old farm.new }
{
    let job = match take_job(hand, ticket) {
        Some(job) => job,
        None => return said(Text::of(alloc, "nojob\n")),
    };
    let bytes = draw_job(alloc, &job)?;
    let answer = farm.finish(alloc, job, Drawn::Bytes(bytes));
    noted(finish_line(alloc, answer), is_failed_finish(answer))
}

/// `cut T`: the job in hand is finished without a picture.
pub(crate) fn cut<D: TileStore>(
    alloc: Global,
    farm: &mut Farm<D>,
    hand: &mut Vec<Job>,
    ticket: u64,
) -> Result<LineAnswer, NoMemory>
    requires turns { farm.old.counts.turns < 2 ^ 63 }
    requires stands { (store_tells : Bool) × (g : List Entry)
        × StandsFor D.state store_tells farm.old g × HandStands farm.old.plan g hand.old.items }
    ensures step { (store_tells : Bool) (g : List Entry) → StandsFor D.state store_tells farm.old g
        → HandStands farm.old.plan g hand.old.items
        → Answers D.state store_tells farm.new farm.old.plan (line.Cut ticket)
        g hand.old.items hand.new.items result }
    ensures kept { Lasts D.state farm.old farm.new }
{
    let job = match take_job(hand, ticket) {
        Some(job) => job,
        None => return said(Text::of(alloc, "nojob\n")),
    };
    farm.finish(alloc, job, Drawn::NoMemory);
    said(Text::of(alloc, "cut\n"))
}
