// A plan of the town that a text tells, as a text.
ghost use Rattle.std.specs.Prelude.{◌≡◌, ◌+◌, ◌*◌, ◌≤◌, ◌++◌, length, take, string_bytes, IfOk, MatchResult};
ghost use Rattle.std.specs.Option.{IsSomeAnd};
ghost use Rattle.text.specs.Format.{told_town, town_numbers};
ghost use Rattle.text.specs.Texts.{town_of, no_plan};
ghost use Rattle.answers.specs.Answers.{line_end, Plans, TellsShortest, Refuses};
ghost use Rattle.answers.specs.Planned.{Planned, TurnedAway};

use crate::NoAnswer;
use files::{Lengths, Reply};
use round::{NoPlan, Plan, plan_and_check};
use std::alloc::{AllocError, Global};
use text::{PlanNumbers, TownText, plan_text};

// The plan at the fronts of the rooms. The rooms, the plan and the sum come from three calls, and only here together. `check_fronts` of `round` cuts the same fronts: a function for both would be public, and would have to refuse what both know.
fn fronts<'a>(
    crossings: u64,
    legs: &'a [u64],
    parts: &'a [u64],
    plan: Plan,
    all: u64,
) -> PlanNumbers<'a>
    requires few { (crossings ≤ 100) × (plan.parts ≤ 400) }
    requires long { (plan.legs ≤ length legs.now) × (plan.parts * (1 + crossings) ≤ length parts.now) }
    ensures legs { result.legs.now ≡ take plan.legs legs.now }
    ensures parts { result.parts.now ≡ take (plan.parts * (1 + crossings)) parts.now }
    ensures lengths { (result.crossings ≡ crossings) × (result.long ≡ plan.length) × (result.all ≡ all) }
{
    PlanNumbers {
        crossings,
        legs: &legs[..plan.legs],
        parts: &parts[..plan.parts * (1 + crossings as usize)],
        long: plan.length,
        all,
    }
}

// Plans a town, in rooms that suffice.
fn plan_town(heap: Global, given: &TownText) -> Result<Reply, NoPlan>
    ensures { MatchResult result (Planned (no_plan (town_numbers given.now)) (town_of (town_numbers given.now)) given.now.depot) (TurnedAway (no_plan (town_numbers given.now))) }
{
    let town = given.town()?;
    let mut legs = vec![in heap; 0u64; 2 * town.count]?;
    let mut parts = vec![in heap; 0u64; 400 * (1 + town.crossings)]?;
    let legs = legs.as_mut_slice();
    let parts = parts.as_mut_slice();
    let checked = plan_and_check(
        given.crossings,
        given.streets.as_slice(),
        given.depot,
        legs,
        parts,
        heap,
    )?;
    let plan = fronts(
        given.crossings,
        legs,
        parts,
        checked.plan,
        town.all_streets(),
    );
    let lengths = Lengths {
        round: u128::from(plan.long),
        streets: u128::from(plan.all),
    };
    Ok(Reply {
        text: plan_text(heap, &plan)?,
        lengths: Some(lengths),
    })
}

// A plan, to stand behind a text: on lines of its own.
fn behind(heap: Global, text: &str, plan: String) -> Result<String, AllocError>
    ensures { IfOk result (λ s. string_bytes s ≡ line_end text.now ++ string_bytes plan) }
{
    if text.ends_with('\n') {
        Ok(plan)
    } else {
        format!(in heap; "\n{plan}")
    }
}

// Plans the town that a text tells. The text followed by what is written is a text for the checker.
pub fn plan_answer(heap: Global, text: &str) -> Result<Reply, NoAnswer>
    ensures planned { MatchResult result (Plans text.now) (Refuses (told_town text.now) no_plan) }
    ensures shortest { IfOk result (λ a. IsSomeAnd a.lengths (λ l. TellsShortest (text.now ++ string_bytes a.text) l.round)) }
{
    let given = TownText::read(heap, text)?;
    let plan = plan_town(heap, &given)?;
    Ok(Reply {
        text: behind(heap, text, plan.text)?,
        lengths: plan.lengths,
    })
}
