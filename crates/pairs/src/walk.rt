// Walks over streets that are left, each taken off as it is driven.
ghost use Rattle.std.specs.Prelude.{◌≡◌, ◌<◌, IfOk, MatchOption};
ghost use Rattle.road.specs.Counts.{ends};
ghost use Rattle.road.specs.Model.{model};
ghost use Rattle.pairs.specs.Walks.{walk_of, LeadsOver, LeadsOn, Clear, Walked};

use crate::{Incidence, Multiset, Pair};
use road::{Leg, Town};
use std::alloc::{AllocError, Global};

// The leg over street k from a crossing, if the street has an end there.
pub fn leg_from(town: &Town, k: usize, at: usize) -> Option<Leg>
    ensures { MatchOption result (ends (model town.now) k at ≡ 0) (LeadsOver (model town.now) k at) }
{
    let street = town.street(k);
    if street.one == at {
        Some(Leg { by: k, back: false })
    } else if street.two == at {
        Some(Leg { by: k, back: true })
    } else {
        None
    }
}

// The leg over street k from a crossing, if the street is left and has an end there.
fn leg_left<S: Multiset>(town: &Town, left: &S, k: usize, at: usize) -> Option<Leg>
    requires { k < town.now.count }
    ensures { MatchOption result (0 < S.multiplicity left.now k → ends (model town.now) k at ≡ 0) (LeadsOn (model town.now) (S.multiplicity left.now) at) }
{
    if left.contains(k) {
        leg_from(town, k, at)
    } else {
        None
    }
}

// A leg from a crossing over a street that is left, if there is one.
fn next_leg<S: Multiset>(lists: &Incidence, left: &S, at: usize) -> Option<Leg>
    ensures { MatchOption result (Clear (model lists.now.town.now) (S.multiplicity left.now) at lists.now.town.now.count) (LeadsOn (model lists.now.town.now) (S.multiplicity left.now) at) }
{
    let mut k = lists.first(at);
    while k < lists.town.count {
        if let Some(leg) = leg_left(lists.town, left, k, at) {
            return Some(leg);
        }
        k = lists.after(k, at);
    }
    None
}

// Walks from a crossing until no street that is left leads on, and takes off each street that is driven: a trail that is maximal.
pub fn maximal_trail<S: Multiset>(
    lists: &Incidence,
    left: &mut S,
    start: usize,
    heap: Global,
) -> Result<Pair, AllocError>
    ensures { IfOk result (λ p. (p.one ≡ start) × Walked (model lists.now.town.now) (S.multiplicity left.old) (S.multiplicity left.new) (walk_of p)) }
{
    let mut legs = Vec::new(heap);
    let mut at = start;
    // A labelled loop, left when the walk closes: the project writes its walks over streets so.
    'walk: loop {
        let Some(leg) = next_leg(lists, left, at) else {
            break 'walk;
        };
        left.remove(leg.by);
        legs.push(leg)?;
        at = lists.town.end_of(leg);
    }
    Ok(Pair {
        one: start,
        two: at,
        legs,
    })
}
