// The star of each crossing, and with stars the streets that a set of crossings cuts.
ghost use Rattle.std.specs.Prelude.{◌≡◌, ◌+◌, ◌<◌, true, length, IfOk, OnOk};
ghost use Rattle.road.specs.Model.{model, marked};
ghost use Rattle.join.specs.Borders.{Bordered, BorderedFrom, Stars, StarsBelow, Pushed};
ghost use Rattle.join.specs.Problems.{town_in};

use crate::problem::Problem;
use road::{Leg, Town};
use std::alloc::{AllocError, Global};

// No legs yet, for each crossing.
fn bare_stars(town: &Town, heap: Global) -> Result<Vec<Vec<Leg>>, AllocError>
    ensures { IfOk result (λ stars. StarsBelow (model town.now) 0 stars.items town.now.crossings) }
{
    (0..town.crossings).map(|_| Vec::new(heap)).collect(heap)
}

// Adds a leg to the star of crossing v.
fn add_leg(stars: &mut Vec<Vec<Leg>>, v: usize, leg: Leg) -> Result<(), AllocError>
    requires { v < length stars.old.items }
    ensures { OnOk result (Pushed stars.old.items v leg stars.new.items) }
{
    stars[v].push(leg)?;
    Ok(())
}

// Adds street k to the stars of its ends, unless it leads back to where it begins.
fn add_street(town: &Town, k: usize, stars: &mut Vec<Vec<Leg>>) -> Result<(), AllocError>
    requires below { k < town.now.count }
    requires before { StarsBelow (model town.now) k stars.old.items town.now.crossings }
    ensures { OnOk result (StarsBelow (model town.now) (k + 1) stars.new.items town.now.crossings) }
{
    let street = town.street(k);
    if street.one == street.two {
        return Ok(());
    }
    add_leg(stars, street.one, Leg { by: k, back: false })?;
    add_leg(stars, street.two, Leg { by: k, back: true })
}

// For each crossing the legs that begin there, but for those that lead back to it.
pub(crate) fn stars(town: &Town, heap: Global) -> Result<Vec<Vec<Leg>>, AllocError>
    ensures { IfOk result (λ stars. Stars (model town.now) stars.items town.now.crossings) }
{
    let mut stars = bare_stars(town, heap)?;
    for k in 0..town.count {
        add_street(town, k, &mut stars)?;
    }
    Ok(stars)
}

impl Problem<'_, '_> {
    // Adds the legs from crossing v of a set that lead out of it.
    fn add_out(&self, marks: &[bool; 100], v: usize, legs: &mut Vec<Leg>) -> Result<(), AllocError>
        requires below { v < self.now.streets.town.now.crossings }
        requires marked { marked marks.now v ≡ true }
        requires before { BorderedFrom (town_in self.now) (marked marks.now) v legs.old.items }
        ensures { OnOk result (BorderedFrom (town_in self.now) (marked marks.now) (v + 1) legs.new.items) }
    {
        for leg in self.stars[v].as_slice() {
            if !marks[self.streets.town.end_of(*leg)] {
                legs.push(*leg)?;
            }
        }
        Ok(())
    }

    // The streets that a set cuts, each as a leg that leads out.
    pub(crate) fn legs_out(&self, marks: &[bool; 100], heap: Global) -> Result<Vec<Leg>, AllocError>
        ensures { IfOk result (λ legs. Bordered (town_in self.now) (marked marks.now) legs.items) }
    {
        let mut legs = Vec::with_capacity(heap, 16)?;
        for v in 0..self.streets.town.crossings {
            if marks[v] {
                self.add_out(marks, v, &mut legs)?;
            }
        }
        Ok(legs)
    }
}
