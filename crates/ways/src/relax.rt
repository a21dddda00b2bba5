// Ways made shorter street by street, until none gets shorter.
ghost use Rattle.std.specs.Prelude.{◌≡◌, ◌+◌, ◌<◌, [], ◌∷◌, ◌++◌, replicate, IfOk, None, OnOk};
ghost use Rattle.road.specs.Model.{model};
ghost use Rattle.ways.specs.Relaxed.{shorter, Come, Near, Closed, Tried};

use crate::{Way, Ways};
use road::{Leg, Town};
use std::alloc::{AllocError, Global};

// Whether a length is less than that of a way, or there is none yet.
fn is_shorter(length: u64, way: &Option<Way>) -> bool
    ensures { result ≡ shorter length way.now }
{
    way.as_ref().is_none_or(|old| length < old.length)
}

impl Way {
    // The same way with one leg more.
    fn on(&self, leg: Leg, length: u64, heap: Global) -> Result<Way, AllocError>
        ensures { IfOk result (λ w. (w.length ≡ length) × (w.legs.items ≡ self.now.legs.items ++ leg ∷ [])) }
    {
        let mut legs = Vec::from_slice(heap, self.legs.as_slice())?;
        legs.push(leg)?;
        Ok(Way { length, legs })
    }
}

// No ways yet.
fn none_yet(crossings: usize, heap: Global) -> Result<Vec<Option<Way>>, AllocError>
    ensures { IfOk result (λ v. v.items ≡ replicate crossings None) }
{
    (0..crossings).map(|_| None).collect(heap)
}

// `Come` is no invariant of the type: ways don't hold their town, so that whoever has some need not hold it.
impl Ways {
    // Only the way to the start itself, over no leg.
    pub(crate) fn only_start(start: usize, town: &Town, heap: Global) -> Result<Ways, AllocError>
        requires { start < town.now.crossings }
        ensures { IfOk result (λ ws. (ws.start ≡ start) × Come (model town.now) ws) }
    {
        let mut ways = none_yet(town.crossings, heap)?;
        ways[start] = Some(Way {
            length: 0,
            legs: Vec::new(heap),
        });
        Ok(Ways { start, ways })
    }

    // Comes over a leg if that is a shorter way to where it ends, and says whether it is.
    fn come_over(&mut self, town: &Town, leg: Leg, heap: Global) -> Result<bool, AllocError>
        requires come { Come (model town.now) self.old }
        requires below { leg.by < town.now.count }
        ensures { IfOk result (λ more. Come (model town.now) self.new × Tried self.old self.new more (Near (model town.now) self.old leg)) }
    {
        let x = town.begin_of(leg);
        let y = town.end_of(leg);
        let Some(way) = &self.ways[x] else {
            return Ok(false);
        };
        let length = way.length + town.street(leg.by).long;
        if !is_shorter(length, &self.ways[y]) {
            return Ok(false);
        }
        let longer = way.on(leg, length, heap)?;
        self.ways[y] = Some(longer);
        Ok(true)
    }

    // Comes over each street there and back, and says whether a way got shorter.
    fn sweep(&mut self, town: &Town, heap: Global) -> Result<bool, AllocError>
        requires { Come (model town.now) self.old }
        ensures { IfOk result (λ more. Come (model town.now) self.new × Tried self.old self.new more (Closed (model town.now) self.new town.now.count)) }
    {
        let mut more = false;
        for k in 0..town.count {
            more |= self.come_over(town, Leg { by: k, back: false }, heap)?;
            more |= self.come_over(town, Leg { by: k, back: true }, heap)?;
        }
        Ok(more)
    }

    // Comes over streets until no way gets shorter.
    pub(crate) fn relax(&mut self, town: &Town, heap: Global) -> Result<(), AllocError>
        requires { Come (model town.now) self.old }
        ensures { OnOk result ((self.new.start ≡ self.old.start) × Come (model town.now) self.new × Closed (model town.now) self.new town.now.count) }
    {
        while self.sweep(town, heap)? {}
        Ok(())
    }
}
