// Classes merged along the streets of no length.
ghost use Rattle.std.specs.Prelude.{◌≡◌, ℕ, ◌<◌, false, length};
ghost use Rattle.road.specs.Counts.{one, two};
ghost use Rattle.road.specs.Model.{marked};
ghost use Rattle.join.specs.Borders.{street_at};
ghost use Rattle.join.specs.Joins.{◌⊞◌, single};
ghost use Rattle.join.specs.Odd.{streets_of};
ghost use Rattle.join.specs.Weights.{town_of, lengths_of};
ghost use Rattle.join.specs.Classes.{way_in, label_in, Classed, Merged, Absorbed, Kept, class_in};
ghost use Rattle.join.specs.Progress.{Progress};

use crate::partition::Classes;
use crate::sets::{flip, xor};
use crate::weighted::Weighted;
use road::Leg;
use std::array::from_fn;

// `Classed` is no invariant of the type: a charge changes the lengths while the classes stay.
impl Classes {
    // The way to crossing v.
    pub(crate) fn way_to(&self, v: usize) -> &[bool; 300]
        requires { v < 100 }
        ensures { marked result.now ≡ way_in self.now v }
    {
        &self.way[v]
    }

    // Brings the crossings of one class into another, to which the link leads.
    fn absorb(&mut self, from: usize, to: usize, link: &[bool; 300])
        requires { (from < 100) × (to < 100) }
        ensures { Absorbed from to (marked link.now) self.old self.new 100 }
    {
        self.size[to] = self.size[to].saturating_add(self.size[from]);
        // By number, since of labels that `iter_mut` zips with ways nothing is known after the loop.
        for v in 0..100 {
            if self.label[v] == from {
                self.label[v] = to;
                self.way[v] = xor(link, self.way_to(v));
            }
        }
    }

    // How many crossings are in the class of v.
    fn size_of(&self, v: usize) -> usize
        requires { (v < 100) × (label_in self.now v < 100) }
    {
        self.size[self.label[v]]
    }

    // The leg over street k to its end in the smaller class.
    fn leg_to_smaller(&self, streets: &Weighted, k: usize) -> Leg
        requires { Classed (town_of streets.now) (lengths_of streets.now) self.now }
        ensures { result.by ≡ k }
    {
        let street = streets.town.street(k);
        Leg {
            by: k,
            back: self.size_of(street.one) < self.size_of(street.two),
        }
    }

    // Merges the classes of the ends of street k if it has no length: the smaller one comes into the larger one.
    fn merge_over(&mut self, streets: &Weighted, k: usize)
        requires classed { Classed (town_of streets.now) (lengths_of streets.now) self.old }
        requires below { k < streets.now.town.now.count }
        ensures classed { Classed (town_of streets.now) (lengths_of streets.now) self.new }
        ensures kept { Kept self.old self.new }
        ensures progress { (g : ℕ → ℕ) (n : ℕ) → Progress (town_of streets.now) (lengths_of streets.now) g self.old n → Progress (town_of streets.now) (lengths_of streets.now) g self.new n }
        ensures merged { lengths_of streets.now k ≡ 0 → label_in self.new (one (town_of streets.now) k) ≡ label_in self.new (two (town_of streets.now) k) }
    {
        if !streets.is_free(k) {
            return;
        }
        let leg = self.leg_to_smaller(streets, k);
        let x = streets.town.begin_of(leg);
        let y = streets.town.end_of(leg);
        let to = self.label[x];
        let from = self.label[y];
        if from == to {
            return;
        }
        let there = flip(self.way_to(x), k);
        let link = xor(&there, self.way_to(y));
        self.absorb(from, to, &link);
    }

    // Merges classes along each street of no length.
    pub(crate) fn merge(&mut self, streets: &Weighted)
        requires { Classed (town_of streets.now) (lengths_of streets.now) self.old }
        ensures classed { Classed (town_of streets.now) (lengths_of streets.now) self.new }
        ensures kept { Kept self.old self.new }
        ensures progress { (g : ℕ → ℕ) (n : ℕ) → Progress (town_of streets.now) (lengths_of streets.now) g self.old n → Progress (town_of streets.now) (lengths_of streets.now) g self.new n }
        ensures merged { Merged (town_of streets.now) (lengths_of streets.now) self.new streets.now.town.now.count }
    {
        for k in 0..streets.town.count {
            self.merge_over(streets, k);
        }
    }

    // Merges classes along the streets of legs that have no length, where they are merged along all others.
    pub(crate) fn merge_along(&mut self, streets: &Weighted, legs: &[Leg])
        requires classed { Classed (town_of streets.now) (lengths_of streets.now) self.old }
        requires low { (i : ℕ) → i < length legs.now → street_at legs.now i < streets.now.town.now.count }
        requires others { (k : ℕ) → k < streets.now.town.now.count → lengths_of streets.now k ≡ 0 → streets_of legs.now k ≡ false → label_in self.old (one (town_of streets.now) k) ≡ label_in self.old (two (town_of streets.now) k) }
        ensures classed { Classed (town_of streets.now) (lengths_of streets.now) self.new }
        ensures kept { Kept self.old self.new }
        ensures progress { (g : ℕ → ℕ) (n : ℕ) → Progress (town_of streets.now) (lengths_of streets.now) g self.old n → Progress (town_of streets.now) (lengths_of streets.now) g self.new n }
        ensures merged { Merged (town_of streets.now) (lengths_of streets.now) self.new streets.now.town.now.count }
    {
        for leg in legs {
            self.merge_over(streets, leg.by);
        }
    }

    // The crossings of the class of b.
    pub(crate) fn class_of(&self, b: usize) -> [bool; 100]
        requires { b < 100 }
        ensures { marked result ≡ class_in self.now b }
    {
        from_fn(|v| self.label[v] == self.label[b])
    }

    // A set that goes on by the way from b to x in their class, and then over street k. Each call has others.
    pub(crate) fn lead_on(&self, drives: &[bool; 300], b: usize, x: usize, k: usize) -> [bool; 300]
        requires { (b < 100) × ((x < 100) × (k < 300)) }
        ensures { marked result ≡ (marked drives.now ⊞ (way_in self.now b ⊞ way_in self.now x)) ⊞ single k }
    {
        let inside = xor(self.way_to(b), self.way_to(x));
        flip(&xor(drives, &inside), k)
    }
}
