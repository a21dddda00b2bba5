// Weights and marks of parts, read from the numbers.
ghost use Rattle.std.specs.Prelude.{◌≡◌, ◌+◌, ◌*◌, ◌<◌, ◌≤◌, length, slice_index_or};
ghost use Rattle.road.specs.Roads.{street};
ghost use Rattle.road.specs.Model.{marked};
ghost use Rattle.sheet.specs.Sheet.{no_part, leads_out};
ghost use Rattle.sheet.specs.Model.{parts_of, town_of};

use crate::parts::Parts;

impl Parts<'_, '_> {
    // How many parts there are.
    pub(crate) fn count(&self) -> usize
        ensures { result ≡ length (parts_of self.now) }
    {
        self.numbers.len() / (1 + self.town.crossings)
    }

    // Where part i begins.
    fn begin(&self, i: usize) -> usize
        requires { i < length (parts_of self.now) }
        ensures is { result ≡ i * (1 + self.now.town.now.crossings) }
        ensures room { result + self.now.town.now.crossings < length self.now.numbers.now }
    {
        i * (1 + self.town.crossings)
    }

    pub(crate) fn weight(&self, i: usize) -> u64
        requires { i < length (parts_of self.now) }
        ensures is { result ≡ (slice_index_or (parts_of self.now) i no_part).weight }
        ensures light { result ≤ 10000000 }
    {
        self.numbers[self.begin(i)]
    }

    fn is_marked(&self, i: usize, v: usize) -> bool
        requires part { i < length (parts_of self.now) }
        requires crossing { v < self.now.town.now.crossings }
        ensures { result ≡ marked (slice_index_or (parts_of self.now) i no_part).marks v }
    {
        self.numbers[self.begin(i) + 1 + v] > 0
    }

    // Whether street k leads out of part i.
    pub(crate) fn leads_out(&self, i: usize, k: usize) -> bool
        requires { i < length (parts_of self.now) }
        ensures { result ≡ leads_out (slice_index_or (parts_of self.now) i no_part).marks (street (town_of self.now) k) }
    {
        let street = self.town.street(k);
        self.is_marked(i, street.one) != self.is_marked(i, street.two)
    }
}
