// Streets at random.
ghost use Rattle.std.specs.Prelude.{◌<◌};
ghost use Rattle.test_towns.specs.Streets.{Joins, long};

// A sequence of numbers, the same from the same seed.
#[derive(Drop)]
pub struct Random {
    pub seed: u64,
}

impl Random {
    // The next number, below a limit; below 0 there is only 0.
    pub fn below(&mut self, limit: u64) -> u64
        ensures { 0 < limit → result < limit }
    {
        self.seed = self
            .seed
            .wrapping_mul(6364136223846793005)
            .wrapping_add(1442695040888963407);
        (self.seed >> 33).checked_rem(limit).unwrap_or(0)
    }

    // A street between some of the crossings, of a length below a limit.
    pub fn street(&mut self, crossings: u64, limit: u64) -> [u64; 3]
        ensures joins { 0 < crossings → Joins crossings result }
        ensures long { 0 < limit → long result < limit }
    {
        [
            self.below(crossings),
            self.below(crossings),
            self.below(limit),
        ]
    }
}
