// How long it took to find least prices: the passes, and the stages of all of them.
ghost use Rattle.std.specs.Prelude.{◌≡◌, ◌+◌, min};

#[derive(Clone, Copy)]
pub(crate) struct Tally {
    pub passes: u64,
    pub stages: u64,
}

impl Tally {
    // One pass more, with its stages.
    pub(crate) fn add(&mut self, stages: usize)
        ensures passes { self.new.passes ≡ min (self.old.passes + 1) 18446744073709551615 }
        ensures stages { self.new.stages ≡ min (self.old.stages + stages) 18446744073709551615 }
    {
        self.passes = self.passes.saturating_add(1);
        self.stages = self.stages.saturating_add(stages as u64);
    }
}
