// A street: its two ends, which may be one crossing, and its length in metres.
ghost use Rattle.std.specs.Prelude.{◌≡◌};
ghost use Rattle.road.specs.Numbers.{street_of};

#[derive(Clone, Copy, Default)]
pub struct Street {
    pub one: usize,
    pub two: usize,
    pub long: u64,
}

// The street of three numbers: its ends and its length.
impl From<[u64; 3]> for Street {
    ghost from_gives = { λ xs s. s ≡ street_of xs };

    fn from([one, two, long]: [u64; 3]) -> Street {
        Street {
            one: one as usize,
            two: two as usize,
            long,
        }
    }
}
