// A leg: a street driven from one to two, or back.
ghost use Rattle.std.specs.Prelude.{◌≡◌};
ghost use Rattle.road.specs.Numbers.{leg_in};

#[derive(Clone, Copy)]
pub struct Leg {
    pub by: usize,
    pub back: bool,
}

// The leg of a number: twice the street's, and one more if it is driven back.
impl From<u64> for Leg {
    ghost from_gives = { λ n l. l ≡ leg_in n };

    fn from(number: u64) -> Leg {
        Leg {
            by: (number / 2) as usize,
            back: number % 2 == 1,
        }
    }
}
