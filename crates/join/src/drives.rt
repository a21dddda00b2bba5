// A set of extra drives, and what it costs.
ghost use Rattle.std.specs.Prelude.{◌≡◌, pos};
ghost use Rattle.join.specs.Amounts.{amount};

#[derive(Drop)]
pub struct PricedDrives {
    pub drives: [bool; 300],
    pub price: i64,
    ghost whole: { price ≡ pos (amount price) },
}
