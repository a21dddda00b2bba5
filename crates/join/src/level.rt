// What is left of the lengths of the streets, and the potentials of the crossings, at a stage of a pass.
ghost use Rattle.std.specs.Prelude.{◌≡◌, length};
ghost use Rattle.join.specs.Amounts.{Whole, Most};

#[derive(Drop)]
pub(crate) struct Level {
    pub lengths: [i64; 300],
    pub potential: [i64; 100],
    ghost streets: { length lengths ≡ 300 },
    ghost places: { length potential ≡ 100 },
    ghost whole: { Whole lengths },
    ghost most: { Most 4000000000 lengths },
    ghost whole_potential: { Whole potential },
    ghost high: { Most 1200000000000 potential },
}
