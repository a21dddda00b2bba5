// A town with a length for each of its streets, in half metres.
ghost use Rattle.std.specs.Prelude.{◌≡◌, length};
ghost use Rattle.join.specs.Amounts.{Whole, Most};

use road::Town;

#[derive(Clone, Copy)]
pub(crate) struct Weighted<'t, 'l> {
    pub town: &'t Town,
    pub lengths: &'l [i64; 300],
    ghost long: { length lengths.now ≡ 300 },
    ghost whole: { Whole lengths.now },
    ghost most: { Most 4000000000 lengths.now },
}
