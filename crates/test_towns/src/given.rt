// A town as it is given to what is tested.
ghost use Rattle.std.specs.Prelude.{◌≡◌, ◌/◌, length};
ghost use Rattle.std.specs.List.{flat_map};
ghost use Rattle.std.specs.Simd.{first_chunks};

// A town's crossings, the numbers of its streets, three for each, and its depot.
#[derive(Clone, Copy)]
pub struct Quarter<'a> {
    pub crossings: u64,
    pub numbers: &'a [u64],
    pub depot: u64,
}

impl<'a> Quarter<'a> {
    pub fn new(crossings: u64, streets: &'a [[u64; 3]], depot: u64) -> Quarter<'a>
        ensures crossings { result.crossings ≡ crossings }
        ensures streets { result.numbers.now ≡ flat_map (λ s. s) streets.now }
        ensures depot { result.depot ≡ depot }
    {
        Quarter::of_numbers(crossings, streets.as_flattened(), depot)
    }

    // Numbers that need not be those of streets.
    pub fn of_numbers(crossings: u64, numbers: &'a [u64], depot: u64) -> Quarter<'a>
        ensures crossings { result.crossings ≡ crossings }
        ensures numbers { result.numbers.now ≡ numbers.now }
        ensures depot { result.depot ≡ depot }
    {
        Quarter {
            crossings,
            numbers,
            depot,
        }
    }

    // The streets, without numbers that are left over.
    pub fn streets(&self) -> &'a [[u64; 3]]
        ensures { result.now ≡ first_chunks 3 (length self.now.numbers.now / 3) self.now.numbers.now }
    {
        self.numbers.as_chunks::<3>().0
    }
}
