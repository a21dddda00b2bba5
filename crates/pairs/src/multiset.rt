// Multisets of streets: the streets that are left to be driven, and how often.
ghost use Rattle.std.specs.Prelude.{◌≡◌, ℕ, ◌-◌, ◌==◌, nat_lt, slice_index};
ghost use Rattle.road.specs.Counts.{bit};
ghost use Rattle.road.specs.Model.{marked};

pub trait Multiset {
    // How often a street is in it.
    ghost multiplicity: { Self → ℕ → ℕ };

    // Whether street k is in it.
    fn contains(&self, k: usize) -> bool
        ensures { result ≡ nat_lt 0 (multiplicity self.now k) };

    // Takes street k out of it once, if it is in it.
    fn remove(&mut self, k: usize)
        ensures { (j : ℕ) → multiplicity self.new j ≡ multiplicity self.old j - bit (k == j) };
}

// A set, by its marks.
impl Multiset for [bool; 300] {
    ghost multiplicity = { λ ms k. bit (marked ms k) };

    fn contains(&self, k: usize) -> bool {
        self.get(k).copied().unwrap_or(false)
    }

    fn remove(&mut self, k: usize) {
        if self.contains(k) {
            self[k] = false;
        }
    }
}

// By counts.
impl Multiset for [usize; 300] {
    ghost multiplicity = { slice_index };

    fn contains(&self, k: usize) -> bool {
        self.get(k).is_some_and(|count| *count > 0)
    }

    fn remove(&mut self, k: usize) {
        if self.contains(k) {
            self[k] -= 1;
        }
    }
}
