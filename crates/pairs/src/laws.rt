// The theorem of the least pairing.
ghost use Rattle.pairs.specs.Laws.{PairingLeast};

// No pairing of the odd crossings, by whatever drives, is shorter altogether.
pub fn pairing_least_stands()
    ensures { PairingLeast }
{}
