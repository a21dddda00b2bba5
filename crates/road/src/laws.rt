// Functions that stand for theorems: each has the theorem as its contract.
ghost use Rattle.road.specs.Counts.{FarCounted};
ghost use Rattle.road.specs.Laws.{CrossingsRefused, NumbersRefused, StreetRefused, DepotRefused, UnreachedRefused, LegRefused, Taken, LetThrough, SoundTowns, FaultLeg, FaultHome, FaultStreet, FaultNone, FaultRound};

// The length of a drive is the sum over the streets of how often each is driven times its length.
pub fn far_counted_stands()
    ensures { FarCounted }
{}

// Refusal 1 is given just if the number of crossings is not 1 to 100, at that number.
pub fn crossings_refused_stands()
    ensures { CrossingsRefused }
{}

// Refusal 2 is given just if rule 1 is kept and the numbers are not three for each of at most 300 streets, at their length.
pub fn numbers_refused_stands()
    ensures { NumbersRefused }
{}

// Refusal 3 is given just if rules 1 and 2 are kept, at the first street past the limits.
pub fn street_refused_stands()
    ensures { StreetRefused }
{}

// Refusal 4 is given just if rules 1 to 3 are kept and the depot is no crossing, at the depot.
pub fn depot_refused_stands()
    ensures { DepotRefused }
{}

// Refusal 5 is given just if there is no drive from the depot to some street, at the first such street.
pub fn unreached_refused_stands()
    ensures { UnreachedRefused }
{}

// Refusal 7 is given just if some leg is of no street, at the first such leg.
pub fn leg_refused_stands()
    ensures { LegRefused }
{}

// A town is taken just if it is within the limits.
pub fn taken_stands()
    ensures { Taken }
{}

// A town is let through to the planner just if it is within the limits and sound.
pub fn let_through_stands()
    ensures { LetThrough }
{}

// Every value of the type SoundTown is a sound town.
pub fn sound_towns_stands()
    ensures { SoundTowns }
{}

// The fault is at leg i just if the legs before it are a drive to a crossing at which leg i does not begin.
pub fn fault_leg_stands()
    ensures { FaultLeg }
{}

// The fault is that the drive does not come home just if the legs are a drive that ends elsewhere.
pub fn fault_home_stands()
    ensures { FaultHome }
{}

// The fault is at street k just if the legs are a drive home, k is left out, and no required street before it is.
pub fn fault_street_stands()
    ensures { FaultStreet }
{}

// There is no fault just if the legs are a drive over each required street.
pub fn fault_none_stands()
    ensures { FaultNone }
{}

// There is no fault from the depot over all streets just if the legs are a round.
pub fn fault_round_stands()
    ensures { FaultRound }
{}
