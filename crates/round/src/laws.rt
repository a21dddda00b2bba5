// What is promised of rounds. Each function stands for the theorem that is its contract.
ghost use Rattle.round.specs.Laws.{RoomSuffices, NoShorterRound, OneLength};
ghost use Rattle.round.specs.Promise.{Euler, EulerRound, Planned, AtMostTwice, AnyDepot, NewStreet};

// Counts are those of a drive between two crossings just if they are connected, and even but for these two.
pub fn euler_stands()
    ensures { Euler }
{}

// Counts of at least 1 that make all degrees even are those of a round.
pub fn euler_round_stands()
    ensures { EulerRound }
{}

// Every sound town has a shortest round and a sheet that agrees with it.
pub fn planned_stands()
    ensures { Planned }
{}

// In a shortest round no street that has a length is driven more than twice.
pub fn at_most_twice_stands()
    ensures { AtMostTwice }
{}

// Shortest rounds from all depots have one length.
pub fn any_depot_stands()
    ensures { AnyDepot }
{}

// A new street makes the shortest round longer by at most twice its length.
pub fn new_street_stands()
    ensures { NewStreet }
{}

// With room for two legs a street and 400 parts, nothing is refused for want of room.
pub fn room_suffices_stands()
    ensures { RoomSuffices }
{}

// No round is shorter than the planner's answer says.
pub fn no_shorter_round_stands()
    ensures { NoShorterRound }
{}

// Two answers for one town, from two depots, have one length.
pub fn one_length_stands()
    ensures { OneLength }
{}
