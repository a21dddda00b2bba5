// Functions that stand for theorems: each has the theorem as its contract.
ghost use Rattle.ways.specs.Laws.{LeastUnique, LeastSelf, LeastTurned, LeastThrough, LeastStreet};

// Between two crossings there is at most one distance.
pub fn unique_stands()
    ensures { LeastUnique }
{}

// The distance of a crossing to itself is 0.
pub fn self_stands()
    ensures { LeastSelf }
{}

// The distance is the same both ways.
pub fn turned_stands()
    ensures { LeastTurned }
{}

// The triangle inequality.
pub fn through_stands()
    ensures { LeastThrough }
{}

// The distance of the ends of a street is at most its length.
pub fn street_stands()
    ensures { LeastStreet }
{}
