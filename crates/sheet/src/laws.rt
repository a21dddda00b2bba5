// Functions that stand for theorems: each has the theorem as its contract.
ghost use Rattle.sheet.specs.Shown.{HomeEven, Twice, SheetRight, Accepted};
ghost use Rattle.sheet.specs.Laws.{WordShortest, WordNoRound, WordNoSheet, WordAtPart, WordAtStreet, WordApart, PartsRefused, PartsTaken};
ghost use Rattle.sheet.specs.Worked.{WorkedTowns};

// A drive that comes home has crossed the border of each part an even number of times.
pub fn home_even_stands()
    ensures { HomeEven }
{}

// Where an odd number of streets lead out of a part, a round crosses its border once more than these.
pub fn twice_stands()
    ensures { Twice }
{}

// No round is shorter than all streets and half of what a sheet weighs.
pub fn sheet_right_stands()
    ensures { SheetRight }
{}

// A round that a sheet agrees with is a shortest one.
pub fn accepted_stands()
    ensures { Accepted }
{}

// The checker says shortest just if the round is one, the sheet is one, and they agree.
pub fn word_shortest_stands()
    ensures { WordShortest }
{}

// It says no round just if the legs are none, with their fault as a drive.
pub fn word_no_round_stands()
    ensures { WordNoRound }
{}

// It says no sheet just if the round is one and the parts are no sheet.
pub fn word_no_sheet_stands()
    ensures { WordNoSheet }
{}

// The fault is at part i just if the parts before it have an odd number of streets out and i has not.
pub fn word_at_part_stands()
    ensures { WordAtPart }
{}

// It is at street k just if no part is at fault, each street below k bears at most twice its length, and k more.
pub fn word_at_street_stands()
    ensures { WordAtStreet }
{}

// It says apart just if both are right and they do not agree.
pub fn word_apart_stands()
    ensures { WordApart }
{}

// In each of the worked towns the legs are a round of the length given, the parts are a sheet, and they agree.
pub fn worked_towns_stands()
    ensures { WorkedTowns }
{}

// Refusal 8 is given just if the numbers are not a whole number of parts, or else are too many parts, or else one is too heavy, at its place.
pub fn parts_refused_stands()
    ensures { PartsRefused }
{}

// Parts are taken just if they keep these rules.
pub fn parts_taken_stands()
    ensures { PartsTaken }
{}
