// Functions that stand for theorems: each has the theorem as its contract.
ghost use Rattle.text.specs.Laws.{TownReadBack, PlanReadBack, WholeReadBack, TownTold, RoundTold, TownFaulty, RoundFaulty};

// A town that is written is read back.
pub fn town_read_back_stands()
    ensures { TownReadBack }
{}

// A round and a sheet that are written behind the text of a town are read back with it.
pub fn plan_read_back_stands()
    ensures { PlanReadBack }
{}

// A town, a round and a sheet that are written one behind the other are read back.
pub fn whole_read_back_stands()
    ensures { WholeReadBack }
{}

// A town is told just if each line says something that may stand there, and it is what they tell.
pub fn town_told_stands()
    ensures { TownTold }
{}

// So are a town, a round and a sheet.
pub fn round_told_stands()
    ensures { RoundTold }
{}

// It is no town just if a line is the first at which something is wrong, or a town lacks something, with that fault.
pub fn town_faulty_stands()
    ensures { TownFaulty }
{}

// It is no town, round and sheet just if so, or if there is a town and the rest lacks something.
pub fn round_faulty_stands()
    ensures { RoundFaulty }
{}
