// A function that stands for a theorem: it has the theorem as its contract.
ghost use Rattle.worksheet.specs.Laws.{TickedShortest};

// No round is shorter than one whose worksheet can be ticked on every line.
pub fn ticked_shortest_stands()
    ensures { TickedShortest }
{}
