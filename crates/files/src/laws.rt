// The theorem on names that are printed.
ghost use Rattle.files.specs.Laws.{OneLine};

// A text in one line has no control character, and is the text itself if that has none.
pub fn one_line_stands()
    ensures { OneLine }
{}
