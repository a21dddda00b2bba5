// The crossings that can be come to from one over the streets of a set, each with a way over such streets.
ghost use Rattle.std.specs.Prelude.{◌≡◌, length};

// The marks stand beside the ways, and not as an `Option` of each way: they are lent as a set of crossings, and the room for the ways is kept from one search to the next.
#[derive(Drop)]
pub(crate) struct Component {
    pub from: usize,
    pub marks: [bool; 100],
    pub path: Vec<[bool; 300]>,
    ghost places: { length marks ≡ 100 },
    ghost rows: { length path.items ≡ 100 },
}
