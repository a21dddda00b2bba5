// Classes of crossings that streets of no length join: for each crossing the label of its class, a crossing, and a way from there.
ghost use Rattle.std.specs.Prelude.{◌≡◌, length};

// Labels and ways are two lists: a merge compares labels alone.
#[derive(Drop)]
pub(crate) struct Classes {
    pub label: [usize; 100],
    pub way: Vec<[bool; 300]>,
    // How many crossings have a label. A merge asks which class is the smaller, to save time; nothing rests on it.
    pub size: [usize; 100],
    ghost places: { length label ≡ 100 },
    ghost rows: { length way.items ≡ 100 },
    ghost sizes: { length size ≡ 100 },
}
