// Circuits through the border of a set of crossings.

// A street out of the set, with its end inside and its end outside.
#[derive(Clone, Copy)]
pub(crate) struct Exit {
    pub street: usize,
    pub inner: usize,
    pub outer: usize,
}

// Out over one street, then outside along `far`, and back over another street.
#[derive(Drop)]
pub(crate) struct Circuit {
    pub out: Exit,
    pub back: Exit,
    pub far: [bool; 300],
}
