// Towns by hand that tests of more than one crate use.

pub const ROAD: [[u64; 3]; 1] = [[0, 1, 7]];

pub const STAR: [[u64; 3]; 3] = [[0, 1, 2], [0, 2, 3], [0, 3, 4]];

pub const PARALLEL: [[u64; 3]; 3] = [[0, 1, 2], [0, 1, 3], [0, 1, 5]];

// The second street leads back to the crossing that it begins at.
pub const LOOP: [[u64; 3]; 2] = [[0, 1, 4], [1, 1, 3]];

// Streets between crossings 0 and 1, and others between 2 and 3 that cannot be come to from there.
pub const APART: [[u64; 3]; 4] = [[0, 1, 1], [2, 2, 0], [2, 3, 9], [0, 0, 4]];

// A street between any two of four crossings.
pub const FOUR_COMPLETE: [[u64; 3]; 6] = [
    [0, 1, 1],
    [0, 2, 1],
    [0, 3, 1],
    [1, 2, 1],
    [1, 3, 1],
    [2, 3, 1],
];

// Two rings of three crossings, and a long street between them.
pub const TWO_RINGS: [[u64; 3]; 7] = [
    [0, 1, 1],
    [1, 2, 1],
    [2, 0, 1],
    [2, 3, 6],
    [3, 4, 1],
    [4, 5, 1],
    [5, 3, 1],
];

// Two rows of three crossings, each joined to the one across.
pub const TWO_ROWS: [[u64; 3]; 7] = [
    [0, 1, 1],
    [1, 2, 1],
    [3, 4, 1],
    [4, 5, 1],
    [0, 3, 1],
    [1, 4, 1],
    [2, 5, 1],
];

// Two neighbours that are odd, though the street between them is not the shortest.
pub const QUARTER: [[u64; 3]; 7] = [
    [0, 1, 4],
    [1, 2, 3],
    [2, 3, 4],
    [3, 0, 3],
    [0, 2, 5],
    [2, 4, 2],
    [3, 4, 2],
];
