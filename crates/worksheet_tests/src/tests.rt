// Worksheets, as they are printed.
use road::Town;
use std::alloc::Global;
use std::test::Fail;
use worksheet::worksheet;

// A town with depot 0, legs and the parts of a sheet, in numbers.
#[derive(Clone, Copy)]
struct Numbers {
    crossings: u64,
    streets: &'static [u64],
    legs: &'static [u64],
    parts: &'static [u64],
}

const TEXTS: [(Numbers, &str); 5] = [
    (
        Numbers {
            crossings: 4,
            streets: &[0, 1, 2, 0, 2, 3, 0, 3, 4],
            legs: &[0, 1, 2, 3, 4, 5],
            parts: &[4, 0, 1, 0, 0, 6, 0, 0, 1, 0, 8, 0, 0, 0, 1],
        },
        "\
part 0: crossings 1; out lead streets 0, 1 of them (odd); weight 4
part 1: crossings 2; out lead streets 1, 1 of them (odd); weight 6
part 2: crossings 3; out lead streets 2, 1 of them (odd); weight 8
street 0: bears 4, at most 4
street 1: bears 6, at most 6
street 2: bears 8, at most 8
all parts weigh 4 + 6 + 8 = 18
all streets measure 2 + 3 + 4 = 9
the round measures 2 + 2 + 3 + 3 + 4 + 4 = 18
twice the round is 36, twice all streets and the weights are 18 + 18 = 36: they are equal
",
    ),
    (
        Numbers {
            crossings: 4,
            streets: &[0, 1, 1, 0, 2, 1, 0, 3, 1, 1, 2, 1, 1, 3, 1, 2, 3, 1],
            legs: &[0, 1, 2, 7, 8, 11, 10, 5],
            parts: &[1, 1, 0, 0, 0, 1, 0, 1, 0, 0, 1, 0, 0, 1, 0, 1, 0, 0, 0, 1],
        },
        "\
part 0: crossings 0; out lead streets 0 1 2, 3 of them (odd); weight 1
part 1: crossings 1; out lead streets 0 3 4, 3 of them (odd); weight 1
part 2: crossings 2; out lead streets 1 3 5, 3 of them (odd); weight 1
part 3: crossings 3; out lead streets 2 4 5, 3 of them (odd); weight 1
street 0: bears 1 + 1 = 2, at most 2
street 1: bears 1 + 1 = 2, at most 2
street 2: bears 1 + 1 = 2, at most 2
street 3: bears 1 + 1 = 2, at most 2
street 4: bears 1 + 1 = 2, at most 2
street 5: bears 1 + 1 = 2, at most 2
all parts weigh 1 + 1 + 1 + 1 = 4
all streets measure 1 + 1 + 1 + 1 + 1 + 1 = 6
the round measures 1 + 1 + 1 + 1 + 1 + 1 + 1 + 1 = 8
twice the round is 16, twice all streets and the weights are 12 + 4 = 16: they are equal
",
    ),
    (
        Numbers {
            crossings: 1,
            streets: &[],
            legs: &[],
            parts: &[],
        },
        "\
all parts weigh 0
all streets measure 0
the round measures 0
twice the round is 0, twice all streets and the weights are 0 + 0 = 0: they are equal
",
    ),
    (
        Numbers {
            crossings: 3,
            streets: &[0, 1, 3, 1, 2, 4, 2, 0, 5],
            legs: &[0, 2, 4],
            parts: &[7, 0, 1, 0, 2, 0, 0, 1, 1, 0, 0, 0],
        },
        "\
part 0: crossings 1; out lead streets 0 1, 2 of them (even, not allowed); weight 7
part 1: crossings 2; out lead streets 1 2, 2 of them (even, not allowed); weight 2
part 2: crossings none; out lead streets none, 0 of them (even, not allowed); weight 1
street 0: bears 7, more than 6, not allowed
street 1: bears 7 + 2 = 9, more than 8, not allowed
street 2: bears 2, at most 10
all parts weigh 7 + 2 + 1 = 10
all streets measure 3 + 4 + 5 = 12
the round measures 3 + 4 + 5 = 12
twice the round is 24, twice all streets and the weights are 24 + 10 = 34: they differ
",
    ),
    (
        Numbers {
            crossings: 2,
            streets: &[0, 1, 5],
            legs: &[0, 1],
            parts: &[18446744073709551615, 1, 0, 18446744073709551615, 7, 0],
        },
        "\
part 0: crossings 0; out lead streets 0, 1 of them (odd); weight 18446744073709551615
part 1: crossings 0; out lead streets 0, 1 of them (odd); weight 18446744073709551615
street 0: bears 18446744073709551615 + 18446744073709551615 = 36893488147419103230, more than 10, not allowed
all parts weigh 18446744073709551615 + 18446744073709551615 = 36893488147419103230
all streets measure 5
the round measures 5 + 5 = 10
twice the round is 20, twice all streets and the weights are 10 + 36893488147419103230 = 36893488147419103240: they differ
",
    ),
];

fn text(heap: Global, given: Numbers) -> Result<String, Fail> {
    let town = Town::take(given.crossings, given.streets, 0)?;
    Ok(worksheet(heap, &town, given.legs, given.parts)?)
}

#[test]
fn texts(rt: HostRuntime) -> Result<(), Fail> {
    let heap = rt.alloc();
    for (given, expected) in TEXTS {
        assert_eq!(rt; text(heap, given)?.as_str(), expected);
    }
    Ok(())
}
