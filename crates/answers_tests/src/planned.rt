// What the program that plans says of texts, and what is read from its plans.
use answers::{NoAnswer, check_answer, plan_answer};
use std::alloc::Global;
use std::test::Fail;

// A text, and the plan or what is said of it.
const TEXTS: [(&str, &str); 18] = [
    ("crossings 1\ndepot 0", "\nround\nlength 0 of 0\n"),
    (
        "crossings 4\ndepot 0\nstreet 0 1 2\nstreet 0 2 3\nstreet 0 3 4\n",
        "round 0 0b 1 1b 2 2b\nlength 18 of 9\npart 4 at 1\npart 6 at 2\npart 8 at 3\n",
    ),
    (
        "# a dead end\r\n\r\nstreet 0 1 5 # metres\r\n\tcrossings  2\r\nstreet 0 0 100000\r\ndepot 1\r\n",
        "round 0b 1 0\nlength 100010 of 100005\npart 10 at 0\n",
    ),
    (
        "crossings 101\ndepot 101",
        "refusal 1 at 101: a town has 1 to 100 crossings, not 101",
    ),
    (
        "crossings 9999999999999999999\ndepot 0",
        "refusal 1 at 9999999999999999999: a town has 1 to 100 crossings, not 9999999999999999999",
    ),
    (
        "crossings 2\ndepot 0\nstreet 0 2 5",
        "refusal 3 at 0: street 0 has an end past the crossings or is longer than 100000 metres",
    ),
    (
        "crossings 2\ndepot 2",
        "refusal 4 at 2: depot 2 is past the crossings",
    ),
    (
        "crossings 3\ndepot 0\nstreet 0 1 5\nstreet 2 2 5",
        "refusal 5 at 1: street 1 cannot be come to from the depot",
    ),
    (
        "crossings 10000000000000000000\ndepot 0",
        "line 1: expected \"crossings N\" with one whole number of at most 19 digits",
    ),
    (
        "crossings 1\ndepot 0\nround",
        "line 3: expected no round, length or part, which are for check",
    ),
    (
        "crossings 1\ndepot 0\nlength 0 of 0",
        "line 3: expected no round, length or part, which are for check",
    ),
    (
        "crossings 1\ndepot 0\npart 0 at",
        "line 3: expected no round, length or part, which are for check",
    ),
    (
        "crossings 1\n\ndepot 0\ndepot 0",
        "line 4: expected no second line \"depot D\"",
    ),
    (
        "crossings 1\ncrossings 2\ndepot 0",
        "line 2: expected no second line \"crossings N\"",
    ),
    ("depot 0\n", "expected a line \"crossings N\""),
    ("crossings 1\n# depot 0\n", "expected a line \"depot D\""),
    (
        "crossing 1",
        "line 1: expected crossings, depot, street, round, length or part as the first word",
    ),
    (
        "street 0 1 -5",
        "line 1: expected \"street A B L\" with three whole numbers of at most 19 digits",
    ),
];

// A town, and the checker's word on its plan.
const TOWNS: [(&str, &str); 5] = [
    ("crossings 1\ndepot 0", "shortest 0\n"),
    (
        "crossings 4\ndepot 0\nstreet 0 1 2\nstreet 0 2 3\nstreet 0 3 4",
        "shortest 18\n",
    ),
    (
        "crossings 3\ndepot 2\nstreet 0 1 0\nstreet 1 2 7\nstreet 2 0 7\nstreet 1 1 1\n",
        "shortest 15\n",
    ),
    (
        "crossings 4\ndepot 3\nstreet 0 1 5\nstreet 1 2 6\nstreet 2 3 7\nstreet 3 0 8\nstreet 0 2 9\nstreet 1 3 10",
        "shortest 57\n",
    ),
    (
        "crossings 2\ndepot 0\nstreet 0 1 5\n# no line end",
        "shortest 10\n",
    ),
];

fn text_of(heap: Global, text: &str) -> Result<String, NoAnswer> {
    Ok(plan_answer(heap, text)?.text)
}

// The checker has such a loop too: one for both would take the answer as a closure, which each would have to write.
#[test]
fn texts(rt: HostRuntime) -> Result<(), Fail> {
    let heap = rt.alloc();
    for (text, expected) in TEXTS {
        let said = text_of(heap, text).or_else(|e| e.to_string(heap))?;
        assert_eq!(rt; said.as_str(), expected, "{}", text);
    }
    Ok(())
}

// A town's text followed by its plan is a text for the checker.
fn said_of_plan(heap: Global, town: &str) -> Result<String, NoAnswer> {
    let plan = text_of(heap, town)?;
    let text = format!(in heap; "{town}{plan}")?;
    Ok(check_answer(heap, text.as_str())?.text)
}

// The loop of `texts` over another table and another answer: a function for both would be longer than the two.
#[test]
fn plans_read_back(rt: HostRuntime) -> Result<(), Fail> {
    let heap = rt.alloc();
    for (town, expected) in TOWNS {
        let said = said_of_plan(heap, town).or_else(|e| e.to_string(heap))?;
        assert_eq!(rt; said.as_str(), expected, "{}", town);
    }
    Ok(())
}
