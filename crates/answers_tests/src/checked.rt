// What the program that checks says of texts.
use answers::{NoAnswer, check_answer};
use std::alloc::{AllocError, Global};
use std::test::Fail;

// A text, and what is said of it.
const TEXTS: [(&str, &str); 29] = [
    (
        "part 10 at 1\ncrossings 2\ndepot 0\nstreet 0 1 5\nround 0 0b",
        "shortest 10\n",
    ),
    (
        "crossings 2\ndepot 0\nstreet 0 1 5\nround 0 0b\npart 10 at 1\npart 0 at 0 1 1",
        "no sheet at part 1\n",
    ),
    (
        "crossings 2\ndepot 0\nstreet 0 1 5\nround 0 0b\npart 11 at 0",
        "no sheet at street 0\n",
    ),
    (
        "crossings 2\ndepot 0\nstreet 0 1 5\nround 0 0b\npart 9 at 0",
        "apart 10 and 10\n",
    ),
    (
        "crossings 2\ndepot 0\nround\npart 10000001 at 0",
        "refusal 8 at 0: part 0 weighs more than 10000000",
    ),
    (
        "crossings 2\ndepot 0\nround\npart 1 at 2",
        "line 4: expected crossings of the town in the part",
    ),
    (
        "part 1 1",
        "line 1: expected \"part W at\" and crossings, whole numbers of at most 19 digits",
    ),
    (
        "street 0 0 5\n\n depot\t0 \r\ncrossings 1\nround 0",
        "shortest 5\n",
    ),
    ("crossings 1\ndepot 0\nround", "shortest 0\n"),
    (
        "crossings 2\ndepot 0\nstreet 0 1 5\nround 0 0b",
        "apart 10 and 5\n",
    ),
    (
        "crossings 2\ndepot 0\nstreet 0 1 5\nround 0 0",
        "no round at leg 1\n",
    ),
    (
        "crossings 2\ndepot 0\nstreet 0 1 5\nround 0",
        "no round home\n",
    ),
    (
        "crossings 2\ndepot 0\nstreet 0 1 5\nround",
        "no round street 0\n",
    ),
    (
        "crossings 2\ndepot 2\nstreet 0 2 5\nround",
        "refusal 3 at 0: street 0 has an end past the crossings or is longer than 100000 metres",
    ),
    (
        "crossings 2\ndepot 0\nstreet 0 1 5\nround 0 1b",
        "refusal 7 at 1: leg 1 is of no street",
    ),
    ("depot 0\nround", "expected a line \"crossings N\""),
    ("crossings 1\nround", "expected a line \"depot D\""),
    ("crossings 1\ndepot 0", "expected a line \"round\""),
    (
        "crossing 1",
        "line 1: expected crossings, depot, street, round, length or part as the first word",
    ),
    (
        "\ncrossings 1 2",
        "line 2: expected \"crossings N\" with one whole number of at most 19 digits",
    ),
    (
        "depot +1",
        "line 1: expected \"depot D\" with one whole number of at most 19 digits",
    ),
    (
        "depot 10000000000000000000",
        "line 1: expected \"depot D\" with one whole number of at most 19 digits",
    ),
    (
        "street 0 1",
        "line 1: expected \"street A B L\" with three whole numbers of at most 19 digits",
    ),
    (
        "round 9223372036854775808",
        "line 1: expected \"round\" and its legs, such as 4 or 4b, each below 2^63",
    ),
    ("round\nround", "line 2: expected no second line \"round\""),
    (
        "crossings 4\ndepot 0\nstreet 0 1 2\nstreet 0 2 3\nstreet 0 3 4\nround 0 0b 1 1b 2 2b\nlength 18 of 9\npart 4 at 1\npart 6 at 2\npart 8 at 3\n",
        "shortest 18\n",
    ),
    (
        "crossings 1\ndepot 0\nlength 7 of 9999999999999999999\nround",
        "shortest 0\n",
    ),
    (
        "length 18 or 9",
        "line 1: expected \"length L of A\" with two whole numbers of at most 19 digits",
    ),
    (
        "length 18 of 10000000000000000000",
        "line 1: expected \"length L of A\" with two whole numbers of at most 19 digits",
    ),
];

fn text_of(heap: Global, text: &str) -> Result<String, NoAnswer> {
    Ok(check_answer(heap, text)?.text)
}

// The planner has such a loop too: one for both would take the answer as a closure, which each would have to write.
#[test]
fn texts(rt: HostRuntime) -> Result<(), Fail> {
    let heap = rt.alloc();
    for (text, expected) in TEXTS {
        let said = text_of(heap, text).or_else(|e| e.to_string(heap))?;
        assert_eq!(rt; said.as_str(), expected, "{}", text);
    }
    Ok(())
}

// A text that repeats a line.
fn repeated(heap: Global, head: &str, line: &str, times: usize) -> Result<String, AllocError> {
    let mut text = String::from_str(heap, head)?;
    for _ in 0..times {
        text.push_str(line)?;
    }
    Ok(text)
}

// A head, a line, how often it stands there, and what is said.
const LONG: [(&str, &str, usize, &str); 4] = [
    (
        "crossings 1\ndepot 0\nround\n",
        "street 0 0 1\n",
        300,
        "no round street 0\n",
    ),
    (
        "crossings 1\ndepot 0\nround\n",
        "street 0 0 1\n",
        301,
        "refusal 2 at 903: a town has at most 300 streets, not 301",
    ),
    (
        "crossings 1\ndepot 0\nround\n",
        "part 1 at\n",
        400,
        "no sheet at part 0\n",
    ),
    (
        "crossings 1\ndepot 0\nround\n",
        "part 1 at\n",
        401,
        "refusal 8 at 401: a sheet has at most 400 parts, not 401",
    ),
];

#[test]
fn long_texts(rt: HostRuntime) -> Result<(), Fail> {
    let heap = rt.alloc();
    for (head, line, times, expected) in LONG {
        let text = repeated(heap, head, line, times)?;
        let said = text_of(heap, text.as_str()).or_else(|e| e.to_string(heap))?;
        assert_eq!(rt; said.as_str(), expected, "{}", line);
    }
    Ok(())
}
