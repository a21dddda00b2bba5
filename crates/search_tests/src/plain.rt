// The checker's answer by the plain definition: the legs are walked, and the streets out of each part and what each street bears are counted.
use crate::written::width;
use road::{Fault, Refusal};
use sheet::{SheetFault, Word};
use test_towns::Quarter;

// The street of a leg, if there is one: where the leg begins, where it ends, and how long it is.
fn driven(streets: &[[u64; 3]], leg: u64) -> Option<[u64; 3]> {
    let [one, two, long] = streets.get((leg / 2) as usize).copied()?;
    if leg % 2 == 0 {
        Some([one, two, long])
    } else {
        Some([two, one, long])
    }
}

// Where a leg leads from a crossing, if it begins there.
fn next(streets: &[[u64; 3]], at: u64, leg: u64) -> Option<u64> {
    let [from, to, _] = driven(streets, leg)?;
    if from == at { Some(to) } else { None }
}

// The first leg that does not begin where the plough is, or that it does not come home.
fn walk(quarter: Quarter, legs: &[u64]) -> Option<Fault> {
    let mut at = quarter.depot;
    for (i, leg) in legs.iter().enumerate() {
        let Some(to) = next(quarter.streets(), at, *leg) else {
            return Some(Fault::Leg(i));
        };
        at = to;
    }
    if at == quarter.depot {
        None
    } else {
        Some(Fault::Home)
    }
}

// The first street that is left out.
fn left_out(streets: &[[u64; 3]], legs: &[u64]) -> Option<Fault> {
    for k in 0..streets.len() {
        if !legs.iter().any(|leg| *leg / 2 == k as u64) {
            return Some(Fault::Street(k));
        }
    }
    None
}

fn weight(part: &[u64]) -> u64 {
    part.first().copied().unwrap_or(0)
}

// Whether a part marks a crossing: the marks are behind the weight.
fn is_marked(part: &[u64], v: u64) -> bool {
    let marks = part.iter().skip(1);
    marks
        .enumerate()
        .any(|(u, mark)| u as u64 == v && *mark != 0)
}

// Whether just one end of a street is marked.
fn leads_out(part: &[u64], street: [u64; 3]) -> bool {
    let [one, two, _] = street;
    is_marked(part, one) != is_marked(part, two)
}

// The first part out of which an even number of streets lead.
fn even_part(streets: &[[u64; 3]], width: usize, parts: &[u64]) -> Option<SheetFault> {
    for (i, part) in parts.chunks(width.max(1)).enumerate() {
        let out = streets.iter().filter(|street| leads_out(part, **street));
        if out.count() % 2 == 0 {
            return Some(SheetFault::Part(i));
        }
    }
    None
}

// What a street bears: the weights of the parts out of which it leads.
fn borne(street: [u64; 3], width: usize, parts: &[u64]) -> u64 {
    let mut sum = 0u64;
    for part in parts.chunks(width.max(1)) {
        if leads_out(part, street) {
            sum = sum.saturating_add(weight(part));
        }
    }
    sum
}

// The first street that bears more than twice its length.
fn overloaded(streets: &[[u64; 3]], width: usize, parts: &[u64]) -> Option<SheetFault> {
    for (k, street) in streets.iter().enumerate() {
        let [_, _, long] = *street;
        if borne(*street, width, parts) > long.saturating_mul(2) {
            return Some(SheetFault::Street(k));
        }
    }
    None
}

// The length of a round.
fn length(streets: &[[u64; 3]], legs: &[u64]) -> u64 {
    let streets = legs.iter().filter_map(|leg| driven(streets, *leg));
    streets
        .map(|[_, _, long]| long)
        .fold(0, u64::saturating_add)
}

// Twice all streets, and the weights.
fn shown(streets: &[[u64; 3]], width: usize, parts: &[u64]) -> u64 {
    let all = streets.iter().map(|[_, _, long]| long.saturating_mul(2));
    let weights = parts.chunks(width.max(1)).map(weight);
    all.chain(weights).fold(0, u64::saturating_add)
}

fn compare(quarter: Quarter, legs: &[u64], parts: &[u64]) -> Word {
    let long = length(quarter.streets(), legs);
    let shown = shown(quarter.streets(), width(quarter), parts);
    if long.saturating_mul(2) == shown {
        Word::Shortest(u128::from(long))
    } else {
        Word::Apart(u128::from(long), u128::from(shown.div_ceil(2)))
    }
}

fn word(quarter: Quarter, legs: &[u64], parts: &[u64]) -> Word {
    let streets = quarter.streets();
    let width = width(quarter);
    if let Some(fault) = walk(quarter, legs).or(left_out(streets, legs)) {
        return Word::NoRound(fault);
    }
    if let Some(fault) = even_part(streets, width, parts).or(overloaded(streets, width, parts)) {
        return Word::NoSheet(fault);
    }
    compare(quarter, legs, parts)
}

// A leg of no street, numbers that are not a whole number of parts, or a weight above 10,000,000. Parts are too few to be refused for their number.
fn refusal(quarter: Quarter, legs: &[u64], parts: &[u64]) -> Option<Refusal> {
    let streets = quarter.streets();
    let width = width(quarter).max(1);
    if let Some(i) = legs.iter().position(|leg| driven(streets, *leg).is_none()) {
        return Some(Refusal::NoStreet(i as u64));
    }
    if parts.len() % width != 0 {
        return Some(Refusal::Parts(parts.len() as u64));
    }
    let heavy = parts
        .chunks(width)
        .position(|part| weight(part) > 10_000_000);
    heavy.map(|i| Refusal::Parts(i as u64))
}

// The answer on legs and parts of a town that is within the limits.
pub(crate) fn plain_answer(quarter: Quarter, legs: &[u64], parts: &[u64]) -> Result<Word, Refusal> {
    match refusal(quarter, legs, parts) {
        Some(refusal) => Err(refusal),
        None => Ok(word(quarter, legs, parts)),
    }
}
