// The words of a line, and the numbers that they write.
ghost use Rattle.std.specs.Prelude.{◌≡◌, map, IfOk};
ghost use Rattle.std.specs.List.{before_first, position_or_len};
ghost use Rattle.road.specs.Counts.{bit};
ghost use Rattle.text.specs.Words.{words as words_of, is_hash, ends_word, number_in, leg_number as leg_number_of, leg_in};

use std::alloc::{AllocError, Global};

// Whether a byte ends a word: white space, or the '#' of a remark.
fn ends_word(byte: u8) -> bool
    ensures { result ≡ ends_word byte }
{
    byte.is_ascii_whitespace() || byte == b'#'
}

// How many bytes stand before the first that ends a word.
fn word_length(text: &str) -> usize
    ensures { result ≡ position_or_len ends_word text.now }
{
    text.bytes()
        .position(|byte| ends_word(byte))
        .unwrap_or(text.len())
}

// The words of a line, up to its '#' if it has one. By hand, since `split_ascii_whitespace` takes a step for each white space.
pub(crate) fn words(heap: Global, line: &str) -> Result<Vec<&str>, AllocError>
    ensures { IfOk result (λ v. map (λ w. w.now) v.items ≡ words_of (before_first is_hash line.now)) }
{
    let mut words = Vec::new(heap);
    let mut rest = line.trim_ascii_start();
    loop {
        let (word, after) = rest.split_at(word_length(rest));
        if word.is_empty() {
            return Ok(words);
        }
        words.push(word)?;
        rest = after.trim_ascii_start();
    }
}

// The number that a word of one to nineteen digits writes.
pub(crate) fn number(word: &str) -> Option<u64>
    ensures { result ≡ number_in word.now }
{
    match word.as_bytes() {
        [b'+', ..] => None,
        _ if word.len() >= 20 => None,
        _ => word.parse::<u64>().ok(),
    }
}

// The number of a leg: twice the street's, and one more if it is driven back.
fn leg_number(street: u64, back: bool) -> Option<u64>
    ensures { result ≡ leg_number_of (bit back) street }
{
    street.checked_mul(2)?.checked_add(u64::from(back))
}

// The number of the leg that a word names: its street's number, and a b where it is driven back.
pub(crate) fn leg(word: &str) -> Option<u64>
    ensures { result ≡ leg_in word.now }
{
    match word.strip_suffix('b') {
        Some(street) => leg_number(number(street)?, true),
        None => leg_number(number(word)?, false),
    }
}
