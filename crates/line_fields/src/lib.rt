// The fields of a line: words, and numbers in decimal digits, with a space between them.
#![tactic(auto)]

ghost use Rattle.std.specs.Prelude.{◌≡◌, position};
ghost use Rattle.line_fields.specs.Fields.{after_space, before_space, is_space, number_of};

use network::TimeWord;

// The most digits of a number.
const MOST_DIGITS: usize = 20;

// The number that s spells: 1 to 20 decimal digits that fit the width of a time.
pub fn read_number(s: &[u8]) -> Option<TimeWord>
    ensures { result ≡ number_of s.now }
{
    if s.is_empty() || MOST_DIGITS < s.len() {
        return None;
    }
    let mut v: TimeWord = 0;
    for &b in s {
        if !b.is_ascii_digit() {
            return None;
        }
        v = v.checked_mul(10)?.checked_add(TimeWord::from(b - b'0'))?;
    }
    Some(v)
}

// Where the first space stands, if there is one.
fn first_space(s: &[u8]) -> Option<usize>
    ensures { result ≡ position is_space s.now }
{
    s.iter().position(|&b| b == b' ')
}

// The parts before and after the first space; where there is none, all of it and nothing.
pub fn split_space(s: &[u8]) -> (&[u8], &[u8])
    ensures before { result.0.now ≡ before_space s.now }
    ensures after { result.1.now ≡ after_space s.now }
{
    match first_space(s) {
        Some(i) => (&s[..i], &s[i + 1..]),
        None => (s, &[]),
    }
}
