// The text of a command: words, and the numbers between them.
use arrayvec::ArrayVec;

// As many numbers as a command has at most.
const MOST: usize = 4;

// The first word of the text, and what follows the blank behind it.
pub fn parted(s: &[u8]) -> (&[u8], &[u8]) {
    match s.iter().position(|b| *b == b' ') {
        Some(i) => (&s[..i], &s[i + 1..]),
        None => (s, &[]),
    }
}

fn with_digit(n: u8, digit: u8) -> Option<u8> {
    n.checked_mul(10)?.checked_add(digit.saturating_sub(b'0'))
}

// The number that the digits say, or, where that is above 255, what the digits say before it is.
fn number(digits: &[u8]) -> Result<u8, u8> {
    digits
        .iter()
        .try_fold(0u8, |n, digit| with_digit(n, *digit).ok_or(n))
}

// The numbers of the text, whatever stands between them. No command has more than MOST of them, or one above 255.
fn numbers_in(s: &[u8]) -> Option<ArrayVec<u8, MOST>> {
    let mut numbers = ArrayVec::new();
    for digits in s
        .split(|b| !b.is_ascii_digit())
        .filter(|digits| !digits.is_empty())
    {
        numbers.try_push(number(digits).ok()?).ok()?;
    }
    Some(numbers)
}

// The text's first word and its numbers: what tells one command from another.
pub fn command(s: &[u8]) -> Option<(&[u8], ArrayVec<u8, MOST>)> {
    let (word, _) = parted(s);
    Some((word, numbers_in(s)?))
}

// The first N numbers of the text, whatever follows them: 0 for one that it does not have, and of one above 255 as many digits as a byte has room for.
pub fn first_numbers<const N: usize>(s: &[u8]) -> [u8; N] {
    let mut numbers = [0; N];
    let texts = s
        .split(|b| !b.is_ascii_digit())
        .filter(|digits| !digits.is_empty());
    for (n, digits) in numbers.iter_mut().zip(texts) {
        *n = number(digits).unwrap_or_else(|before| before);
    }
    numbers
}
