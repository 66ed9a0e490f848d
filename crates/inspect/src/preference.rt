// The preference that the program is given.
use std::env::FillError;
use std::rt::Env;

// The number with one more digit; what is no digit, and what is above 255, counts as 255.
fn further(n: u8, b: u8) -> u8 {
    if b.is_ascii_digit() {
        n.saturating_mul(10).saturating_add(b - b'0')
    } else {
        255
    }
}

fn number(s: &[u8]) -> u8 {
    if s.is_empty() {
        255
    } else {
        s.iter().fold(0, |n, b| further(n, *b))
    }
}

// The first argument as a number, and 0 where there is none; one that is too long for the buffer is no number.
pub fn given(rt: &impl Env) -> u8 {
    let mut text = [0u8; 64];
    match rt.arg(1, &mut text) {
        Ok(n) => number(&text[..n]),
        Err(FillError::NotPresent) => 0,
        Err(FillError::TooLong) => 255,
    }
}
