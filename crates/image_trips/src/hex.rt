// Numbers in hex, as a line of the input has them.
// Stays: byte by byte, not by `split` and `from_str_radix`, since the answer to bytes that are no UTF-8 or no digits, to empty numbers and to too many digits may not change.
use rules::sizes::MAX_PROGRAM;

// The kind's place, a table's length and its places.
pub(crate) const NUMBERS: usize = MAX_PROGRAM + 2;

pub(crate) type Numbers = [u64; NUMBERS];

// A number with one more digit at its end.
fn longer(n: u64, digit: u8) -> u64 {
    (n << 4) | u64::from(digit % 16 + digit / 64 * 9)
}

// Takes a byte of a line: a space begins the next number, any other makes the number longer. Tells which number is read; behind the last it is the first again.
fn put(out: &mut Numbers, k: usize, b: u8) -> usize {
    match out.get_mut(k) {
        None => 0,
        Some(_) if b == b' ' => k + 1,
        Some(n) => {
            *n = longer(*n, b);
            k
        }
    }
}

// Puts the numbers of a line from place 1 on, and tells how many there are.
pub(crate) fn read(line: &[u8], out: &mut Numbers) -> usize {
    line.iter().fold(0, |k, b| put(out, k, *b))
}
