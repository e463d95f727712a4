// What the program writes: answers, and what a lent output holds.
use numbers::Numbered;
use rules::ImageRefusal;
use std::io;
use std::io::Write;

// Hex digits of a byte, and of a place.
const BYTE_DIGITS: usize = 2;

pub(crate) const PLACE_DIGITS: usize = 16;

// The most bytes of an image that are printed one by one.
const MOST_BYTES: usize = 18;

// The number and the length told, which it gives back.
pub(crate) fn answer<W: Write>(
    out: &mut W,
    answer: Result<usize, ImageRefusal>,
) -> io::Result<usize> {
    let number = answer.number();
    let told = answer.unwrap_or(0);
    write!(out, " {number} {told}")?;
    Ok(told)
}

// What stands behind what was told: zeros, or the sevens that were lent.
fn rest<W: Write, T: Copy + Into<u64>>(out: &mut W, rest: &[T]) -> io::Result<()> {
    if rest.is_empty() {
        return Ok(());
    }
    if rest.iter().all(|x| (*x).into() == 0) {
        return write!(out, " zeros");
    }
    if rest.iter().all(|x| (*x).into() == 7) {
        return write!(out, " kept");
    }
    Ok(())
}

// The first n, in hex of so many digits, and the rest.
pub(crate) fn contents<W: Write, T: Copy + Into<u64>>(
    out: &mut W,
    held: &[T],
    n: usize,
    width: usize,
) -> io::Result<()> {
    let (told, others) = held.split_at(n.min(held.len()));
    for x in told {
        let n: u64 = (*x).into();
        write!(out, " {n:0width$x}")?;
    }
    rest(out, others)
}

// The bytes of an image; of a long one, their sum modulo a million.
pub(crate) fn image<W: Write>(out: &mut W, image: &[u8], told: usize) -> io::Result<()> {
    if told <= MOST_BYTES {
        return contents(out, image, told, BYTE_DIGITS);
    }
    let sum = image
        .iter()
        .fold(0u64, |total, b| total.wrapping_add(u64::from(*b)));
    let sum = sum % 1_000_000;
    write!(out, " sum {sum}")
}
