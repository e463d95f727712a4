// Numbers as text in lent bytes: decimal, signed and hex. Each writer tells how long its text is, and writes as much of it as the slice has
// room for, so that none of them can fail.
#![tactic(auto)]

ghost use Rattle.std.specs.Prelude.{◌≡◌, ℕ, ◌+◌, ◌≤◌, ◌<◌, length, set};
ghost use Rattle.std.proofs.lemmas.List.Edits.{sets};
ghost use Rattle.rules.specs.Listing.{decimal, signed_text, hex_byte, hex};
ghost use Rattle.digits.specs.Put.{Put};

use rules::words;

// The bases of decimal and hex digits.
const DECIMAL: u64 = 10;

const HEX: u32 = 16;

// A number of 32 bits has at most ten decimal digits, so many after the first.
const MORE_DIGITS: usize = 9;

// How many hex digits a number of 32 bits has, and a byte.
pub const WORD_HEX: usize = 8;

pub const BYTE_HEX: usize = 2;

// Stays: the bytes and the place one by one, and the length told, here and in console and lister: as fields of a writer each promise would say both as they were and as they are, and be no plainer.

// Writes a byte at the place `at` + `i`, where the slice has that place.
pub fn put_byte(out: &mut [u8], at: usize, i: usize, b: u8)
    ensures { out.new ≡ set out.old (at + i) b }
{
    let n = out.len();
    if at < n && i < n - at {
        out[at + i] = b;
    }
}

// Writes the last `k` + 1 decimal digits of `n`, the first at `at` + `i`, and tells the `i` after them.
fn put_digits(out: &mut [u8], at: usize, i: usize, n: u64, k: usize) -> usize
    requires { (i ≤ 1) × (k ≤ 9) }
    ensures { (result ≡ i + length (decimal k n)) × (out.new ≡ sets out.old (at + i) (decimal k n)) }
{
    let last = b'0' + (n % DECIMAL) as u8;
    if k == 0 || n < DECIMAL {
        put_byte(out, at, i, last);
        return i + 1;
    }
    let before = put_digits(out, at, i, n / DECIMAL, k - 1);
    put_byte(out, at, before, last);
    before + 1
}

// Writes `n` in decimal with no leading zeros: the last ten digits, which are all of a number of 32 bits.
pub fn put_decimal(out: &mut [u8], at: usize, n: u64) -> usize
    ensures { Put out.old out.new at (decimal 9 n) result }
{
    put_digits(out, at, 0, n, MORE_DIGITS)
}

// Writes 32 bits, read as two's complement, in decimal.
pub fn put_signed(out: &mut [u8], at: usize, b: u32) -> usize
    ensures { Put out.old out.new at (signed_text b) result }
{
    if b < words::LOWEST {
        return put_digits(out, at, 0, b as u64, MORE_DIGITS);
    }
    put_byte(out, at, 0, b'-');
    put_digits(out, at, 1, words::MODULUS - (b as u64), MORE_DIGITS)
}

// A hex digit, in capitals.
fn hex_byte(digit: u32) -> u8
    requires { digit < 16 }
    ensures { result ≡ hex_byte digit }
{
    if digit < 10 {
        b'0' + digit as u8
    } else {
        b'A' + (digit as u8 - 10)
    }
}

// Writes `k` hex zeros: it looks no further than the slice goes, however large `k` is.
fn put_hex_zeros(out: &mut [u8], at: usize, k: usize) -> usize
    ensures { Put out.old out.new at (hex k 0) result }
{
    for i in 0..k.min(out.len()) {
        put_byte(out, at, i, b'0');
    }
    k
}

// Writes the last `k` hex digits of `n`. Behind eight of them nothing is left of a number of 32 bits, so that it calls itself eight times at most.
pub fn put_hex(out: &mut [u8], at: usize, n: u32, k: usize) -> usize
    ensures { Put out.old out.new at (hex k n) result }
{
    if n == 0 {
        return put_hex_zeros(out, at, k);
    }
    if k > 0 {
        let before = put_hex(out, at, n / HEX, k - 1);
        put_byte(out, at, before, hex_byte(n % HEX));
    }
    k
}

// Writes a text.
pub fn put_text(out: &mut [u8], at: usize, text: &[u8]) -> usize
    ensures { Put out.old out.new at text.now result }
{
    for (i, b) in text.iter().enumerate() {
        put_byte(out, at, i, *b);
    }
    text.len()
}
