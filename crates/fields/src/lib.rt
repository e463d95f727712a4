// Fields of bits in lent bytes, most significant bit first, at any bit and of any width up to 64. No call can fail: a field that is wider or not
// inside the bytes is not written, and reads as 0.
#![tactic(auto)]

mod inside;
mod whole;

ghost use Rattle.std.specs.Prelude.{◌≡◌, ◌+◌, ◌*◌, leb, length, drop};
ghost use Rattle.rules.specs.Fields.{bits_of, padded};
ghost use Rattle.fields.specs.Within.{inside, put_at, read_at};

// The widest field: one number of 64 bits.
const WIDEST: usize = 64;

// Whether the image has `width` bits from bit `at`: no sum here overflows.
pub fn has_bits(image: &[u8], at: usize, width: usize) -> bool
    ensures { result ≡ leb (at + width) (length image.now * 8) }
{
    at / 8 + width / 8 + (at % 8 + width % 8 + 7) / 8 <= image.len()
}

// Whether a field of `width` bits from bit `at` is no wider than one number, and inside the image.
fn is_inside(image: &[u8], at: usize, width: usize) -> bool
    ensures { result ≡ inside (bits_of image.now) at width }
{
    width <= WIDEST && has_bits(image, at, width)
}

// Writes the low `width` bits of v at bit `at`, where they are inside.
pub fn put(out: &mut [u8], at: usize, width: usize, v: u64)
    ensures { bits_of out.new ≡ put_at (bits_of out.old) at width v }
{
    if is_inside(out, at, width) {
        inside::put_inside(out, at / 8, at % 8, width, v);
    }
}

// The number in the `width` bits from bit `at`, where they are inside.
pub fn get(image: &[u8], at: usize, width: usize) -> u64
    ensures { result ≡ read_at (bits_of image.now) at width }
{
    if is_inside(image, at, width) {
        inside::get_inside(image, at / 8, at % 8, width)
    } else {
        0
    }
}

// Whether what is left from bit `at` is less than a byte, and zero: no bit stands behind those to the next byte, and they are zero.
pub fn is_padded(image: &[u8], at: usize) -> bool
    ensures { result ≡ padded (drop at (bits_of image.now)) }
{
    let padding = (8 - at % 8) % 8;
    !has_bits(image, at, padding + 1) && get(image, at, padding) == 0
}
