// Fields that are inside the bytes, from bit `start` of byte `from`. A short one is written and read by the whole bytes that it covers, together with
// the bits beside it in the first and the last of them, as one number of 64 bits; a wider one is two.
ghost use Rattle.std.specs.Prelude.{◌≡◌, ◌++◌, ◌+◌, ◌-◌, ◌*◌, ◌^◌, ◌<◌, ◌≤◌, length};
ghost use Rattle.rules.specs.Lists.{part, splice};
ghost use Rattle.rules.specs.Fields.{field, value, bits_of};
ghost use Rattle.fields.specs.Within.{widest, widest_short};

use crate::whole::{get_bytes, put_bytes};

// The widest short field: 7 bits may stand before it.
const WIDEST_SHORT: usize = 57;

// The bits that a wider field has in its second part, and how many values these have.
const LOW: usize = 32;

const LOW_VALUES: u64 = 0x1_0000_0000;

// 2 to the power k.
fn power(k: usize) -> u64
    requires { k < 64 }
    ensures { (result ≡ 2 ^ k) × (0 < result) }
{
    1u64 << k
}

// The low `width` bits of v between bits that stay: those of the first byte before them, and those of the last byte after them.
fn covering(first: u8, before: usize, width: usize, v: u64, after: usize, last: u8) -> u64
    requires { (before < 8) × (width ≤ widest_short) × (after < 8) × (before + width + after ≤ widest) }
    ensures { field (before + width + after) result ≡ part 0 before (field 8 first) ++ (field width v ++ part (8 - after) after (field 8 last)) }
{
    let head = first as u64 / power(8 - before);
    let span = power(width);
    let low = power(after);
    let tail = last as u64 % low;
    (head * span + v % span) * low + tail
}

// Writes the low `width` bits of v.
fn put_short(out: &mut [u8], from: usize, start: usize, width: usize, v: u64)
    requires { (start < 8) × (width ≤ widest_short) × (from * 8 + start + width ≤ length out.old * 8) }
    ensures { bits_of out.new ≡ splice (bits_of out.old) (from * 8 + start) (field width v) }
{
    if width == 0 {
        return;
    }
    let bytes = (start + width + 7) / 8;
    let to = from + bytes;
    let after = bytes * 8 - start - width;
    let covered = covering(out[from], start, width, v, after, out[to - 1]);
    put_bytes(out, from, to, covered);
}

// The number in the `width` bits.
fn get_short(image: &[u8], from: usize, start: usize, width: usize) -> u64
    requires { (start < 8) × (width ≤ widest_short) × (from * 8 + start + width ≤ length image.now * 8) }
    ensures { result ≡ value (part (from * 8 + start) width (bits_of image.now)) }
{
    let bytes = (start + width + 7) / 8;
    let after = bytes * 8 - start - width;
    get_bytes(image, from, from + bytes) / power(after) % power(width)
}

// Writes the low `width` bits of v.
pub(crate) fn put_inside(out: &mut [u8], from: usize, start: usize, width: usize, v: u64)
    requires { (start < 8) × (width ≤ widest) × (from * 8 + start + width ≤ length out.old * 8) }
    ensures { bits_of out.new ≡ splice (bits_of out.old) (from * 8 + start) (field width v) }
{
    if width <= WIDEST_SHORT {
        put_short(out, from, start, width, v);
        return;
    }
    let high = width - LOW;
    let end = start + high;
    put_short(out, from, start, high, v / LOW_VALUES);
    put_short(out, from + end / 8, end % 8, LOW, v);
}

// The number in the `width` bits.
pub(crate) fn get_inside(image: &[u8], from: usize, start: usize, width: usize) -> u64
    requires { (start < 8) × (width ≤ widest) × (from * 8 + start + width ≤ length image.now * 8) }
    ensures { result ≡ value (part (from * 8 + start) width (bits_of image.now)) }
{
    if width <= WIDEST_SHORT {
        return get_short(image, from, start, width);
    }
    let high = width - LOW;
    let end = start + high;
    get_short(image, from, start, high) * LOW_VALUES
        + get_short(image, from + end / 8, end % 8, LOW)
}
