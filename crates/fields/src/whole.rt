// Whole bytes of a slice as one number, and back: no copy of the slice.
ghost use Rattle.std.specs.Prelude.{◌≡◌, ◌+◌, ◌-◌, ◌*◌, ◌≤◌, length};
ghost use Rattle.rules.specs.Lists.{part, splice};
ghost use Rattle.rules.specs.Fields.{field, value, bits_of};

// How many values a byte has.
const BYTE: u64 = 256;

// Writes v into the bytes from `from` to before `to`, the last byte first.
pub(crate) fn put_bytes(out: &mut [u8], from: usize, to: usize, v: u64)
    requires { (from ≤ to) × (to ≤ length out.old) }
    ensures { bits_of out.new ≡ splice (bits_of out.old) (from * 8) (field ((to - from) * 8) v) }
{
    let mut left = v;
    // Stays: by place, since with `iter_mut().rev()` the goals of the loop stay open (tried), whose invariant speaks of the place.
    for i in (from..to).rev() {
        out[i] = (left % BYTE) as u8;
        left /= BYTE;
    }
}

// The number in the bytes from `from` to before `to`.
pub(crate) fn get_bytes(image: &[u8], from: usize, to: usize) -> u64
    requires { (from ≤ to) × (to ≤ from + 8) × (to ≤ length image.now) }
    ensures { result ≡ value (part (from * 8) ((to - from) * 8) (bits_of image.now)) }
{
    let mut v = 0;
    for byte in &image[from..to] {
        v = v * BYTE + u64::from(*byte);
    }
    v
}
