// What a refused writer leaves of the slice that it was lent.
#![tactic(auto)]

ghost use Rattle.std.specs.Prelude.{◌≡◌, ◌==◌, if◌then◌else◌, length, replicate};

// Zeros, where it has `size` elements. At numbers and 0, that is `blanked` of the rules.
pub fn blank<T: Copy>(out: &mut [T], zero: T, size: usize)
    ensures { out.new ≡ (if length out.old == size then replicate size zero else out.old) }
{
    if out.len() == size {
        // Stays: at any `T`, `fill` requires that a clone cannot fail, and no public function here has a `requires` (a rule of the project).
        for x in out.iter_mut() {
            *x = zero;
        }
    }
}
