// The words of a line, each with the byte after it.
ghost use Rattle.std.specs.Prelude.{[], ◌∷◌, ◌++◌, ◌≡◌, ◌+◌, ◌≤◌, length};
ghost use Rattle.rules.specs.Bytes.{space};
ghost use Rattle.rules.specs.Listing.{decimal};
ghost use Rattle.rules.specs.Console.{tag_name};
ghost use Rattle.digits.specs.Put.{Put};

use rules::tags;

// Writes a word and the byte after it.
fn put_word(out: &mut [u8], at: usize, word: &[u8], after: u8) -> usize
    ensures { Put out.old out.new at (word.now ++ after ∷ []) result × (result ≡ length word.now + 1) }
{
    let n = digits::put_text(out, at, word);
    digits::put_byte(out, at, n, after);
    n + 1
}

// Writes a number and the byte after it.
#[tactic(auto, using(rules::proofs::Texts::length_decimal))]
pub(crate) fn put_number(out: &mut [u8], at: usize, n: usize, after: u8) -> usize
    ensures { Put out.old out.new at (decimal 9 n ++ after ∷ []) result × (result ≤ 11) }
{
    let k = digits::put_decimal(out, at, n as u64);
    digits::put_byte(out, at, k, after);
    k + 1
}

// Writes a word, a space, a number and the byte after it.
pub(crate) fn put_named(out: &mut [u8], at: usize, word: &[u8], n: usize, after: u8) -> usize
    requires { (at ≤ 128) × (length word.now ≤ 8) }
    ensures { Put out.old out.new at ((word.now ++ space ∷ []) ++ (decimal 9 n ++ after ∷ [])) result × (result ≤ 20) }
{
    let a = put_word(out, at, word, b' ');
    a + put_number(out, at + a, n, after)
}

// The name of a tag, where it has one.
fn name_of(tag: u8) -> &'static [u8]
    ensures { result.now ≡ tag_name tag }
{
    match tag {
        tags::INT => b"INT",
        tags::FLOAT => b"FLOAT",
        tags::MA => b"MA",
        tags::PA => b"PA",
        tags::CH => b"CH",
        _ => b"",
    }
}

// Writes the name of a tag, and a space.
pub(crate) fn put_tag(out: &mut [u8], at: usize, tag: u8) -> usize
    ensures { Put out.old out.new at (tag_name tag ++ space ∷ []) result × (result ≤ 6) }
{
    put_word(out, at, name_of(tag), b' ')
}
