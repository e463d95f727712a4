// The bytes of a token: which are allowed, and which make a word or a label.
ghost use Rattle.std.specs.Prelude.{◌≡◌, not, position, MatchOption, true, false};
ghost use Rattle.rules.specs.Bytes.{word_byte, allowed, is_word};
ghost use Rattle.rules.specs.Assemble.{allowed_run, body, is_label};

// A letter, a digit or `_`.
#[tactic(auto, unfolding(rules::specs::Bytes::word_byte, rules::specs::Bytes::letter))]
fn is_word_byte(b: u8) -> bool
    ensures { result ≡ word_byte b }
{
    b.is_ascii_alphanumeric() || b == b'_'
}

// A byte that a token may have.
#[tactic(auto, unfolding(rules::specs::Bytes::allowed))]
fn is_allowed(b: u8) -> bool
    ensures { result ≡ allowed b }
{
    is_word_byte(b) || matches!(b, b'-' | b'#' | b':' | b'.')
}

// The place of the first byte that is not allowed, if any.
pub(crate) fn first_forbidden(t: &[u8]) -> Option<usize>
    ensures { result ≡ position (λ b. not (allowed b)) t.now }
{
    t.iter().position(|b| !is_allowed(*b))
}

// A letter, then letters, digits or `_`.
pub(crate) fn is_word(t: &[u8]) -> bool
    ensures { result ≡ is_word t.now }
{
    match t {
        [first, rest @ ..] => first.is_ascii_alphabetic() && rest.iter().all(|b| is_word_byte(*b)),
        [] => false,
    }
}

// The name of a label: a word with a colon against it.
pub(crate) fn label_name(t: &[u8]) -> Option<&[u8]>
    ensures { MatchOption result (is_label t.now ≡ false) (λ name. (is_label t.now ≡ true) × (name.now ≡ body t.now)) }
{
    t.strip_suffix(b":").filter(|name| is_word(name))
}
