// The scanner: the tokens of a source, one at a time, by their places. It follows "Text, table, image" of document 01: separators and
// comments stand between tokens, and a colon ends one.
#![tactic(auto)]

ghost use Rattle.std.specs.Prelude.{◌≡◌, false, ◌≤◌, ◌<◌, length, drop};
ghost use Rattle.rules.specs.Bytes.{blank};
ghost use Rattle.rules.specs.Tokens.{opens, stops};
ghost use Rattle.tokens.specs.Next.{Skipped, Ended, Closed, NextIs};

// A token in a source: the place of its first byte, and the place just after its last.
#[derive(Clone, Copy)]
pub struct Token {
    pub start: usize,
    pub end: usize,
}

// A separator: space, tab, CR or LF.
#[tactic(auto, unfolding(rules::specs::Bytes::blank))]
fn is_blank(b: u8) -> bool
    ensures { result ≡ blank b }
{
    // Stays: with `matches!` a byte takes two machine instructions more (bar: assembling must not cost more than before).
    b == b' ' || b == b'\t' || b == b'\r' || b == b'\n'
}

// Whether `//` stands at the place i.
#[tactic(auto, unfolding(rules::specs::Tokens::opens))]
fn opens_at(src: &[u8], i: usize) -> bool
    requires { i < length src.now }
    ensures { result ≡ opens (drop i src.now) }
{
    src[i] == b'/' && src.len() - i >= 2 && src[i + 1] == b'/'
}

// Whether no byte of a token stands at the place i.
#[tactic(auto, unfolding(rules::specs::Tokens::stops))]
fn stops_at(src: &[u8], i: usize) -> bool
    requires { i ≤ length src.now }
    ensures { result ≡ stops (drop i src.now) }
{
    i == src.len() || is_blank(src[i]) || opens_at(src, i)
}

// Where the comment that is open at `at` ends: past its LF, or the length.
#[tactic(auto, using(crate::proofs::Scan::inside_end, crate::proofs::Scan::inside_lf, crate::proofs::Scan::inside_more, crate::proofs::Scan::from_end))]
fn comment_end(src: &[u8], at: usize) -> usize
    requires { at ≤ length src.now }
    ensures { Closed src.now at result }
{
    // Stays: a loop, since with `position` two goals stay open that the loop does not have (tried).
    for i in at..src.len() {
        if src[i] == b'\n' {
            return i + 1;
        }
    }
    src.len()
}

// Where the next token starts, or the length.
#[tactic(auto, using(crate::proofs::Scan::stops_other, crate::proofs::Scan::from_blank, crate::proofs::Scan::from_comment))]
fn skip(src: &[u8], at: usize) -> usize
    requires { at ≤ length src.now }
    ensures { Skipped src.now at result }
{
    let mut i = at;
    // Stays: a comment is jumped over, which a `for` can't do.
    while i < src.len() {
        if is_blank(src[i]) {
            i += 1;
        } else if opens_at(src, i) {
            i = comment_end(src, i + 1);
        } else {
            return i;
        }
    }
    i
}

// Where the token that starts at `at` ends: past a colon, or where no byte of a token stands.
fn token_end(src: &[u8], at: usize) -> usize
    requires { (at < length src.now) × (stops (drop at src.now) ≡ false) }
    ensures { Ended src.now at result }
{
    // Stays: by place, since each turn reads the byte before the place too.
    for i in at + 1..src.len() {
        if src[i - 1] == b':' || stops_at(src, i) {
            return i;
        }
    }
    src.len()
}

// The first token of the source from the place `at` on.
#[tactic(auto, using(crate::proofs::Scan::from_end))]
pub fn next_token(src: &[u8], at: usize) -> Option<Token>
    ensures { NextIs src.now at result }
{
    if at >= src.len() {
        return None;
    }
    let start = skip(src, at);
    if start == src.len() {
        return None;
    }
    let end = token_end(src, start);
    Some(Token { start, end })
}
