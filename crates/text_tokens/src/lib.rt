// Tokens of a line of `yard`'s text: brackets, and words between spaces; and what one token says.
#![tactic(auto)]

ghost use Rattle.std.specs.Prelude.{◌≡◌, ◌+◌, ◌≤◌, ◌<◌, length, get_or, true, ◌∷◌};
ghost use Rattle.text_tokens.specs.Tokens.{left, part, word_byte, word, word_in, open_in, close_in, is_over, number_in, count_in, count_or};
ghost use Rattle.text_tokens.specs.Seen.{seen, TokenWithin, span_as, WordWithin, found_as, step_as, counted_as};

// A token, with the place after it; a word with the place where it begins too.
#[derive(Clone, Copy)]
pub enum Tok {
    Opens(usize),
    Closes(usize),
    Word(usize, usize),
}

// Whether a byte is a word's: no space and no bracket.
fn in_word(b: u8) -> bool
    ensures { result ≡ word_byte b }
{
    if b == 32 {
        return false;
    }
    if b == 40 {
        return false;
    }
    if b == 41 {
        return false;
    }
    true
}

// The first place from `at` on that is no space.
fn skip(text: &[u8], at: usize) -> usize
    ensures { (left text.now at ≡ left text.now result) × (result < length text.now → get_or text.now result 0 ≡ 32 → ⊥) }
{
    for i in at..text.len() {
        if text[i] != 32 {
            return i;
        }
    }
    text.len()
}

// The end of the word that starts at `at`.
fn word_end(text: &[u8], at: usize) -> usize
    requires { (at < length text.now) × (word_byte (get_or text.now at 0) ≡ true) }
    ensures { (at ≤ result) × (result ≤ length text.now) × (left text.now at ≡ word (part at result text.now) ∷ left text.now result) }
{
    for i in at + 1..text.len() {
        if !in_word(text[i]) {
            return i;
        }
    }
    text.len()
}

// The token at or after `at`.
pub fn token(text: &[u8], at: usize) -> Option<Tok>
    ensures { (seen text.now result ≡ left text.now at) × TokenWithin (length text.now) result }
{
    let i = skip(text, at);
    if i >= text.len() {
        return None;
    }
    let b = text[i];
    if b == 40 {
        return Some(Tok::Opens(i + 1));
    }
    if b == 41 {
        return Some(Tok::Closes(i + 1));
    }
    let e = word_end(text, i);
    Some(Tok::Word(i, e))
}

// A word: where it begins and ends.
pub fn word_at(text: &[u8], at: usize) -> Option<(usize, usize)>
    ensures { (span_as text.now result ≡ word_in (left text.now at)) × WordWithin (length text.now) result }
{
    match token(text, at)? {
        Tok::Word(a, e) => Some((a, e)),
        Tok::Opens(_) => None,
        Tok::Closes(_) => None,
    }
}

// An opening bracket: the place after it.
pub fn open_at(text: &[u8], at: usize) -> Option<usize>
    ensures { step_as text.now result ≡ open_in (left text.now at) }
{
    match token(text, at)? {
        Tok::Opens(n) => Some(n),
        Tok::Closes(_) => None,
        Tok::Word(_, _) => None,
    }
}

// A closing bracket: the place after it.
pub fn close_at(text: &[u8], at: usize) -> Option<usize>
    ensures { step_as text.now result ≡ close_in (left text.now at) }
{
    match token(text, at)? {
        Tok::Closes(n) => Some(n),
        Tok::Opens(_) => None,
        Tok::Word(_, _) => None,
    }
}

// Whether no token is left.
pub fn is_over(text: &[u8], at: usize) -> bool
    ensures { result ≡ is_over (left text.now at) }
{
    token(text, at).is_none()
}

// A number, and the place after it.
pub fn number_at(text: &[u8], at: usize) -> Option<(f64, usize)>
    ensures { found_as text.now result ≡ number_in (left text.now at) }
{
    let (a, e) = word_at(text, at)?;
    let v = text_numbers::number(&text[a..e])?;
    Some((v, e))
}

// A decimal without sign, and the place after it.
pub fn count_at(text: &[u8], at: usize) -> Option<(u32, usize)>
    ensures { counted_as text.now result ≡ count_in (left text.now at) }
{
    let (a, e) = word_at(text, at)?;
    let v = text_numbers::decimal(&text[a..e])?;
    Some((v, e))
}

// The same where a word stands; where none does, n, and the place as it is.
pub fn count_or(text: &[u8], at: usize, n: u32) -> Option<(u32, usize)>
    ensures { counted_as text.now result ≡ count_or n (left text.now at) }
{
    match token(text, at) {
        Some(Tok::Word(_, _)) => count_at(text, at),
        Some(Tok::Opens(_)) => Some((n, at)),
        Some(Tok::Closes(_)) => Some((n, at)),
        None => Some((n, at)),
    }
}
