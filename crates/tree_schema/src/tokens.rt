//! The tokens of a text, one after another. No text is too long, and none takes memory.

ghost use Rattle.std.specs.Prelude.{◌≡◌, ◌≢◌, ℕ, ◌+◌, ◌<◌, ◌≤◌, List, ◌∷◌, [], true, false, length, take, take_while, bytes_eq, IfSome, IfNone, MatchOption};
ghost use Rattle.std.specs.List.{list_any};
ghost use Rattle.ghost_model.specs.refusals.Tokens as tokens;
ghost use Rattle.tree_schema.specs.Marks.{symbol_of, token_of, Begins};
ghost use Rattle.tree_schema.specs.declared.tokens.Mark.TheVariants.{End};

use std::marker::Model;

/// The sort of a token. INT is another spelling of INTEGER, and `Reserved` are the reserved words that the grammars do not
/// use yet.
#[derive(Clone, Copy, PartialEq, Eq)]
pub enum Mark {
    And,
    Between,
    Char,
    Create,
    From,
    Hidden,
    In,
    Integer,
    Is,
    Key,
    Not,
    Null,
    Or,
    Primary,
    References,
    Select,
    Table,
    Where,
    Reserved,
    Name,
    Digits,
    Quoted,
    Open,
    Closing,
    Comma,
    Point,
    Semicolon,
    Star,
    Plus,
    Minus,
    Equal,
    Unequal,
    Less,
    AtMost,
    More,
    AtLeast,
    Bad,
    End,
}

/// A token: its sort, the offset of its first byte, and its bytes as they stand in the text.
#[derive(Clone, Copy)]
pub struct Token<'a> {
    pub mark: Mark,
    pub at: usize,
    pub bytes: &'a [u8],
}

/// The tokens of a text that were not given yet; the last is the text's end.
#[derive(Drop)]
pub struct Cursor<'a> {
    rest: &'a [u8],
    at: usize,
    ended: bool,
}

impl<'a> Model for Cursor<'a> {
    ghost use Rattle.std.specs.Prelude.{List, ◌+◌, ◌<◌, ◌^◌, length};
    ghost use Rattle.ghost_model.specs.refusals.Tokens as tokens;

    ghost Value = { List tokens.Token };

    ghost use Rattle.tree_schema.specs.Marks.{left_from};

    ghost view = { λ cursor. left_from cursor.ended cursor.at cursor.rest.now };

    ghost invariant = { λ cursor. cursor.at + length cursor.rest.now < 2 ^ 64 };
}

/// Whether a byte is white space.
fn is_space(byte: u8) -> bool
    ensures { result ≡ tokens.is_space byte }
{
    byte == b' ' || byte == b'\t' || byte == b'\n' || byte == b'\r'
}

/// Whether a byte is a letter or `_`.
fn begins_name(byte: u8) -> bool
    ensures { result ≡ tokens.begins_name byte }
{
    (b'a' <= byte && byte <= b'z') || (b'A' <= byte && byte <= b'Z') || byte == b'_'
}

/// Whether a byte is a digit.
fn is_digit(byte: u8) -> bool
    ensures { result ≡ tokens.is_digit byte }
{
    b'0' <= byte && byte <= b'9'
}

/// Whether a byte may stand in a name.
fn is_name_byte(byte: u8) -> bool
    ensures { result ≡ tokens.is_name_byte byte }
{
    begins_name(byte) || is_digit(byte)
}

/// The length of the white space at the front.
fn space_len(text: &[u8]) -> usize
    ensures { result ≡ length (take_while tokens.is_space text.now) }
{
    text.iter().take_while(|byte| is_space(**byte)).count()
}

/// The length of the name at the front.
fn name_len(text: &[u8]) -> usize
    ensures { result ≡ length (take_while tokens.is_name_byte text.now) }
{
    text.iter().take_while(|byte| is_name_byte(**byte)).count()
}

/// The length of the number at the front.
fn digits_len(text: &[u8]) -> usize
    ensures { result ≡ length (take_while tokens.is_digit text.now) }
{
    text.iter().take_while(|byte| is_digit(**byte)).count()
}

/// Whether bytes are a word, without case.
pub(crate) fn is_word(bytes: &[u8], word: &[u8]) -> bool
    ensures { result ≡ bytes_eq (tokens.in_lower_case bytes.now) (tokens.in_lower_case word.now) }
{
    bytes.eq_ignore_ascii_case(word)
}

/// Whether a word is reserved though the grammars do not use it yet.
fn is_reserved(word: &[u8]) -> bool
    ensures { result ≡ list_any (bytes_eq (tokens.in_lower_case word.now)) tokens.other_reserved }
{
    is_word(word, b"by")
        || is_word(word, b"count")
        || is_word(word, b"group")
        || is_word(word, b"max")
        || is_word(word, b"min")
        || is_word(word, b"sum")
}

/// What a word is.
fn mark_of_word(word: &[u8]) -> Mark
    ensures symbol { symbol_of result word.now ≡ tokens.symbol_of_word (tokens.in_lower_case word.now) }
    ensures some { result ≢ End }
{
    if is_word(word, b"int") {
        Mark::Integer
    } else if is_word(word, b"and") {
        Mark::And
    } else if is_word(word, b"between") {
        Mark::Between
    } else if is_word(word, b"char") {
        Mark::Char
    } else if is_word(word, b"create") {
        Mark::Create
    } else if is_word(word, b"from") {
        Mark::From
    } else if is_word(word, b"hidden") {
        Mark::Hidden
    } else if is_word(word, b"in") {
        Mark::In
    } else if is_word(word, b"integer") {
        Mark::Integer
    } else if is_word(word, b"is") {
        Mark::Is
    } else if is_word(word, b"key") {
        Mark::Key
    } else if is_word(word, b"not") {
        Mark::Not
    } else if is_word(word, b"null") {
        Mark::Null
    } else if is_word(word, b"or") {
        Mark::Or
    } else if is_word(word, b"primary") {
        Mark::Primary
    } else if is_word(word, b"references") {
        Mark::References
    } else if is_word(word, b"select") {
        Mark::Select
    } else if is_word(word, b"table") {
        Mark::Table
    } else if is_word(word, b"where") {
        Mark::Where
    } else if is_reserved(word) {
        Mark::Reserved
    } else {
        Mark::Name
    }
}

/// The sign that a byte is.
fn sign(byte: u8) -> Mark
    ensures symbol { (bytes : List ℕ) → symbol_of result bytes ≡ tokens.sign_of byte }
    ensures some { result ≢ End }
{
    match byte {
        b'(' => Mark::Open,
        b')' => Mark::Closing,
        b',' => Mark::Comma,
        b'.' => Mark::Point,
        b';' => Mark::Semicolon,
        b'*' => Mark::Star,
        b'+' => Mark::Plus,
        b'-' => Mark::Minus,
        b'=' => Mark::Equal,
        _ => Mark::Bad,
    }
}

/// The length of a text literal whose `'` stands before these bytes, and `None` where it is broken.
#[tactic(auto, unfolding(ghost_model::specs::refusals::Tokens::quoted_from))]
fn literal_len(rest: &[u8]) -> Option<usize>
    ensures within { IfSome result (λ len. len ≤ length rest.now + 1) }
    ensures read { MatchOption result (tokens.quoted_from false [] 1 rest.now ≡ tokens.read tokens.NoToken 1) (λ len. (value : List ℕ) × (tokens.quoted_from false [] 1 rest.now ≡ tokens.read (tokens.Quoted value) len)) }
{
    let mut ended = false;
    for (i, byte) in rest.iter().enumerate() {
        if ended && *byte != b'\'' {
            return Some(i + 1);
        }
        if *byte == b'\'' {
            ended = !ended;
        } else if *byte < b' ' || *byte > b'~' {
            return None;
        }
    }
    if ended { Some(rest.len() + 1) } else { None }
}

/// The sort and the length of the token at the front of a text that does not begin with white space.
fn first_token(text: &[u8]) -> (Mark, usize)
    ensures begins { Begins text.now result.0 result.1 }
    ensures within { result.1 ≤ length text.now }
    ensures some { 0 < length text.now → 0 < result.1 }
    ensures end { result.0 ≡ End → length text.now ≡ 0 }
{
    let Some((first, after)) = text.split_first() else {
        return (Mark::End, 0);
    };
    let first = *first;
    if begins_name(first) {
        let len = name_len(text);
        (mark_of_word(&text[..len]), len)
    } else if is_digit(first) {
        (Mark::Digits, digits_len(text))
    } else if first == b'\'' {
        match literal_len(after) {
            Some(len) => (Mark::Quoted, len),
            None => (Mark::Bad, 1),
        }
    } else if first == b'<' {
        match after.first() {
            Some(b'=') => (Mark::AtMost, 2),
            Some(b'>') => (Mark::Unequal, 2),
            _ => (Mark::Less, 1),
        }
    } else if first == b'>' {
        match after.first() {
            Some(b'=') => (Mark::AtLeast, 2),
            _ => (Mark::More, 1),
        }
    } else {
        (sign(first), 1)
    }
}

impl<'a> Cursor<'a> {
    /// All tokens of a text.
    pub fn of(text: &'a [u8]) -> Self
        ensures { result ≡ tokens.tokens text.now }
    {
        Cursor {
            rest: text,
            at: 0,
            ended: false,
        }
    }

    /// The next token, and `None` where the end was given.
    pub fn next(&mut self) -> Option<Token<'a>>
        ensures taken { IfSome result (λ token. self.old ≡ token_of token ∷ self.new) }
        ensures last { IfSome result (λ token. token.mark ≡ End → self.new ≡ []) }
        ensures ended { IfNone result ((self.old ≡ []) × (self.new ≡ [])) }
    {
        if self.ended {
            return None;
        }
        let spaces = space_len(self.rest);
        let (_, text) = self.rest.split_at(spaces);
        let at = self.at + spaces;
        let (mark, len) = first_token(text);
        let (bytes, rest) = text.split_at(len);
        self.rest = rest;
        self.at = at + len;
        self.ended = text.is_empty();
        Some(Token { mark, at, bytes })
    }
}
