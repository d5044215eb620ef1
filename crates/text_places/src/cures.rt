//! What to write in place of what a query text cannot go on with, by the word that stands there.

use std::fmt::{Display, Error as FormatError, Formatter, Write};
use tree_schema::{Cursor, Mark, Token};

/// What a text is to be.
const FORM: &str =
    "write SELECT columns FROM tables, and if need be WHERE and conditions with AND between them";

const NO_COMMENTS: &str = "there are no comments: leave it out";

const NO_QUOTES: &str = "a name stands without quotes, and a text between ' and '";

const NO_BRACKETS: &str =
    "parentheses stand in WHERE alone: behind IN round values, or round tests with OR between them";

const ONE_TEST: &str =
    "between parentheses stand two tests or more, with OR between them: leave the parentheses out";

const A_VALUE: &str = "write a number, as 5, or a text, as 'flu'";

const STAR_ALONE: &str = "* stands alone: write SELECT * FROM, or the columns by their names";

const NO_ARITHMETIC: &str =
    "there is no arithmetic: write a whole number, or a text between ' and '";

const NULL_TESTS: &str = "write IS NULL or IS NOT NULL";

/// Words that other languages of queries have, and behind `|` what stands for them here.
const OTHER_WORDS: &str =
    "join inner left right full outer cross natural on using|there is no JOIN .. ON: write FROM a, b WHERE a.f = b.id, f being the foreign key
order limit offset fetch top|it is not in this language: the rows come in the order of the ids of the top table, so sort or cut the printed lines
distinct unique|it is not in this language: take double ones out of the printed lines
having union intersect except exists case|it is not in this language
like ilike glob similar regexp|it is not in this language: for a beginning write c >= 'Mue' AND c < 'Muf'
as|there are no second names: leave it out
or|it stands between parentheses: write (day = 1 OR day = 2)
in|it stands behind a column: write day IN (1, 2)
isnull notnull|write IS NULL or IS NOT NULL
not|it stands behind IS alone: write <>, or the opposite comparison
count min max sum group by|it is not built yet: count or sum up the printed lines";

/// What a text cannot go on with, and what stands round it.
#[derive(Clone, Copy)]
pub struct Stop<'a> {
    /// The token before it, where there is one.
    before: Option<Token<'a>>,

    /// The token, with which the text cannot go on.
    pub token: Token<'a>,

    /// The token behind it.
    next: Token<'a>,

    /// The list that it stands in, which begins with this word.
    list: Mark,

    /// How many parentheses are open before it.
    open: usize,

    /// Whether the innermost of these stands behind IN.
    in_values: bool,

    /// The text from the token on.
    behind: &'a [u8],
}

impl<'a> Stop<'a> {
    /// What stands in a text at an offset.
    pub fn of(text: &'a [u8], at: usize) -> Stop<'a> {
        let mut cursor = Cursor::of(text);
        let end = Token {
            mark: Mark::End,
            at: text.len(),
            bytes: &[],
        };
        let mut stop = Stop {
            before: None,
            token: cursor.next().unwrap_or(end),
            next: cursor.next().unwrap_or(end),
            list: Mark::Bad,
            open: 0,
            in_values: false,
            behind: text.get(at..).unwrap_or(&[]),
        };
        for _ in 0..text.len() {
            if stop.token.at >= at {
                break;
            }
            stop.go_on(cursor.next().unwrap_or(end));
        }
        stop
    }

    /// Goes on by a token, `next` being the one behind it.
    fn go_on(&mut self, next: Token<'a>) {
        if let Mark::Select | Mark::From | Mark::Where = self.token.mark {
            self.list = self.token.mark;
        }
        match self.token.mark {
            Mark::Open => {
                self.open = self.open.saturating_add(1);
                self.in_values = self.mark_before() == Mark::In;
            }
            Mark::Closing => {
                self.open = self.open.saturating_sub(1);
                self.in_values = false;
            }
            _ => {}
        }
        self.before = Some(self.token);
        self.token = self.next;
        self.next = next;
    }

    /// The sort of the token before it.
    pub fn mark_before(&self) -> Mark {
        match self.before {
            Some(token) => token.mark,
            None => Mark::End,
        }
    }

    /// Whether a name is to stand here.
    fn wants_name(&self) -> bool {
        match self.mark_before() {
            Mark::Comma | Mark::Open => !self.in_values,
            Mark::Select | Mark::From | Mark::Where | Mark::And | Mark::Or | Mark::Point => true,
            _ => false,
        }
    }

    /// Whether the token before it is this word.
    fn is_behind(&self, word: &[u8]) -> bool {
        match self.before {
            Some(token) => token.bytes.eq_ignore_ascii_case(word),
            None => false,
        }
    }

    /// What to write, where the token tells it.
    fn cure(&self) -> &'static str {
        if self.before.is_none() {
            return "a text begins with SELECT, and changes no data";
        }
        match self.mark_before() {
            Mark::Is => return "write NULL or NOT NULL behind IS; a value is compared by =",
            Mark::Not => return "write NULL behind IS NOT; a value is compared by <>",
            Mark::In => return "write values between parentheses behind IN, as IN (1, 2)",
            _ => {}
        }
        if self.in_values {
            return self.cure_in_values();
        }
        if self.open > 0
            && let Some(cure) = self.cure_in_group()
        {
            return cure;
        }
        match self.token.mark {
            Mark::Name => self.cure_of_name(),
            Mark::Select if !self.wants_name() => "put ; between two texts",
            Mark::Point | Mark::Star | Mark::Plus | Mark::Minus => self.cure_of_sign(),
            Mark::Equal | Mark::More => self.cure_of_operator(),
            Mark::Open | Mark::Closing => self.cure_of_bracket(),
            Mark::Comma if self.mark_before() == Mark::Star => STAR_ALONE,
            Mark::Digits | Mark::Quoted => self.cure_of_literal(),
            Mark::Bad => cure_of_byte(self.token.bytes),
            Mark::From | Mark::Where | Mark::And | Mark::Between | Mark::End => FORM,
            Mark::Comma | Mark::Semicolon | Mark::Unequal | Mark::Less => FORM,
            Mark::AtMost | Mark::AtLeast => FORM,
            _ => self.cure_of_reserved(),
        }
    }

    /// What to write between the parentheses of IN.
    fn cure_in_values(&self) -> &'static str {
        match (self.token.mark, self.mark_before()) {
            (Mark::Null, _) => "NULL is no value: write (c IN (1, 2) OR c IS NULL)",
            (Mark::Select, _) => self.cure_of_bracket(),
            (_, Mark::Open | Mark::Comma | Mark::Plus | Mark::Minus) => A_VALUE,
            (Mark::Point, Mark::Digits) => self.cure_of_sign(),
            (Mark::Digits | Mark::Quoted | Mark::Plus | Mark::Minus, _) =>
                "put a comma between two values",
            _ => "put a comma behind the value, or ) behind the last one",
        }
    }

    /// What to write between the parentheses of a group of tests, where the token tells it.
    fn cure_in_group(&self) -> Option<&'static str> {
        match (self.token.mark, self.mark_before()) {
            (Mark::And, _) => Some(
                "between parentheses tests have OR between them: write AND outside of the parentheses",
            ),
            (Mark::Between, _) => Some(
                "it stands outside of parentheses: write BETWEEN in a condition of its own",
            ),
            (Mark::Name, Mark::Equal) => Some(
                "two columns are compared outside of parentheses: write the join as a condition of its own",
            ),
            (Mark::Closing, Mark::Open | Mark::Or) => Some("write a test here, as day = 5"),
            (Mark::Closing, _) => Some(ONE_TEST),
            (Mark::Open, Mark::Open | Mark::Or) => Some(
                "parentheses stand in no others, but for those of IN: leave them out",
            ),
            (Mark::End, _) => Some("write OR and a test, and ) behind the last one"),
            _ => None,
        }
    }

    /// What to write in place of a word that is no name here.
    fn cure_of_reserved(&self) -> &'static str {
        let in_where = self.list == Mark::Where;
        match self.token.mark {
            Mark::Not if in_where && self.wants_name() => {}
            _ if self.wants_name() && self.next.mark != Mark::Open => {
                return "the word is reserved, and no table or column has it as its name";
            }
            Mark::Is => return "it stands in WHERE behind a column: write column IS NULL",
            Mark::Not if in_where && self.next.mark == Mark::Null => return "write IS NOT NULL",
            Mark::Not if in_where && self.next.mark == Mark::In => {
                return "there is no NOT IN: write <> for each value, with AND between them";
            }
            Mark::Null if in_where => return self.cure_of_null(),
            _ => {}
        }
        word_cure(OTHER_WORDS, self.token.bytes).unwrap_or(FORM)
    }

    /// What to write in place of NULL within a condition.
    fn cure_of_null(&self) -> &'static str {
        match self.mark_before() {
            Mark::Equal | Mark::Name => "write IS NULL",
            Mark::Unequal => "write IS NOT NULL",
            Mark::Null => FORM,
            _ => NULL_TESTS,
        }
    }

    /// What to write in place of a word that could be a name elsewhere.
    fn cure_of_name(&self) -> &'static str {
        if self.is_behind(b"distinct") {
            return "there is no DISTINCT: take double ones out of the printed lines";
        }
        if let Some(cure) = word_cure(OTHER_WORDS, self.token.bytes) {
            return cure;
        }
        match (self.mark_before(), self.list) {
            (Mark::Name, Mark::Select) => {
                "put a comma between two columns, or FROM before a table; there are no second names"
            }
            (Mark::Name, Mark::From) =>
                "put a comma between two tables; there are no second names, and no JOIN .. ON",
            (Mark::Unequal | Mark::Less | Mark::AtMost | Mark::More | Mark::AtLeast, _) => {
                "two columns are compared by = alone, a foreign key with the id that it names; a text stands between ' and '"
            }
            (Mark::Between | Mark::And, _) => A_VALUE,
            _ => FORM,
        }
    }

    /// What to write in place of a point, a star, a plus or a minus.
    fn cure_of_sign(&self) -> &'static str {
        let mark = self.token.mark;
        let before = self.mark_before();
        if mark == Mark::Minus && (self.next.mark == Mark::Minus || before == Mark::Minus) {
            return NO_COMMENTS;
        }
        match (mark, before) {
            (Mark::Point, Mark::Digits) => {
                "there are whole numbers alone: keep tenths, as 142 for 14.2"
            }
            (Mark::Star, Mark::Point | Mark::Comma | Mark::Select) => STAR_ALONE,
            (Mark::Point, _) => "write a column as table.column",
            _ => NO_ARITHMETIC,
        }
    }

    /// What to write in place of `=` or `>`.
    fn cure_of_operator(&self) -> &'static str {
        match (self.token.mark, self.mark_before()) {
            (Mark::Equal, Mark::Equal) => "write one =",
            (Mark::Equal, Mark::Less) => "write <= without a blank in it",
            (Mark::Equal, Mark::More) => "write >= without a blank in it",
            (Mark::More, Mark::Less) => "write <> without a blank in it",
            _ => FORM,
        }
    }

    /// What to write in place of a bracket.
    fn cure_of_bracket(&self) -> &'static str {
        if self.next.mark == Mark::Select {
            return "there is no SELECT within a text: write all tables in FROM, and join them in WHERE";
        }
        match self.mark_before() {
            Mark::Name => "there are no functions: write the column alone",
            _ => NO_BRACKETS,
        }
    }

    /// What to write in place of a number or a text.
    fn cure_of_literal(&self) -> &'static str {
        match (self.list, self.token.mark) {
            (Mark::Where, _) if self.wants_name() => "write the column first, as day = 5",
            (Mark::Where, _) => FORM,
            (_, Mark::Quoted) => NO_QUOTES,
            _ => FORM,
        }
    }
}

/// What stands for a word, by a list that has on each line words with blanks between them, and behind `|` the cure.
pub fn word_cure(list: &'static str, word: &[u8]) -> Option<&'static str> {
    for line in list.split('\n') {
        if let Some((words, cure)) = line.split_once('|')
            && has_word(words, word)
        {
            return Some(cure);
        }
    }
    None
}

/// Whether a word is one of these, which have blanks between them.
fn has_word(words: &str, word: &[u8]) -> bool {
    for other in words.split(' ') {
        if word.eq_ignore_ascii_case(other.as_bytes()) {
            return true;
        }
    }
    false
}

/// What to write in place of a byte that begins no token.
fn cure_of_byte(bytes: &[u8]) -> &'static str {
    match bytes.first() {
        Some(b'!') => "write <> for unequal",
        Some(b'"' | b'`' | b'[' | b']') => NO_QUOTES,
        Some(b'/' | b'#') => NO_COMMENTS,
        Some(0x80..=0xFF) => {
            "an accented letter stands in no name and in no text: names have a to z, digits and _"
        }
        Some(0..=0x1F) => "it is no white space: leave it out",
        _ => FORM,
    }
}

/// What is wrong with a text in quotes, whose first one stands before these bytes: it is never closed, or has a byte that
/// it may not have.
fn quoted_fault(inside: &[u8]) -> Option<u8> {
    for byte in inside {
        match byte {
            b'\'' => return None,
            b' '..=b'~' => {}
            _ => return Some(*byte),
        }
    }
    None
}

/// What to write.
impl<'a> Display for Stop<'a> {
    fn fmt<W: Write>(&self, f: &mut Formatter<W>) -> Result<(), FormatError> {
        match self.behind.split_first() {
            Some((b'\'', inside)) if self.token.mark == Mark::Bad => match quoted_fault(inside) {
                Some(byte @ (b'\n' | b'\r')) => write!(
                    f,
                    "the text that begins here has no closing ' in its line (byte {byte:02X} stands before it)"
                ),
                Some(byte) => write!(
                    f,
                    "the text that begins here has byte {byte:02X}: write bytes from 20 to 7E, no accented letter"
                ),
                None => f.write_str("the text that begins here has no closing '"),
            },
            _ => f.write_str(self.cure()),
        }
    }
}
