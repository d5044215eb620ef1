//! The first words of directives.

/// What a line is to do.
#[derive(Clone, Copy, Drop)]
pub enum Directive {
    Heading,
    Case,
    File,
    Bytes,
    Repeat,
    Rows,
    Blocks,
    Room,
    Open,
    Page,
    Slot,
    Pages,
    PagesTo,
    Fail,
    Say,
    SayFile,
    Cut,
    Drip,
    Port,
    Also,
    Again,
    Do,
    DoQuiet,
    DoBrief,
    Calls,
    Show,
    Size,
    Same,
    Beside,
    Moves,
    MovesCount,
    MovesTo,
    LinesTo,
    TakenTo,
    Order,
}

const DIRECTIVES: [(&str, Directive); 35] = [
    ("#", Directive::Heading),
    ("case", Directive::Case),
    ("file", Directive::File),
    ("bytes", Directive::Bytes),
    ("repeat", Directive::Repeat),
    ("rows", Directive::Rows),
    ("blocks", Directive::Blocks),
    ("room", Directive::Room),
    ("open", Directive::Open),
    ("page", Directive::Page),
    ("slot", Directive::Slot),
    ("pages", Directive::Pages),
    ("pages-to", Directive::PagesTo),
    ("fail", Directive::Fail),
    ("say", Directive::Say),
    ("say-file", Directive::SayFile),
    ("cut", Directive::Cut),
    ("drip", Directive::Drip),
    ("port", Directive::Port),
    ("also", Directive::Also),
    ("again", Directive::Again),
    ("do", Directive::Do),
    ("do-quiet", Directive::DoQuiet),
    ("do-brief", Directive::DoBrief),
    ("calls", Directive::Calls),
    ("show", Directive::Show),
    ("size", Directive::Size),
    ("same", Directive::Same),
    ("beside", Directive::Beside),
    ("moves", Directive::Moves),
    ("moves-count", Directive::MovesCount),
    ("moves-to", Directive::MovesTo),
    ("lines-to", Directive::LinesTo),
    ("taken-to", Directive::TakenTo),
    ("order", Directive::Order),
];

/// The directive of a first word.
pub fn directive_of(word: &str) -> Option<Directive> {
    for (name, directive) in DIRECTIVES {
        if name == word {
            return Some(directive);
        }
    }
    None
}

/// The first word of a text, and what stands behind the space that ends it.
pub fn first_of(text: &str) -> (&str, &str) {
    match text.split_once(' ') {
        Some((word, rest)) => (word, rest),
        None => (text, ""),
    }
}
