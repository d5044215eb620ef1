//! What was told of texts.

ghost use Rattle.std.specs.Prelude.{◌≡◌, ◌<◌, ◌++◌, ◌∷◌, [], length};
ghost use Rattle.key_lines.specs.Told.{told_in};

use spj_parse::Refusal;

/// The most texts that are kept: as many as a script may have.
pub const MOST_TOLD: usize = 64;

/// What was told of a text.
#[derive(Clone, Copy, Drop)]
pub struct ToldText {
    /// The rule by which it was refused; none of a text that was accepted.
    pub refusal: Option<Refusal>,

    /// How many rows were given of its answer.
    pub rows: u64,
}

/// What was told of the texts of a script, from the first one on. There is room for 64, and no memory is taken.
#[derive(Clone, Copy, Drop)]
pub struct ToldTexts {
    /// The texts, and behind them places that tell nothing.
    pub places: [ToldText; MOST_TOLD],

    /// How many texts were told.
    pub count: usize,
}

impl ToldTexts {
    /// No text was told.
    pub fn none() -> ToldTexts
        ensures none { told_in result ≡ [] }
    {
        let nothing = ToldText {
            refusal: None,
            rows: 0,
        };
        ToldTexts {
            places: [nothing; MOST_TOLD],
            count: 0,
        }
    }

    /// What was told, text by text.
    pub fn as_slice(&self) -> &[ToldText]
        ensures texts { result.now ≡ told_in self.now }
    {
        self.places.get(..self.count).unwrap_or(&self.places)
    }

    /// Adds the text that was told next.
    pub fn push(&mut self, text: ToldText)
        requires room { length (told_in self.old) < 64 }
        ensures texts { told_in self.new ≡ told_in self.old ++ text ∷ [] }
    {
        let place = self.count;
        self.places[place] = text;
        self.count = place + 1;
    }
}
