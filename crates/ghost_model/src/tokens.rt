//! Laws and examples of the tokens of a text, and of the texts of a script.

ghost use Rattle.ghost_model.specs.laws.Spelled.{TokensAreSpelled};
ghost use Rattle.ghost_model.specs.laws.TextLaws.{ScriptsAreCut};
ghost use Rattle.ghost_model.specs.examples.Tokens.{TokensOfTexts, OffsetsOfTokens, TextsOfSymbols, TextsOfScripts};

/// Bytes can spell every list of symbols whose names, digits and characters are such, and the tokens of every text are
/// such a list and the text's end.
pub fn tokens_are_spelled()
    ensures { TokensAreSpelled }
{}

/// A script is cut at each `;` with an even number of `'` before it, and nowhere else.
pub fn scripts_are_cut()
    ensures { ScriptsAreCut }
{}

/// The tokens of some telling texts.
pub fn tokens_of_texts()
    ensures { TokensOfTexts }
{}

/// The places at which tokens stand.
pub fn offsets_of_tokens()
    ensures { OffsetsOfTokens }
{}

/// A text for some lists of symbols.
pub fn texts_of_symbols()
    ensures { TextsOfSymbols }
{}

/// The texts of some telling scripts, and the limits of a script.
pub fn texts_of_scripts()
    ensures { TextsOfScripts }
{}
