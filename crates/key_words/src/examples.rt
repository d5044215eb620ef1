//! Examples of words.

ghost use Rattle.key_words.specs.Examples.{WordsOfCommands, WordsOfNoCommand};

/// Examples: words that say a command.
pub fn words_of_commands()
    ensures { WordsOfCommands }
{}

/// Examples: words that say none.
pub fn words_of_no_command()
    ensures { WordsOfNoCommand }
{}
