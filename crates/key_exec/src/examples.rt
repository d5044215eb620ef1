//! Examples of what stands in buffers and on pages.

ghost use Rattle.key_exec.specs.Examples.{FilterOfThree, RepliesToTwoTexts};

/// Examples: a filter of one page, and of which identifiers it says that it may have them.
pub fn filter_of_three()
    ensures { FilterOfThree }
{}

/// Examples: the replies to two texts, each on several pages of its half of the spool.
pub fn replies_to_two_texts()
    ensures { RepliesToTwoTexts }
{}
