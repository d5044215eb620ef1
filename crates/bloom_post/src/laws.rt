//! What follows for a filter from what it stands for; filters and identifiers computed.

ghost use Rattle.bloom_post.specs.Examples.{BitsOfIdentifiers, SizesOfFilters};
ghost use Rattle.bloom_post.specs.Laws.{FillsTwoPages, FiltersStay};

/// A law: a filter stands for the same identifiers for as long as nobody writes into its buffers.
pub fn filters_stay()
    ensures stay { FiltersStay }
{}

/// A law: a filter of 8 page buffers is full with the identifiers from 1 to 40,000, of which each bit is the first of one.
pub fn forty_thousand_fill_two_pages()
    ensures full { FillsTwoPages }
{}

/// Examples: the sizes of filters, and the bits of some identifiers.
pub fn bits_of_identifiers()
    ensures sizes { SizesOfFilters }
    ensures bits { BitsOfIdentifiers }
{}
