//! Laws and examples of query texts.

ghost use Rattle.ghost_model.specs.laws.QueryLaws.{QueryPlacesAreExact, OneReading};
ghost use Rattle.ghost_model.specs.examples.Queries.{ClinicQueries, FaultsOfGroups, GroupsOfTexts, LimitsOfQueries, OneRefusalEach, QueryRulesInOrder, QuerySpellings, QuerySyntaxFaults, RelationsOfQueries, TestsOfNull};

/// Following the places of the grammar tells exactly the trees of texts, and exactly their syntax faults.
pub fn query_places_are_exact()
    ensures { QueryPlacesAreExact }
{}

/// Each text has one meaning or one refusal over a schema, and the reading tells which.
pub fn one_reading()
    ensures { OneReading }
{}

/// Eight texts, one refused by the grammar and one by each rule but the limits.
pub fn one_refusal_each()
    ensures { OneRefusalEach }
{}

/// What telling texts mean over the clinic and the notes.
pub fn clinic_queries()
    ensures { ClinicQueries }
{}

/// Texts that stand in the relations of meanings, refusals and syntax faults, and texts that do not.
pub fn relations_of_queries()
    ensures { RelationsOfQueries }
{}

/// The ways in which one query may be written.
pub fn query_spellings()
    ensures { QuerySpellings }
{}

/// What the tests of NULL mean, and where the words may not stand.
pub fn tests_of_null()
    ensures { TestsOfNull }
{}

/// What IN and OR mean, and what their limits count.
pub fn groups_of_texts()
    ensures { GroupsOfTexts }
{}

/// Where the syntax faults of IN and OR stand.
pub fn faults_of_groups()
    ensures { FaultsOfGroups }
{}

/// Where the syntax faults of texts stand.
pub fn query_syntax_faults()
    ensures { QuerySyntaxFaults }
{}

/// What the limits count.
pub fn limits_of_queries()
    ensures { LimitsOfQueries }
{}

/// Which of two broken rules a text is refused by.
pub fn query_rules_in_order()
    ensures { QueryRulesInOrder }
{}
