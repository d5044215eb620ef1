//! Laws and examples of databases, of their files, of the two parts of a database and of a query's meaning.

ghost use Rattle.ghost_model.specs.laws.MeaningLaws.{RowsLeadToRows, FilesSpellADatabase, FilesKeepTheRowLimit, LongFilesAreToldFirst, SplitIsRejoined, PublicPartsGoWithCatalogs, ImagesAreAsLong, OneRowEach};
ghost use Rattle.ghost_model.specs.laws.SplitByFlags.{PartsByFlags};
ghost use Rattle.ghost_model.specs.examples.Databases.{ClinicIsSpelled, NullIsSpelled, IntegersOfFields, ValuesOfFields, ComparisonsWithNull, RecordsOfFiles, HeadersOfFiles, OneRuleBroken, TwoRulesBroken, PartsOfRows, NoShorterImage};
ghost use Rattle.ghost_model.specs.examples.Meaning.{PartsOfTheClinic, AnswersOfTheClinic, AnswersOfGroups, RefusedTexts, LinesOfRows};

/// The clinic's files spell its database.
pub fn clinic_is_spelled()
    ensures { ClinicIsSpelled }
{}

/// Files of notes with empty fields spell NULL.
pub fn null_is_spelled()
    ensures { NullIsSpelled }
{}

/// The integers that fields spell.
pub fn integers_of_fields()
    ensures { IntegersOfFields }
{}

/// The values of fields in columns of each kind, and their faults.
pub fn values_of_fields()
    ensures { ValuesOfFields }
{}

/// No comparison with NULL is true.
pub fn comparisons_with_null()
    ensures { ComparisonsWithNull }
{}

/// The records of some files.
pub fn records_of_files()
    ensures { RecordsOfFiles }
{}

/// Headers that are accepted, and headers that are refused.
pub fn headers_of_files()
    ensures { HeadersOfFiles }
{}

/// Files that break one rule, and where.
pub fn one_rule_broken()
    ensures { OneRuleBroken }
{}

/// Files that break two rules, and which one is told.
pub fn two_rules_broken()
    ensures { TwoRulesBroken }
{}

/// The two parts of a database are those that walks along the columns take.
pub fn parts_by_flags()
    ensures { PartsByFlags }
{}

/// The parts of rows whose visible and hidden columns take turns.
pub fn parts_of_rows()
    ensures { PartsOfRows }
{}

/// An image is as long as its catalog tells.
pub fn images_are_as_long()
    ensures { ImagesAreAsLong }
{}

/// The clinic's image without its last byte is no image.
pub fn no_shorter_image()
    ensures { NoShorterImage }
{}

/// A database is its two parts rejoined.
pub fn split_is_rejoined()
    ensures { SplitIsRejoined }
{}

/// The clinic's two parts, its visible image and two replies.
pub fn parts_of_the_clinic()
    ensures { PartsOfTheClinic }
{}

/// What texts over the clinic and over the notes print.
pub fn answers_of_the_clinic()
    ensures { AnswersOfTheClinic }
{}

/// What texts with groups of conditions and with tests of NULL print.
pub fn answers_of_groups()
    ensures { AnswersOfGroups }
{}

/// What refused texts print.
pub fn refused_texts()
    ensures { RefusedTexts }
{}

/// The lines of some rows.
pub fn lines_of_rows()
    ensures { LinesOfRows }
{}

/// Files that keep every rule of loading spell a database.
pub fn files_spell_a_database()
    ensures { FilesSpellADatabase }
{}

/// An accepted query has at most one row in its answer for each row of its top table.
pub fn one_row_each()
    ensures { OneRowEach }
{}

/// Files that keep every rule of loading have no table with too many rows.
pub fn files_keep_the_row_limit()
    ensures { FilesKeepTheRowLimit }
{}

/// A file that is too long is told before anything else in it.
pub fn long_files_are_told_first()
    ensures { LongFilesAreToldFirst }
{}

/// The public part of a database goes with the database's catalog.
pub fn public_parts_go_with_catalogs()
    ensures { PublicPartsGoWithCatalogs }
{}

/// Each row leads to one row of each table below.
pub fn rows_lead_to_rows()
    ensures { RowsLeadToRows }
{}
