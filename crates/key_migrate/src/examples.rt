//! Examples of items, and of what is made.

ghost use Rattle.key_migrate.specs.Examples.{ClinicMigrated, ItemsOfTheClinic, PagesOfTheMigrated};

/// Examples: items over the clinic, taken and refused.
pub fn items_of_the_clinic()
    ensures { ItemsOfTheClinic }
{}

/// Examples: the clinic's catalog under items, and the line that is printed.
pub fn clinic_migrated()
    ensures { ClinicMigrated }
{}

/// Examples: the pages that the clinic needs then.
pub fn pages_of_the_migrated()
    ensures { PagesOfTheMigrated }
{}
