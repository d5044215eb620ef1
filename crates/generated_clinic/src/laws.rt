//! What is known of every generated clinic and every script over it.

ghost use Rattle.generated_clinic.specs.Laws.{FilesAreGood, TextsAreGood};

/// The files of a generated clinic break no rule of loading, whatever the seed, and have as many rows as the clinic has
/// doctors, patients and visits.
pub fn files_are_good()
    ensures good { FilesAreGood }
{}

/// Each text of a script is accepted, and means the query with its number.
pub fn texts_are_good()
    ensures good { TextsAreGood }
{}
