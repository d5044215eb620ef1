//! Examples and laws of the work of queries.

ghost use Rattle.ghost_model.specs.laws.QueryWorkLaws.{BitsAreLeast};
ghost use Rattle.ghost_model.specs.examples.QueryWork.{NumbersOfWork, WorkOnTheClinic, WorkOnManyNotes};

/// A number has the least number of binary digits with which it can be written.
pub fn bits_are_least()
    ensures { BitsAreLeast }
{}

/// The numbers that work is made of.
pub fn numbers_of_work()
    ensures { NumbersOfWork }
{}

/// The work of texts over the clinic.
pub fn work_on_the_clinic()
    ensures { WorkOnTheClinic }
{}

/// The work of texts over notes of which many have one body.
pub fn work_of_many_notes()
    ensures { WorkOnManyNotes }
{}
