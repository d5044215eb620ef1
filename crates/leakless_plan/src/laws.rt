//! Forms of worked texts.

ghost use Rattle.leakless_plan.specs.Examples.{FormsByRows, FormsOfGroups, FormsOnLeaves, FormsOnTheClinic, FormsOverThreeLevels};

/// Examples: forms by the rows of a reply.
pub fn forms_by_rows()
    ensures { FormsByRows }
{}

/// Examples: forms of texts over the remainders.
pub fn forms_on_leaves()
    ensures { FormsOnLeaves }
{}

/// Examples: forms of texts with groups of several members.
pub fn forms_of_groups()
    ensures { FormsOfGroups }
{}

/// Examples: forms of texts over the clinic.
pub fn forms_on_the_clinic()
    ensures { FormsOnTheClinic }
{}

/// Examples: forms of texts over three tables, one below another.
pub fn forms_over_three_levels()
    ensures { FormsOverThreeLevels }
{}
