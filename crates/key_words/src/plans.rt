//! The names of the plans.

ghost use Rattle.std.specs.Prelude.{◌≡◌};
ghost use Rattle.key_words.specs.Plans as plans;

use leakless_plan::{Form, Plan};

/// The plan of a name, as the option `--plan` takes it.
pub fn plan_named(name: &str) -> Option<Plan>
    ensures plan { result ≡ plans.plan_named name.now }
{
    let name = name.as_bytes();
    if name == "auto".as_bytes() {
        Some(Plan::Linked(None))
    } else if name == "scan".as_bytes() {
        Some(Plan::Scan)
    } else if name == "pre".as_bytes() {
        Some(Plan::Linked(Some(Form::Pre)))
    } else if name == "post".as_bytes() {
        Some(Plan::Linked(Some(Form::Post)))
    } else if name == "cross-pre".as_bytes() {
        Some(Plan::Linked(Some(Form::CrossPre)))
    } else if name == "cross-post".as_bytes() {
        Some(Plan::Linked(Some(Form::CrossPost)))
    } else {
        None
    }
}
