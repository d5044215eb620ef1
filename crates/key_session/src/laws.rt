//! Laws of sessions, which need no code, and what holds of the replies that are kept.

ghost use Rattle.key_session.specs.Worlds.{SessionsAreAlike};
ghost use Rattle.key_session.specs.Agreeing.{PlansAgree, HeldPlansAgree};
ghost use Rattle.key_session.specs.CallExamples.{CallsOfTheClinic, PagesOfNotes};
ghost use Rattle.key_session.specs.FewCalls.{StepsTakeFewCalls};
ghost use Rattle.key_session.specs.Given.{KeptAreGiven, KeptAreOfRows};
ghost use Rattle.key_session.specs.Laws.{RepliesStayKept, LowRises, KeptHalvesAreHalves, LaterTextsAreUnmarked};

use crate::texts::texts_come_in_order;
use edge_traits::link::Link;
use ghost_model::channel::two_worlds;
use key_exec::laws::{knowledge_is_enough, knowledge_stays};
use session_laws::honest_sessions::{
    honest_asks_are_done, honest_replies_are_whole, honest_sessions_are_smooth,
};
use session_laws::text_cases::texts_are_decided;
use session_laws::text_ends::{
    asks_are_awaited_in_order, ended_texts_stay, over_texts_are_settled,
};

/// Two sessions of one script with one catalog at one address never differ on the channel before their hosts do, whatever hidden
/// columns, flash, page buffers, plan and pace they have.
pub fn sessions_are_alike<L: Link, M: Link>()
    ensures alike { (before now : L) (other_before other_now : M) → SessionsAreAlike (λ journal. L.went before journal now) (λ journal. M.went other_before journal other_now) }
{
    two_worlds();
}

/// Two sessions of one script with one catalog, each by a plan of its own, hand on the same bytes where they went by the same journal,
/// whatever hosts they had and whatever flash, page buffers and pace: the pages of each are those of one database, but for damaged
/// slots, and no text met one of these or a failure of the flash. Over pages that hold all files that a plan goes by no text does, as
/// long as the flash does not fail.
pub fn plans_agree<L: Link, M: Link>()
    ensures agree { (before now : L) (other_before other_now : M) → PlansAgree (λ journal. L.went before journal now) (λ journal. M.went other_before journal other_now) }
    ensures held { (before now : L) (other_before other_now : M) → HeldPlansAgree (λ journal. L.went before journal now) (λ journal. M.went other_before journal other_now) }
{
    knowledge_is_enough();
}

/// The replies to the asks of a text that were ended stand in its half, unless it is marked, and have rows of their tables alone.
pub(crate) fn kept_are_given()
    ensures given { KeptAreGiven }
    ensures rows { KeptAreOfRows }
{}

/// What is kept stays where others read pages into other buffers, and write pages behind the spool.
pub(crate) fn replies_stay_kept()
    ensures kept { RepliesStayKept }
{
    visible_spool::laws::the_spool_is_spared();
    visible_spool::laws::replies_stay_readable();
    visible_spool::laws::replies_are_kept();
}

/// What is kept of texts is kept of those behind the first.
pub(crate) fn low_rises()
    ensures kept { LowRises }
{}

/// The half of a text is one that a job may look up in.
pub(crate) fn kept_halves_are_halves()
    ensures half { KeptHalvesAreHalves }
{}

/// A text behind the last one that was awaited is not marked.
pub(crate) fn later_texts_are_unmarked()
    ensures unmarked { LaterTextsAreUnmarked }
{}

/// A session takes few calls of the flash, step by step and to its end, by the plan `pre`.
pub(crate) fn steps_take_few_calls()
    ensures { StepsTakeFewCalls }
{
    later_texts_are_unmarked();
    texts_come_in_order();
    asks_are_awaited_in_order();
    ended_texts_stay();
    over_texts_are_settled();
    texts_are_decided();
    honest_asks_are_done();
    honest_replies_are_whole();
    honest_sessions_are_smooth();
}

/// Examples: the calls of sessions over the clinic.
pub fn calls_of_the_clinic()
    ensures { CallsOfTheClinic }
{}

/// Examples: the pages that replies fill.
pub fn pages_of_notes()
    ensures { PagesOfNotes }
{}
