//! Laws of jobs and of texts that are told, which need no code.

ghost use Rattle.key_exec.specs.Laws.{WholeRepliesAreOfAsked, WholeRepliesAreOfAll, KnowledgeIsEnough, HeldPagesAreKnown, DamageIsNeverMet, PagesStayKnown, PagesStayKnownBut, DamageStays, ToldDamageLiesInFiles, KnowledgeIsSpared, BuffersStayGiven, BuffersStayBlankOrRead, OthersSpareHalves, JobsSpareHalves, ReadersKeep, KeptStays, FewStepsAreLeft};
ghost use Rattle.key_exec.specs.Filled.{SlotsCanBeFilled, NoOthersHaveRows, AnswersAreOfEach};

/// One reply to each ask of a query is about asked tables alone, and about all of them.
pub fn whole_replies_are_of_asked()
    ensures asked { WholeRepliesAreOfAsked }
    ensures all { WholeRepliesAreOfAll }
{
    candidate_rows::laws::whole_replies_are_of_asked();
    candidate_rows::laws::whole_replies_are_all();
}

/// Pages that hold the hidden columns hold them but for damaged slots, and those that hold all static files hold these so as well.
pub fn knowledge_is_enough()
    ensures enough { KnowledgeIsEnough }
{
    hidden_columns::laws::columns_give_values();
    candidate_gathering::known::laws::held_files_are_known();
}

/// Pages that hold all static files are enough for each plan.
pub fn held_pages_are_known()
    ensures known { HeldPagesAreKnown }
{}

/// Where pages hold the hidden columns no slot is damaged in a scan, and where they hold all static files none is by the indexes.
pub fn damage_is_never_met()
    ensures never { DamageIsNeverMet }
{
    hidden_columns::laws::columns_give_values();
    candidate_gathering::known::laws::held_files_are_known();
}

/// What is known of the static pages stays so where they are as they were.
pub fn knowledge_stays()
    ensures pages { PagesStayKnown }
    ensures but { PagesStayKnownBut }
    ensures damage { DamageStays }
{
    ghost_model::layout::layout_is_small();
    ghost_model::layout::files_lie_in_order();
    ghost_model::layout::files_lie_as_summed();
    ghost_model::layout::records_stand_within();
    ghost_model::flash::holdings_are_kept();
    candidate_gathering::known::laws::knowledge_stays();
}

/// Where the flash tells its pages, a slot that is blamed lies in a file that the plan reads, and never in the spool or in scratch.
pub fn damage_lies_in_files()
    ensures files { ToldDamageLiesInFiles }
{}

/// What is known with a query and its replies stays so where the static pages and the half of the replies are spared.
pub fn knowledge_is_spared()
    ensures spared { KnowledgeIsSpared }
{
    knowledge_stays();
    visible_spool::laws::spared_halves_stay();
}

/// Buffers of a job have what they had where others write only the other half of the spool, and use others.
pub fn buffers_are_spared()
    ensures given { BuffersStayGiven }
    ensures blank { BuffersStayBlankOrRead }
{
    visible_spool::laws::jobs_keep_their_buffers();
}

/// What writes only to the other half of the spool spares a half, and what a job writes spares both.
pub fn halves_are_spared()
    ensures others { OthersSpareHalves }
    ensures jobs { JobsSpareHalves }
{}

/// A job may leave what reads alone leave, and one slice after another leave what one may.
pub fn what_jobs_keep_adds_up()
    ensures readers { ReadersKeep }
    ensures stays { KeptStays }
{
    ghost_model::layout::layout_is_small();
}

/// A text goes on for 2 ^ 61 steps at most.
pub fn few_steps_are_left()
    ensures few { FewStepsAreLeft }
{}

/// Any pages hold the hidden columns of some database but for slots that spell no value: of one for whatever values of their kind and
/// range stand there, so in each of them any two can.
pub fn slots_can_be_filled()
    ensures { SlotsCanBeFilled }
{
    ghost_base::laws::cells_spell_one_value();
    ghost_model::meaning::parts_by_flags();
    ghost_model::flash::hidden_values_of_databases();
}

/// Only where a table that a row must name has a row there is a database; where it has none, no slot of the foreign key spells a value.
pub fn no_others_have_rows()
    ensures { NoOthersHaveRows }
{}

/// A text that a scan answers has the lines of its answer over each of these databases, whatever stands in the slots that spell no
/// value.
pub fn answers_are_of_each()
    ensures { AnswersAreOfEach }
{
    slots_can_be_filled();
}
