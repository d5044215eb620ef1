//! A teller of the texts of a session.

ghost use Rattle.std.specs.Prelude.{◌≡◌, ◌≤◌, ◌+◌, ◌∷◌, [], true, false, None, length, is_some, option_map, if◌then◌else◌};
ghost use Rattle.std.specs.List.{cons_option};
ghost use Rattle.ghost_model.specs.core.Texts.{texts_of};
ghost use Rattle.key_lines.specs.Told.{told_in};
ghost use Rattle.key_session.specs.Counting.{AreNone};

use crate::counts::Counts;
use key_exec::Telling;
use key_lines::{Printer, ToldTexts};
use leakless_plan::Plan;
use spj_parse::Texts;

/// The texts of a script that are told one after another.
#[derive(Drop)]
pub struct Teller<'a> {
    /// The text that comes next, or is told now.
    pub ahead: Option<&'a [u8]>,
    /// Those behind it.
    pub texts: Texts<'a>,
    /// How many were told.
    pub count: u32,
    /// How each is answered.
    pub plan: Plan,
    /// Where their lines are made.
    pub printer: Printer,
    /// What was counted of them.
    pub counts: Counts,
    /// The text that is told now.
    pub running: Option<Telling>,
    ghost few: { count + ((if is_some ahead then 1 else 0) + length texts) ≤ 64 },
    ghost last: { is_some ahead ≡ false → texts ≡ [] },
    ghost told_now: { is_some running ≡ true → is_some ahead ≡ true },
    ghost some_refused: { counts.refused ≤ count },
    ghost some_faulted: { counts.faulted ≤ count },
    ghost some_told: { length (told_in counts.told) ≤ count },
}

/// The next text.
pub(crate) fn next_text<'a>(texts: &mut Texts<'a>) -> Option<&'a [u8]>
    ensures taken { cons_option (option_map (λ text. text.now) result) texts.new ≡ texts.old }
    ensures fewer { (if is_some result then 1 else 0) + length texts.new ≡ length texts.old }
    ensures last { is_some result ≡ false → texts.new ≡ [] }
{
    match texts.next() {
        Some(text) => Some(text),
        None => None,
    }
}

impl<'a> Teller<'a> {
    /// None of the texts of a script is told yet.
    pub(crate) fn new(script: &'a [u8], plan: Plan) -> Self
        requires few { length (texts_of script.now) ≤ 64 }
        ensures texts { cons_option (option_map (λ text. text.now) result.ahead) result.texts ≡ texts_of script.now }
        ensures count { result.count ≡ 0 }
        ensures plan { result.plan ≡ plan }
        ensures fresh { result.printer.failed ≡ false }
        ensures counts { AreNone result.counts }
        ensures running { result.running ≡ None }
    {
        let mut texts = Texts::new(script);
        let ahead = next_text(&mut texts);
        Teller {
            ahead,
            texts,
            count: 0,
            plan,
            printer: Printer::new(),
            counts: Counts {
                refused: 0,
                faulted: 0,
                by_flash: false,
                damage: None,
                told: ToldTexts::none(),
            },
            running: None,
        }
    }
}
