//! The printing of answers and refusals.

ghost use Rattle.std.specs.Prelude.{◌≡◌, ◌≤◌, ◌<◌, ◌^◌, [], false, length, map, OnOk, OnErr};
ghost use Rattle.std.specs.List.{concat};
ghost use Rattle.ghost_model.specs.core.Causes.{HasCause};
ghost use Rattle.ghost_model.specs.core.Database.{IsDatabase};
ghost use Rattle.ghost_model.specs.refusals.LoadFaults.{most_rows};
ghost use Rattle.ghost_model.specs.core.Printed.{row_line, lines_of_text, printed};
ghost use Rattle.ghost_model.specs.core.Texts.{most_texts, texts_of};
ghost use Rattle.edge_traits.specs.Written.{grown, GrowsByFront};
ghost use Rattle.key_lines.specs.Handing.{Hands, handed};
ghost use Rattle.key_lines.specs.Told.{AreRuled, HasRule, IsTold, told_in};
ghost use Rattle.key_plain.specs.Views.{AreAllTold};

use csv_split::Tables;
use edge_traits::Failed;
use edge_traits::sink::Sink;
use key_inputs::script::MAX_TEXTS;
use key_lines::printer::pieces_join;
use key_lines::{Printer, ToldText, ToldTexts};
use plain_eval::{Answer, Row};
use spj_parse::{Texts, read_query};
use tree_schema::Schema;

/// Prints the rows of an answer that were not given yet, and answers how many they are. After a failed write the others
/// are left.
fn print_rows<O: Sink>(printer: &mut Printer, out: &mut O, answer: &mut Answer<'_>) -> u64
    requires few { length answer.old ≤ most_rows }
    ensures handed { Hands (concat (map row_line answer.old))
        (handed printer.old.failed (O.faults out.old) (O.written out.old)) (handed printer.new.failed (O.faults out.new) (O.written out.new)) }
    ensures count { printer.new.failed ≡ false → result ≡ length answer.old }
{
    pieces_join();
    let mut row = Row::new();
    let mut count = 0;
    loop {
        if printer.failed {
            return count;
        }
        if !answer.next(&mut row) {
            return count;
        }
        printer.row(out, row.as_slice());
        count += 1;
    }
}

/// Prints the lines of the text that has this number, and answers what is told of it.
fn print_text<O: Sink>(
    printer: &mut Printer,
    out: &mut O,
    number: u32,
    schema: &Schema,
    tables: &Tables,
    text: &[u8],
) -> ToldText
    requires database { IsDatabase schema.now tables.now }
    ensures handed { Hands (concat (lines_of_text schema.now tables.now number text.now))
        (handed printer.old.failed (O.faults out.old) (O.written out.old)) (handed printer.new.failed (O.faults out.new) (O.written out.new)) }
    ensures rule { HasRule schema.now text.now result }
    ensures told { printer.new.failed ≡ false → IsTold schema.now text.now (lines_of_text schema.now tables.now number text.now) result }
{
    pieces_join();
    match read_query(schema, text) {
        Ok(query) => {
            let mut answer = Answer::begin(schema, tables, &query);
            let rows = print_rows(printer, out, &mut answer);
            printer.count(out, number, rows);
            ToldText {
                refusal: None,
                rows,
            }
        }
        Err(refusal) => {
            printer.refusal(out, number, &refusal);
            ToldText {
                refusal: Some(refusal),
                rows: 0,
            }
        }
    }
}

/// Prints the lines of the texts of a script, and tells of each. After a failed write the others are left.
fn print_texts<O: Sink>(
    printer: &mut Printer,
    out: &mut O,
    schema: &Schema,
    tables: &Tables,
    script: &[u8],
    told: &mut ToldTexts,
)
    requires database { IsDatabase schema.now tables.now }
    requires few { length (texts_of script.now) ≤ most_texts }
    requires untold { told_in told.old ≡ [] }
    ensures handed { Hands (printed schema.now (texts_of script.now) tables.now)
        (handed printer.old.failed (O.faults out.old) (O.written out.old)) (handed printer.new.failed (O.faults out.new) (O.written out.new)) }
    ensures ruled { AreRuled schema.now (texts_of script.now) (told_in told.new) }
    ensures told { printer.new.failed ≡ false → AreAllTold schema.now tables.now (texts_of script.now) (told_in told.new) }
{
    pieces_join();
    let mut texts = Texts::new(script);
    for earlier in 0..MAX_TEXTS as u32 {
        if printer.failed {
            return;
        }
        let Some(text) = texts.next() else {
            return;
        };
        told.push(print_text(printer, out, earlier + 1, schema, tables, text));
    }
}

/// Prints the lines of a script, and tells of its texts. After a failed write no further write is made, and no later text is told.
pub(crate) fn print_script<O: Sink>(
    out: &mut O,
    schema: &Schema,
    tables: &Tables,
    script: &[u8],
    told: &mut ToldTexts,
) -> Result<(), Failed>
    requires database { IsDatabase schema.now tables.now }
    requires few { length (texts_of script.now) ≤ most_texts }
    requires untold { told_in told.old ≡ [] }
    ensures cause { HasCause (O.faults out.old) (O.faults out.new) result }
    ensures printed { OnOk result (O.written out.new ≡ grown (O.written out.old) (printed schema.now (texts_of script.now) tables.now)) }
    ensures failed { OnErr result (GrowsByFront (O.written out.old) (printed schema.now (texts_of script.now) tables.now) (O.written out.new)) }
    ensures ruled { AreRuled schema.now (texts_of script.now) (told_in told.new) }
    ensures told { OnOk result (AreAllTold schema.now tables.now (texts_of script.now) (told_in told.new)) }
{
    let mut printer = Printer::new();
    print_texts(&mut printer, out, schema, tables, script, told);
    if printer.failed {
        return Err(Failed);
    }
    Ok(())
}
