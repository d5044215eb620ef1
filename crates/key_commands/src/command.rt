//! The choice of the command.

ghost use Rattle.std.specs.Prelude.{◌≡◌, true, false, [], None, Some, map, string_bytes};
ghost use Rattle.edge_traits.specs.Files.{Files, AreSure};
ghost use Rattle.key_words.specs.Views.{plain_view, load_view, local_view, query_view, audit_view, gen_view, migrate_view};
ghost use Rattle.key_words.specs.Refusals.{HasCause, told_kind};
ghost use Rattle.key_words.specs.Words.{reading, PlainCommand, LoadCommand, LocalCommand, QueryCommand, AuditCommand, GenCommand, MigrateCommand};
ghost use Rattle.key_inputs.specs.Outside.{outside};
ghost use Rattle.key_lines.specs.Told.{told_in};
ghost use Rattle.key_audit.specs.Doing.{AuditDid};
ghost use Rattle.key_migrate.specs.Doing.{MigrateDid};
ghost use Rattle.key_commands.specs.Doing.{IsUntouched, PlainDid, LoadDid, LocalDid, QueryDid, GenDid};
ghost use Rattle.key_commands.specs.Endings.{DoesAs, OfUsage, OfPlain, OfLoad, OfLocal, OfQuery, OfAudit, OfGen, OfMigrate, is_unbegun, is_usage, is_query};
ghost use Rattle.key_commands.specs.Judging.{Judges, JudgesPlain, JudgesLoad, JudgesLocal, JudgesQuery, JudgesAudit};

use crate::ending::{Ended, PlainRun, not_read};
use crate::generate::{GenFailure, GenRun, generate};
use crate::local::{LocalFailure, LocalRun, local};
use crate::query::{QueryFailure, query};
use edge_traits::depot::Depot;
use edge_traits::flash::Flash;
use edge_traits::link::Link;
use edge_traits::sink::Sink;
use key_audit::{AuditFailure, Audited, audit};
use key_lines::ToldTexts;
use key_load::{LoadFailure, load};
use key_migrate::{MigrateFailure, migrate};
use key_plain::{PlainFault, plain};
use key_session::Tally;
use key_words::{
    AuditWords, GenWords, KeyWords, LoadWords, LocalWords, MigrateWords, PlainWords, QueryWords,
    read_words,
};
use std::alloc::Global;

/// Does the command that the words say, of which the first is the program's name. The link is called by `query` alone.
pub fn key_main<D: Depot, F: Flash, L: Link, O: Sink>(
    alloc: Global,
    args: &[String],
    depot: &mut D,
    flash: &mut F,
    link: &mut L,
    out: &mut O,
) -> Ended
    ensures usage { is_usage result ≡ true → reading (map string_bytes args.now) ≡ None }
    ensures cause { OfUsage result (λ fault. HasCause (map string_bytes args.now) fault (told_kind fault)) }
    ensures untouched { is_unbegun result ≡ true → IsUntouched
        (outside (D.contents depot.old) (D.faults depot.old) (D.append_faults depot.old) (F.state flash.old) (O.written out.old) (O.faults out.old))
        (outside (D.contents depot.new) (D.faults depot.new) (D.append_faults depot.new) (F.state flash.new) (O.written out.new) (O.faults out.new)) }
    ensures plain { OfPlain result (λ run. DoesAs PlainCommand (reading (map string_bytes args.now)) (PlainDid run.outcome (told_in run.told)
        (outside (D.contents depot.old) (D.faults depot.old) (D.append_faults depot.old) (F.state flash.old) (O.written out.old) (O.faults out.old))
        (outside (D.contents depot.new) (D.faults depot.new) (D.append_faults depot.new) (F.state flash.new) (O.written out.new) (O.faults out.new)))) }
    ensures load { OfLoad result (λ outcome. DoesAs LoadCommand (reading (map string_bytes args.now)) (LoadDid F.told outcome
        (outside (D.contents depot.old) (D.faults depot.old) (D.append_faults depot.old) (F.state flash.old) (O.written out.old) (O.faults out.old))
        (outside (D.contents depot.new) (D.faults depot.new) (D.append_faults depot.new) (F.state flash.new) (O.written out.new) (O.faults out.new)))) }
    ensures local { OfLocal result (λ outcome. DoesAs LocalCommand (reading (map string_bytes args.now)) (LocalDid F.told outcome
        (outside (D.contents depot.old) (D.faults depot.old) (D.append_faults depot.old) (F.state flash.old) (O.written out.old) (O.faults out.old))
        (outside (D.contents depot.new) (D.faults depot.new) (D.append_faults depot.new) (F.state flash.new) (O.written out.new) (O.faults out.new)))) }
    ensures query { OfQuery result (λ outcome. DoesAs QueryCommand (reading (map string_bytes args.now)) (QueryDid (λ journal. L.went link.old journal link.new) (L.faults link.old) (L.faults link.new) F.told outcome
        (outside (D.contents depot.old) (D.faults depot.old) (D.append_faults depot.old) (F.state flash.old) (O.written out.old) (O.faults out.old))
        (outside (D.contents depot.new) (D.faults depot.new) (D.append_faults depot.new) (F.state flash.new) (O.written out.new) (O.faults out.new)))) }
    ensures audit { OfAudit result (λ outcome. DoesAs AuditCommand (reading (map string_bytes args.now)) (AuditDid outcome
        (outside (D.contents depot.old) (D.faults depot.old) (D.append_faults depot.old) (F.state flash.old) (O.written out.old) (O.faults out.old))
        (outside (D.contents depot.new) (D.faults depot.new) (D.append_faults depot.new) (F.state flash.new) (O.written out.new) (O.faults out.new)))) }
    ensures generated { OfGen result (λ outcome. DoesAs GenCommand (reading (map string_bytes args.now)) (GenDid F.told outcome
        (outside (D.contents depot.old) (D.faults depot.old) (D.append_faults depot.old) (F.state flash.old) (O.written out.old) (O.faults out.old))
        (outside (D.contents depot.new) (D.faults depot.new) (D.append_faults depot.new) (F.state flash.new) (O.written out.new) (O.faults out.new)))) }
    ensures migrated { OfMigrate result (λ outcome. DoesAs MigrateCommand (reading (map string_bytes args.now)) (MigrateDid F.told outcome
        (outside (D.contents depot.old) (D.faults depot.old) (D.append_faults depot.old) (F.state flash.old) (O.written out.old) (O.faults out.old))
        (outside (D.contents depot.new) (D.faults depot.new) (D.append_faults depot.new) (F.state flash.new) (O.written out.new) (O.faults out.new)))) }
    ensures no_move { is_query result ≡ false → L.went link.old [] link.new }
    ensures link_left { is_query result ≡ false → L.faults link.new ≡ L.faults link.old }
    ensures judged { (files : Files) → D.contents depot.old ≡ Some files → AreSure files (D.sure depot.old) → Judges files (reading (map string_bytes args.now)) result }
{
    match read_words(alloc, args) {
        Ok(KeyWords::Plain(words)) => {
            let mut told = ToldTexts::none();
            let outcome = plain(alloc, &words, depot, out, &mut told);
            Ended::Plain(PlainRun { outcome, told })
        }
        Ok(KeyWords::Load(words)) => Ended::Load(load(alloc, &words, depot, flash, out)),
        Ok(KeyWords::Local(words)) => Ended::Local(local(alloc, &words, depot, flash, out)),
        Ok(KeyWords::Query(words)) => {
            Ended::Query(query(alloc, &words, depot, flash, link, out))
        }
        Ok(KeyWords::Audit(words)) => Ended::Audit(audit(alloc, &words, depot, out)),
        Ok(KeyWords::Gen(words)) => Ended::Gen(generate(alloc, &words, flash, out)),
        Ok(KeyWords::Migrate(words)) => {
            Ended::Migrate(migrate(alloc, &words, depot, flash, out))
        }
        Err(fault) => not_read(fault),
    }
}
