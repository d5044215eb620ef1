//! The catalog at the head of a visible file.

ghost use Rattle.std.specs.Prelude.{◌≡◌, ℕ, ◌+◌, ◌≤◌, List, [], true, length, IfOk, OnOk, MatchOption, is_ok};
ghost use Rattle.ghost_model.specs.core.Causes.{HasCause};
ghost use Rattle.ghost_model.specs.forms.Catalog.{BeginsWithCatalog};
ghost use Rattle.key_audit.specs.Verdicts.{HoldsFile, BeginsWithNone};
ghost use Rattle.key_audit.specs.Windows.{ahead, IsHeadOf, PutsFront};

use crate::window::Window;
use arrayvec::ArrayVec;
use edge_traits::Failed;
use edge_traits::depot::Depot;
use ghost_model::catalogs::no_catalog_is_long;
use tree_schema::catalog_bytes::MAX_CATALOG;
use tree_schema::{Catalog, read_catalog};

/// As many bytes from a file's front as a catalog has at most.
type Head = ArrayVec<u8, MAX_CATALOG>;

/// Puts what is ahead at the end of a head, as far as there is room.
fn put_ahead(window: &mut Window, head: &mut Head)
    requires near { window.old.passed ≤ 16_640 }
    ensures front { PutsFront head.old.items (ahead window.old) head.new.items (ahead window.new) }
    ensures within { length head.new.items ≤ 16_640 }
    ensures passed { window.new.passed + length head.old.items ≡ window.old.passed + length head.new.items }
{
    let ahead = window.ahead();
    let count = ahead.len().min(head.remaining_capacity());
    let (front, _rest) = ahead.split_at(count);
    let _fits = head.try_extend_from_slice(front);
    window.pass(count);
}

/// Reads the front of a file into a head.
fn read_front<D: Depot>(depot: &mut D, name: &str, head: &mut Head) -> Result<(), Failed>
    requires empty { head.old.items ≡ [] }
    ensures cause { HasCause (D.faults depot.old) (D.faults depot.new) result }
    ensures appends { D.append_faults depot.new ≡ D.append_faults depot.old }
    ensures same { D.contents depot.new ≡ D.contents depot.old }
    ensures goes_well { D.sure depot.old name.now → is_ok result ≡ true }
    ensures stays_sure { (other : List ℕ) → D.sure depot.old other → D.sure depot.new other }
    ensures front { OnOk result (HoldsFile (D.contents depot.old) name.now (IsHeadOf head.new.items)) }
{
    let mut window = Window::new();
    'pieces: while head.len() < MAX_CATALOG {
        if !window.has_more(depot, name)? {
            return Ok(());
        }
        put_ahead(&mut window, head);
    }
    Ok(())
}

/// The catalog with which a file begins; there is none exactly where no front of the file spells one.
pub(crate) fn read_head<D: Depot>(depot: &mut D, name: &str) -> Result<Option<Catalog>, Failed>
    ensures cause { HasCause (D.faults depot.old) (D.faults depot.new) result }
    ensures appends { D.append_faults depot.new ≡ D.append_faults depot.old }
    ensures same { D.contents depot.new ≡ D.contents depot.old }
    ensures goes_well { D.sure depot.old name.now → is_ok result ≡ true }
    ensures stays_sure { (other : List ℕ) → D.sure depot.old other → D.sure depot.new other }
    ensures head { IfOk result (λ found. MatchOption found (HoldsFile (D.contents depot.old) name.now BeginsWithNone)
        (λ cat. HoldsFile (D.contents depot.old) name.now (λ file. BeginsWithCatalog file cat))) }
{
    let mut head = Head::new();
    read_front(depot, name, &mut head)?;
    no_catalog_is_long();
    Ok(read_catalog(head.as_slice()))
}
