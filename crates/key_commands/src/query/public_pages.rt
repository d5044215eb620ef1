//! The catalog on the public pages, where it is of the version that is made.

ghost use Rattle.std.specs.Prelude.{◌≡◌, ◌≤◌, true, min, Some, IfOk, IfSome, IfNone};
ghost use Rattle.ghost_model.specs.core.Causes.{HasCause, last_count};
ghost use Rattle.ghost_model.specs.forms.Catalog.{current_version};
ghost use Rattle.edge_traits.specs.Devices.{KeepsPages};
ghost use Rattle.key_commands.specs.query.PublicPages.{HasCatalog, HasNoCatalog};

use edge_traits::Failed;
use edge_traits::flash::Flash;
use key_migrate::public_pages::read_public_pages;
use tree_schema::Catalog;

/// A catalog that was found, where it is of the version that is made.
fn current(found: Option<Catalog>) -> Option<Catalog>
    ensures found { IfSome result (λ cat. found ≡ Some cat) }
    ensures current { IfSome result (λ cat. cat.version ≡ current_version) }
    ensures none { IfNone result (IfSome found (λ cat. cat.version ≡ current_version → ⊥)) }
{
    match found {
        Some(cat) if cat.is_current() => Some(cat),
        Some(_) | None => None,
    }
}

/// Reads the catalog with which the public pages of a flash begin, and answers `None` where they begin with none of the version
/// that is made, or where the flash has no page. No later page is read.
pub(crate) fn read_current_catalog<F: Flash>(flash: &mut F) -> Result<Option<Catalog>, Failed>
    ensures catalog { IfOk result (λ found. IfSome found (λ cat. F.told ≡ true → HasCatalog (F.state flash.new) cat)) }
    ensures current { IfOk result (λ found. IfSome found (λ cat. cat.version ≡ current_version)) }
    ensures none { IfOk result (λ found. IfNone found (F.told ≡ true → HasNoCatalog (F.state flash.new))) }
    ensures kept { KeepsPages (F.state flash.old) (F.state flash.new) }
    ensures deep_reads { (F.state flash.new).deep_reads ≡ (F.state flash.old).deep_reads }
    ensures cause { HasCause (F.state flash.old).faults (F.state flash.new).faults result }
    ensures calls_stay { min (F.state flash.old).calls last_count ≤ (F.state flash.new).calls }
{
    ghost_model::catalogs::catalogs_have_one_spelling();
    Ok(current(read_public_pages(flash)?))
}
