//! The identifiers in a record.

ghost use Rattle.std.specs.Prelude.{◌≡◌, ◌≤◌, ◌*◌, length, option_map, IfSome};
ghost use Rattle.subtree_keys.specs.Tables.{AreRowsOf, row_spelled};

use crate::table::Ids;
use arrayvec::ArrayVec;
use flash_pages::cells::number_at;

/// The identifiers in a record, four bytes each, if each is one of so many rows of its table.
pub(crate) fn identifiers_in(rows: &[u32], cell: &[u8]) -> Option<Ids>
    requires width { length cell.now ≡ 4 * length rows.now }
    requires few { length rows.now ≤ 12 }
    ensures spelled { option_map (λ ids. ids.items) result ≡ row_spelled rows.now cell.now }
    ensures rows { IfSome result (λ ids. AreRowsOf rows.now ids.items) }
{
    let mut ids = ArrayVec::new();
    let mut rest = cell;
    for count in rows {
        let identifier = number_at(rest, 0);
        if identifier < 1 || *count < identifier {
            return None;
        }
        ids.push(identifier);
        rest = &rest[4..];
    }
    Some(ids)
}
