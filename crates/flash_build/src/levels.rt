//! What the rows of a table lead to in the tables below.

ghost use Rattle.std.specs.Prelude.{List, ◌≡◌, ◌<◌, ◌≤◌, ◌+◌, ◌^◌, ℕ, true, false, Some, IfOk, IfSome, IfNone, length, map, vec_capacity};
ghost use Rattle.std.specs.List.{range_with_len};
ghost use Rattle.ghost_model.specs.core.Schema as schemas;
ghost use Rattle.ghost_model.specs.core.Schema.{IsAtOrBelow};
ghost use Rattle.ghost_model.specs.forms.Flash.{IsHidden};
ghost use Rattle.ghost_model.specs.forms.Layout as layout;
ghost use Rattle.index_lists.specs.Laws.{LeadAs};
ghost use Rattle.flash_build.specs.Levels.{AreLed, AreRankedAbove, RankedAbove, items_of};

use crate::keys::keys_of;
use crate::places::{layout_laws, tables};
use csv_split::Hidden;
use flash_layout::Layout;
use index_lists::laws::levels_compose;
use index_lists::ranks_above;
use std::alloc::{AllocError, Global};

/// The rows to which the rows of the table above lead, given those to which the rows of a table lead; or their ranks, given
/// those of the rows of that table.
fn taken_up(
    alloc: Global,
    laid: &Layout<'_>,
    hidden: &Hidden,
    from: usize,
    below: usize,
    reached: &[u32],
) -> Result<Vec<u32>, AllocError>
    requires part { IsHidden laid.now hidden.now }
    requires above { schemas.parent laid.now.schema below ≡ Some from }
    requires long { length reached.now ≡ layout.count_of laid.now below }
    ensures led { IfOk result (λ taken. (table : ℕ) → IsAtOrBelow laid.now.schema below table → LeadAs laid.now hidden.now below table reached.now → LeadAs laid.now hidden.now from table taken.items) }
    ensures ranked { IfOk result (λ taken. (table : ℕ) (own : List ℕ) → IsAtOrBelow laid.now.schema below table → RankedAbove laid.now hidden.now table own below reached.now → RankedAbove laid.now hidden.now table own from taken.items) }
{
    layout_laws(laid);
    levels_compose();
    let mut room = Vec::new(alloc);
    let keys = keys_of(laid, hidden, from, below, &mut room)?;
    ranks_above(alloc, reached, keys)
}

/// So many numbers from one on, ascending.
pub(crate) fn numbers_from(alloc: Global, first: u32, count: u32) -> Result<Vec<u32>, AllocError>
    requires { first + count < 2 ^ 32 }
    ensures numbers { IfOk result (λ numbers. numbers.items ≡ range_with_len first count) }
    ensures room { IfOk result (λ numbers. vec_capacity numbers ≡ count) }
{
    let mut numbers = Vec::with_capacity(alloc, count as usize)?;
    for at in 0..count {
        numbers.push_reserved(first + at);
    }
    Ok(numbers)
}

/// The rows of a table to which the rows of a table above lead, which is so many steps up.
fn led(
    alloc: Global,
    laid: &Layout<'_>,
    hidden: &Hidden,
    table: usize,
    steps: usize,
) -> Result<Vec<u32>, AllocError>
    requires part { IsHidden laid.now hidden.now }
    requires there { table < length laid.now.schema }
    requires steps { steps < length (layout.levels_of laid.now.schema table) }
    ensures led { IfOk result (λ reached. (from : ℕ) → schemas.ancestor laid.now.schema steps table ≡ Some from → LeadAs laid.now hidden.now from table reached.items) }
{
    layout_laws(laid);
    ghost_model::layout::levels_are_ancestors();
    ghost_model::flash::hidden_parts_go_with_catalogs();
    let levels = laid.levels(table);
    let mut reached = numbers_from(alloc, 1, hidden.rows(table))?;
    for level in 0..steps {
        reached = taken_up(
            alloc,
            laid,
            hidden,
            levels[level + 1],
            levels[level],
            &reached,
        )?;
    }
    Ok(reached)
}

/// How many steps above a table another one is, if it is above.
fn steps_above(laid: &Layout<'_>, table: usize, other: usize) -> Option<usize>
    requires there { other < length laid.now.schema }
    ensures some { IfSome result (λ steps. (layout.is_below laid.now.schema table other ≡ true) × (schemas.ancestor laid.now.schema steps other ≡ Some table) × (steps < length (layout.levels_of laid.now.schema other))) }
    ensures none { IfNone result (layout.is_below laid.now.schema table other ≡ false) }
{
    layout_laws(laid);
    ghost_model::layout::levels_are_ancestors();
    let levels = laid.levels(other);
    for steps in 1..levels.len() {
        if levels[steps] == table {
            return Some(steps);
        }
    }
    None
}

/// The rows to which a table's rows lead in each table below, in the order of the schema.
pub(crate) fn all_led(
    alloc: Global,
    laid: &Layout<'_>,
    hidden: &Hidden,
    table: usize,
) -> Result<Vec<Vec<u32>>, AllocError>
    requires part { IsHidden laid.now hidden.now }
    ensures led { IfOk result (λ all. AreLed laid.now hidden.now table (layout.descendants_of laid.now.schema table) (map items_of all.items)) }
{
    let mut all = Vec::new(alloc);
    for other in 0..tables(laid) {
        if let Some(steps) = steps_above(laid, table, other) {
            all.push(led(alloc, laid, hidden, other, steps)?)?;
        }
    }
    Ok(all)
}

/// The ranks of the rows of each level of a table's indexes, the table's own rows first, given the ranks of these.
pub(crate) fn level_ranks(
    alloc: Global,
    laid: &Layout<'_>,
    hidden: &Hidden,
    table: usize,
    own: Vec<u32>,
) -> Result<Vec<Vec<u32>>, AllocError>
    requires part { IsHidden laid.now hidden.now }
    requires there { table < length laid.now.schema }
    requires long { length own.items ≡ layout.count_of laid.now table }
    ensures ranked { IfOk result (λ all. AreRankedAbove laid.now hidden.now table own.items (layout.levels_of laid.now.schema table) (map items_of all.items)) }
{
    layout_laws(laid);
    ghost_model::layout::levels_are_ancestors();
    let levels = laid.levels(table);
    let mut all = Vec::with_capacity(alloc, levels.len())?;
    all.push(own)?;
    for level in 1..levels.len() {
        let ranks = taken_up(
            alloc,
            laid,
            hidden,
            levels[level],
            levels[level - 1],
            &all[level - 1],
        )?;
        all.push(ranks)?;
    }
    Ok(all)
}
