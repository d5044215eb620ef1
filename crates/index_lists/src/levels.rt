//! From the rows of a table to those of the table above it.

ghost use Rattle.std.specs.Prelude.{◌≡◌, length, map, IfOk, IsTrue, true, ℕ, ◌-◌, ◌<◌, vec_capacity};
ghost use Rattle.std.specs.List.{All};
ghost use Rattle.ghost_model.specs.core.Values.{Number};
ghost use Rattle.ghost_model.specs.core.Database.{is_row_among};
ghost use Rattle.index_lists.specs.Ranks.{identifier_of, of_referred};

use std::alloc::{AllocError, Global};

/// The ranks of the rows of the table above: each has the rank of the row that its foreign key names.
pub fn ranks_above(alloc: Global, ranks: &[u32], keys: &[i64]) -> Result<Vec<u32>, AllocError>
    requires named { All (λ key. IsTrue (is_row_among (length ranks.now) (Number key))) keys.now }
    ensures ranks { IfOk result (λ above. above.items ≡ of_referred ranks.now (map identifier_of keys.now)) }
    ensures below { (entries : ℕ) → All (λ rank. rank < entries) ranks.now → IfOk result (λ above. All (λ rank. rank < entries) above.items) }
    ensures room { IfOk result (λ above. vec_capacity above ≡ length keys.now) }
{
    let mut above = Vec::with_capacity(alloc, keys.len())?;
    for key in keys {
        above.push_reserved(ranks[*key as usize - 1]);
    }
    Ok(above)
}

/// The places of the rows that foreign keys name: their ranks in the id index of a table with so many rows.
pub fn places_referred(alloc: Global, rows: u32, keys: &[i64]) -> Result<Vec<u32>, AllocError>
    requires named { All (λ key. IsTrue (is_row_among rows (Number key))) keys.now }
    ensures places { IfOk result (λ places. places.items ≡ map (λ identifier. identifier - 1) (map identifier_of keys.now)) }
    ensures below { IfOk result (λ places. All (λ place. place < rows) places.items) }
    ensures room { IfOk result (λ places. vec_capacity places ≡ length keys.now) }
{
    let mut places = Vec::with_capacity(alloc, keys.len())?;
    for key in keys {
        places.push_reserved(*key as u32 - 1);
    }
    Ok(places)
}
