//! The rows of one frame of a reply, gathered from the file.

ghost use Rattle.std.specs.Prelude.{◌≡◌, ◌≤◌, ◌<◌, ◌+◌, ◌-◌, ◌*◌, ◌++◌, ◌^◌, ◌||◌, ℕ, true, false, List, [], Some, map, flat_map, sum, IfErr, IfOk, is_ok};
ghost use Rattle.arrayvec.specs.ArrayVec.{array_vec_len};
ghost use Rattle.ghost_model.specs.core.Asks.{RowCells, row_bytes};
ghost use Rattle.ghost_model.specs.core.Causes.{HasCause};
ghost use Rattle.ghost_model.specs.readings.GroupReading.{passes_from};
ghost use Rattle.edge_traits.specs.Files.{file_of};
ghost use Rattle.host_exec.specs.RowBytes as rows;
ghost use Rattle.host_exec.specs.RowBytes.{is_ended, is_met, replies_at};
ghost use Rattle.host_exec.specs.Gathering.{Gathered, HasRoom};
ghost use Rattle.host_exec.specs.Pieces.{HasFit, IsAhead};
ghost use Rattle.host_exec.specs.FormViews.{span_view, check_view, form_view};

use crate::form::{CellTest, Check, Form, Span};
use crate::piece::Piece;
use arrayvec::ArrayVec;
use channel_codec::bytes::{behind, byte_at, front};
use channel_codec::frame::PAYLOAD_BYTES;
use edge_traits::Failed;
use edge_traits::depot::Depot;

/// Rows of a reply, one after another.
pub type Rows = ArrayVec<u8, PAYLOAD_BYTES>;

/// Whether a cell is that of NULL, in a column that may be NULL or may not.
fn is_null(nullable: bool, cell: &[u8]) -> bool
    ensures { result ≡ rows.is_null_cell nullable cell.now }
{
    nullable && byte_at(cell, 0) == 0
}

/// Whether a row meets a condition.
fn passes(row: &[u8], check: &Check) -> bool
    ensures { result ≡ rows.passes row.now (check_view check.now) }
{
    let cell = front(behind(row, check.span.at), check.span.size);
    let null = is_null(check.nullable, cell);
    match &check.tested {
        CellTest::Compared(operator, literal) => {
            let flag = check.nullable as usize;
            let literal = front(literal, check.span.size.saturating_sub(flag));
            !null && operator.meets(behind(cell, flag).cmp(&literal))
        }
        CellTest::IsNull => null,
        CellTest::IsNotNull => !null,
    }
}

/// Whether a row met a condition of a group before, or meets this one.
fn meets_now(row: &[u8], check: &Check, met: bool) -> bool
    ensures { result ≡ (met || rows.passes row.now (check_view check.now)) }
{
    met || passes(row, check)
}

/// Whether a row meets one of each group of some conditions, of which the last ends its group.
fn passes_all(row: &[u8], checks: &[Check]) -> bool
    ensures { result ≡ passes_from (λ test. test.more) (rows.passes row.now) false (map check_view checks.now) }
{
    let mut met = false;
    let mut rest = checks;
    'checks: while let Some((check, later)) = rest.split_first() {
        met = meets_now(row, check, met);
        if !check.more {
            if !met {
                return false;
            }
            met = false;
        }
        rest = later;
    }
    true
}

/// Adds the cells that stand in a row, one after another.
fn put_cells(spans: &[Span], row: &[u8], out: &mut Rows)
    requires room { array_vec_len out.old + sum (map (λ span. span.size) spans.now) ≤ 2040 }
    ensures cells { out.new.items ≡ out.old.items ++ flat_map (rows.cut row.now) (map span_view spans.now) }
    ensures within { array_vec_len out.new ≤ array_vec_len out.old + sum (map (λ span. span.size) spans.now) }
{
    let mut rest = spans;
    'spans: while let Some((span, later)) = rest.split_first() {
        let _full = out.try_extend_from_slice(front(behind(row, span.at), span.size));
        rest = later;
    }
}

/// Adds the row of the reply that a row of the file gives.
fn put_row(form: &Form, identifier: u32, row: &[u8], out: &mut Rows)
    requires room { array_vec_len out.old + rows.reply_width (form_view form.now) ≤ 2040 }
    ensures bytes { out.new.items ≡ out.old.items ++ row_bytes (rows.replied (form_view form.now) identifier row.now) }
    ensures within { array_vec_len out.new ≤ array_vec_len out.old + rows.reply_width (form_view form.now) }
{
    let _full = out.try_extend_from_slice(&identifier.to_be_bytes());
    put_cells(&form.columns, row, out);
}

/// The rows of one frame of a reply, so far.
#[derive(Drop)]
pub struct Batch {
    /// Their bytes, one row after another.
    pub bytes: Rows,

    /// How many there are.
    pub rows: u32,
}

impl Batch {
    /// No rows.
    pub fn new() -> Batch
        ensures none { result.bytes.items ≡ [] }
        ensures count { result.rows ≡ 0 }
    {
        Batch {
            bytes: Rows::new(),
            rows: 0,
        }
    }
}

/// Adds the row of the reply that a row of the file gives, where it meets the conditions.
fn add_row(form: &Form, identifier: u32, row: &[u8], most: u32, batch: &mut Batch)
    requires ended { is_ended (form_view form.now) ≡ true }
    requires room { HasRoom (form_view form.now) most batch.old }
    requires more { batch.old.rows < most }
    ensures room { HasRoom (form_view form.now) most batch.new }
    ensures one { batch.new.rows ≤ batch.old.rows + 1 }
    ensures found { is_met (form_view form.now) row.now ≡ true → (batch.new.rows ≡ batch.old.rows + 1)
        × (batch.new.bytes.items ≡ batch.old.bytes.items ++ row_bytes (rows.replied (form_view form.now) identifier row.now)) }
    ensures passed { is_met (form_view form.now) row.now ≡ false → (batch.new.rows ≡ batch.old.rows)
        × (batch.new.bytes.items ≡ batch.old.bytes.items) }
{
    if passes_all(row, &form.checks) {
        put_row(form, identifier, row, &mut batch.bytes);
        batch.rows += 1;
    }
}

/// Adds what so many rows of the file give, the first of them standing at a place of its table, until there are as many
/// as a frame has; answers how many rows of the file were gone through.
fn add_rows(form: &Form, place: u32, count: u32, piece: &[u8], most: u32, batch: &mut Batch) -> u32
    requires ended { is_ended (form_view form.now) ≡ true }
    requires room { HasRoom (form_view form.now) most batch.old }
    requires last { place + count < 2 ^ 32 }
    ensures room { HasRoom (form_view form.now) most batch.new }
    ensures within { result ≤ count }
    ensures sparse { batch.new.rows ≤ batch.old.rows + result }
    ensures goes_on { 0 < count → batch.old.rows < most → 0 < result }
    ensures stops { result < count → batch.new.rows ≡ most }
    ensures gathered { (file : List ℕ) (start later : ℕ) (all : List RowCells)
        → piece.now ≡ rows.window file (start + place * form.now.width) (count * form.now.width)
        → Gathered all batch.old.rows batch.old.bytes.items (replies_at (form_view form.now) file start place (count + later))
        → Gathered all batch.new.rows batch.new.bytes.items (replies_at (form_view form.now) file start (place + result) (count - result + later)) }
{
    let mut passed = 0;
    let mut rest = piece;
    'rows: while passed < count && batch.rows < most {
        let row = front(rest, form.width);
        add_row(form, place + passed + 1, row, most, batch);
        rest = behind(rest, form.width);
        passed += 1;
    }
    passed
}

/// Gathers on from the piece in hand, or else from the next one, which is read; answers the place of the row to go on at.
fn gather_piece<D: Depot>(
    form: &Form,
    piece: &mut Piece,
    depot: &mut D,
    name: &str,
    start: u64,
    next: u32,
    rows: u32,
    most: u32,
    batch: &mut Batch,
) -> Result<u32, Failed>
    requires next { next < rows }
    requires few { rows ≤ 1_000_000 }
    requires narrow { form.now.width ≤ 1560 }
    requires start { start < 2 ^ 63 }
    requires ended { is_ended (form_view form.now) ≡ true }
    requires room { HasRoom (form_view form.now) most batch.old }
    requires more { batch.old.rows < most }
    requires fits { HasFit form.now.width piece.old }
    requires ahead { next + piece.old.rows ≤ rows }
    ensures cause { HasCause (D.faults depot.old) (D.faults depot.new) result }
    ensures appends { D.append_faults depot.new ≡ D.append_faults depot.old }
    ensures same { D.contents depot.new ≡ D.contents depot.old }
    ensures goes_well { D.sure depot.old name.now → is_ok result ≡ true }
    ensures stays_sure { D.sure depot.old name.now → D.sure depot.new name.now }
    ensures room { HasRoom (form_view form.now) most batch.new }
    ensures fits { HasFit form.now.width piece.new }
    ensures none { IfErr result (λ _. piece.new.rows ≡ 0) }
    ensures goes_on { IfOk result (λ later. next < later) }
    ensures sparse { IfOk result (λ later. batch.new.rows + next ≤ batch.old.rows + later) }
    ensures within { IfOk result (λ later. later + piece.new.rows ≤ rows) }
    ensures ahead { IfOk result (λ later. (file : List ℕ) → file_of (D.contents depot.old) name.now ≡ Some file
        → IsAhead form.now.width piece.old file start next → IsAhead form.now.width piece.new file start later) }
    ensures gathered { IfOk result (λ later. (file : List ℕ) (all : List RowCells) → file_of (D.contents depot.old) name.now ≡ Some file
        → IsAhead form.now.width piece.old file start next
        → Gathered all batch.old.rows batch.old.bytes.items (replies_at (form_view form.now) file start next (rows - next))
        → Gathered all batch.new.rows batch.new.bytes.items (replies_at (form_view form.now) file start later (rows - later))) }
{
    piece.refill(depot, name, form.width, start, next, rows - next)?;
    let ahead = piece.ahead(form.width);
    let passed = add_rows(form, next, piece.rows, ahead, most, batch);
    piece.pass(passed, form.width);
    Ok(next + passed)
}

/// Gathers the rows of one frame, from a row of the table on, of which those of the piece in hand were read before; answers the
/// place of the row to go on at.
pub fn gather<D: Depot>(
    form: &Form,
    piece: &mut Piece,
    depot: &mut D,
    name: &str,
    start: u64,
    place: u32,
    rows: u32,
    most: u32,
    batch: &mut Batch,
) -> Result<u32, Failed>
    requires place { place + piece.old.rows ≤ rows }
    requires few { rows ≤ 1_000_000 }
    requires narrow { form.now.width ≤ 1560 }
    requires start { start < 2 ^ 63 }
    requires ended { is_ended (form_view form.now) ≡ true }
    requires room { HasRoom (form_view form.now) most batch.old }
    requires fits { HasFit form.now.width piece.old }
    ensures cause { HasCause (D.faults depot.old) (D.faults depot.new) result }
    ensures appends { D.append_faults depot.new ≡ D.append_faults depot.old }
    ensures same { D.contents depot.new ≡ D.contents depot.old }
    ensures goes_well { D.sure depot.old name.now → is_ok result ≡ true }
    ensures stays_sure { D.sure depot.old name.now → D.sure depot.new name.now }
    ensures room { HasRoom (form_view form.now) most batch.new }
    ensures fits { HasFit form.now.width piece.new }
    ensures none { IfErr result (λ _. piece.new.rows ≡ 0) }
    ensures goes_on { IfOk result (λ next. place ≤ next) }
    ensures sparse { IfOk result (λ next. batch.new.rows + place ≤ batch.old.rows + next) }
    ensures within { IfOk result (λ next. next + piece.new.rows ≤ rows) }
    ensures stops { IfOk result (λ next. next < rows → batch.new.rows ≡ most) }
    ensures ahead { IfOk result (λ next. (file : List ℕ) → file_of (D.contents depot.old) name.now ≡ Some file
        → IsAhead form.now.width piece.old file start place → IsAhead form.now.width piece.new file start next) }
    ensures gathered { IfOk result (λ next. (file : List ℕ) (all : List RowCells) → file_of (D.contents depot.old) name.now ≡ Some file
        → IsAhead form.now.width piece.old file start place
        → Gathered all batch.old.rows batch.old.bytes.items (replies_at (form_view form.now) file start place (rows - place))
        → Gathered all batch.new.rows batch.new.bytes.items (replies_at (form_view form.now) file start next (rows - next))) }
{
    let mut next = place;
    'pieces: while next < rows && batch.rows < most {
        next = gather_piece(form, piece, depot, name, start, next, rows, most, batch)?;
    }
    Ok(next)
}
