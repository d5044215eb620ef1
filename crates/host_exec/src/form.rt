//! An ask over the bytes of rows: where the asked cells stand, and the conditions with their literals' cells.

ghost use Rattle.std.specs.Prelude.{◌≡◌, ◌≤◌, ◌<◌, ◌+◌, ◌-◌, ◌*◌, true, length, map, take, drop, IsTrue};
ghost use Rattle.std.specs.List.{list_all};
ghost use Rattle.ghost_model.specs.core.Asks as asks;
ghost use Rattle.ghost_model.specs.core.Schema as schemas;
ghost use Rattle.ghost_model.specs.forms.Cells as cells;
ghost use Rattle.ghost_base.specs.Views.{kind_of, test_of};
ghost use Rattle.channel_codec.specs.AskViews.{test_view, ask_view, has_kind};
ghost use Rattle.host_exec.specs.RowBytes as rows;
ghost use Rattle.host_exec.specs.FormViews.{span_view, cell_test_view, check_view, form_view};

use arrayvec::ArrayVec;
use channel_codec::ask::{Ask, ColumnTest, kind_at};
use ghost_base::limits::{MAX_CELL, MAX_CHARS, MAX_COLUMNS, MAX_CONDITIONS};
use ghost_base::{Kind, Operator, Test, cell_width, encode_cell};
use tree_schema::Schema;
use tree_schema::schema::schemas_are_trees;

/// Where a cell stands in a row of the file.
#[derive(Clone, Copy, Default)]
pub struct Span {
    /// How many bytes of the row stand before it.
    pub at: usize,

    /// How many bytes it has.
    pub size: usize,
}

/// What is tested of a cell.
#[derive(Clone, Copy)]
pub enum CellTest {
    /// That an operator holds between its value and a literal with this plain cell, which has as many bytes as the plain cells
    /// of the column.
    Compared(Operator, [u8; MAX_CHARS]),

    /// That the value is NULL.
    IsNull,

    /// That it is not NULL.
    IsNotNull,
}

/// A condition on the bytes of a row.
#[derive(Clone, Copy)]
pub struct Check {
    /// Where the column's cell stands.
    pub span: Span,

    /// Whether the column may be NULL: then a flag stands before the plain cell.
    pub nullable: bool,

    /// What is tested of the cell.
    pub tested: CellTest,

    /// Whether the next condition is of the same group.
    pub more: bool,
}

impl Default for Check {
    ghost use Rattle.std.specs.Prelude.{⊤};

    ghost is_default = { λ _. ⊤ };

    fn default() -> Check {
        Check {
            span: Span { at: 0, size: 0 },
            nullable: false,
            tested: CellTest::IsNull,
            more: false,
        }
    }
}

/// An ask over the bytes of rows.
#[derive(Drop)]
pub struct Form {
    /// How many bytes a row has in the file.
    pub width: usize,

    /// Where the asked cells stand.
    pub columns: ArrayVec<Span, MAX_COLUMNS>,

    /// The conditions, of each group of which a row meets one.
    pub checks: ArrayVec<Check, MAX_CONDITIONS>,
}

/// How many bytes a column has in a row of the file.
fn shown_width(schema: &Schema, table: usize, column: usize) -> usize
    ensures width { result ≡ rows.width_or_none (schemas.column_at schema.now table column) }
    ensures narrow { result ≤ MAX_CELL }
{
    let _ = schema.tables();
    schemas_are_trees();
    match schema.column(table, column) {
        None => 0,
        Some(found) => {
            if found.hidden {
                0
            } else {
                cell_width(found.kind)
            }
        }
    }
}

/// How many bytes stand in a row of the file before a column.
fn width_before(schema: &Schema, table: usize, column: usize) -> usize
    requires few { column ≤ 256 }
    ensures width { result ≡ rows.width_before (rows.data_columns schema.now table) (column - 1) }
    ensures narrow { result ≤ 65 * column }
{
    let mut width = 0;
    for at in 1..column {
        width += shown_width(schema, table, at);
    }
    width
}

/// Where the cell of a visible column stands in a row of the file.
fn span_of(schema: &Schema, table: usize, column: u8) -> Span
    ensures span { span_view result ≡ rows.span_of schema.now table column }
    ensures narrow { result.size ≤ MAX_CELL }
{
    let at = width_before(schema, table, column as usize);
    let size = cell_width(kind_at(schema, table, column as usize));
    Span { at, size }
}

/// A test of a column of a kind as one of its cell.
fn cell_test_of(kind: Kind, test: &Test) -> CellTest
    requires kind { asks.fits_kind (kind_of kind) (test_of test.now) ≡ true }
    requires narrow { cells.cell_width (schemas.plain_of (kind_of kind)) ≤ MAX_CHARS }
    ensures { cell_test_view (cells.cell_width (schemas.plain_of (kind_of kind))) result
        ≡ rows.cell_test (kind_of kind) (test_of test.now) }
{
    match test {
        Test::Compared(operator, value) => {
            let plain = kind.plain();
            let width = cell_width(plain);
            let mut literal = [0; MAX_CHARS];
            encode_cell(plain, value, &mut literal[..width]);
            CellTest::Compared(*operator, literal)
        }
        Test::IsNull => CellTest::IsNull,
        Test::IsNotNull => CellTest::IsNotNull,
    }
}

/// A condition of an ask over the bytes of rows.
fn check_of(schema: &Schema, table: usize, test: &ColumnTest) -> Check
    requires { has_kind schema.now table (test_view test.now) ≡ true }
    ensures { check_view result ≡ rows.test_of schema.now table (test_view test.now) }
{
    let kind = kind_at(schema, table, test.column as usize);
    Check {
        span: span_of(schema, table, test.column),
        nullable: kind.is_nullable(),
        tested: cell_test_of(kind, &test.test),
        more: test.more,
    }
}

/// Where the cells of some columns stand.
fn spans_of(schema: &Schema, table: usize, columns: &[u8]) -> ArrayVec<Span, MAX_COLUMNS>
    requires { length columns.now ≤ MAX_COLUMNS }
    ensures { map span_view result.items ≡ map (rows.span_of schema.now table) columns.now }
{
    let mut spans = ArrayVec::new();
    let mut rest = columns;
    'columns: while let Some((column, later)) = rest.split_first() {
        spans.push(span_of(schema, table, *column));
        rest = later;
    }
    spans
}

/// Some conditions over the bytes of rows.
fn checks_of(schema: &Schema, table: usize, tests: &[ColumnTest]) -> ArrayVec<Check, MAX_CONDITIONS>
    requires few { length tests.now ≤ MAX_CONDITIONS }
    requires kinds { list_all (has_kind schema.now table) (map test_view tests.now) ≡ true }
    ensures { map check_view result.items ≡ map (rows.test_of schema.now table) (map test_view tests.now) }
{
    let mut checks = ArrayVec::new();
    let mut rest = tests;
    'tests: while let Some((test, later)) = rest.split_first() {
        let check = check_of(schema, table, test);
        checks.push(check);
        rest = later;
    }
    checks
}

/// How many bytes a row of a table has in the file.
pub fn row_width(schema: &Schema, table: usize) -> usize
    ensures width { result ≡ rows.row_width schema.now table }
    ensures narrow { result ≤ 1560 }
{
    let _ = schema.tables();
    schemas_are_trees();
    width_before(schema, table, schema.columns(table))
}

/// An ask, which is proper, over the bytes of rows.
pub fn form_of(schema: &Schema, ask: &Ask) -> Form
    requires { asks.is_proper_ask schema.now (ask_view ask.now) ≡ true }
    ensures form { form_view result ≡ rows.form_of schema.now (ask_view ask.now) }
    ensures ended { rows.is_ended (form_view result) ≡ true }
    ensures narrow { result.width ≤ 1560 }
{
    let table = ask.table as usize;
    Form {
        width: row_width(schema, table),
        columns: spans_of(schema, table, &ask.columns),
        checks: checks_of(schema, table, &ask.tests),
    }
}
