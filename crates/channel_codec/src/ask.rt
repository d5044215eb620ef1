//! What the key asks the host for: one table, some of its columns, and conditions that the rows meet.

ghost use Rattle.std.specs.Prelude.{◌≡◌, ◌≤◌, ◌+◌, ◌++◌, ◌*◌, true, [], ◌∷◌, length, map, take, drop, flat_map, nat_lt, nat_le, ◌&&◌, IsTrue};
ghost use Rattle.std.specs.List.{list_all};
ghost use Rattle.ghost_model.specs.core.Asks as asks;
ghost use Rattle.ghost_model.specs.forms.Cells as cells;
ghost use Rattle.ghost_model.specs.core.Schema as schemas;
ghost use Rattle.ghost_model.specs.core.Groups.{ends};
ghost use Rattle.ghost_base.specs.Views.{kind_of, operator_of, test_of};
ghost use Rattle.channel_codec.specs.AskViews.{test_view, ask_view, has_kind};

use crate::frame::{PAYLOAD_BYTES, put_at};
use arrayvec::ArrayVec;
use ghost_base::limits::{MAX_CELL, MAX_CHARS, MAX_COLUMNS, MAX_CONDITIONS};
use ghost_base::{Kind, Operator, Test, cell_width, encode_cell, is_of_kind};
use tree_schema::Schema;
use tree_schema::schema::schemas_are_trees;

/// A condition of an ask: a test of a column of its table. Of each group of conditions, which stand one after another, a row
/// meets one.
#[derive(Clone, Copy, Default)]
pub struct ColumnTest {
    /// The column, by its place in the table.
    pub column: u8,

    /// What is tested of the column's value.
    pub test: Test,

    /// Whether the next condition is of the same group.
    pub more: bool,
}

/// An ask. It is sent where it is proper (`is_proper`): its columns are visible and ascend, and each condition is a test of a
/// visible column, with a literal of the column's kind but for NULL where it has one. The last condition ends its group.
#[derive(Drop)]
pub struct Ask {
    /// The table, by its place in the schema.
    pub table: u8,

    /// The columns whose cells are wanted.
    pub columns: ArrayVec<u8, MAX_COLUMNS>,

    /// The conditions, of each group of which a row meets one.
    pub tests: ArrayVec<ColumnTest, MAX_CONDITIONS>,
}

/// The kind of a column; where there is no such column its cells have no bytes.
pub fn kind_at(schema: &Schema, table: usize, column: usize) -> Kind
    ensures kind { kind_of result ≡ asks.kind_at schema.now table column }
    ensures narrow { cells.cell_width (schemas.plain_of (kind_of result)) ≤ MAX_CHARS }
    ensures wide { cells.cell_width (kind_of result) ≤ MAX_CELL }
{
    let _ = schema.tables();
    schemas_are_trees();
    match schema.column(table, column) {
        None => Kind::Chars(0),
        Some(found) => found.kind,
    }
}

/// The byte of an operator, from 1 to 6.
fn operator_code(operator: Operator) -> u8
    ensures { result ≡ asks.operator_code (operator_of operator) }
{
    match operator {
        Operator::Equal => 1,
        Operator::Unequal => 2,
        Operator::Less => 3,
        Operator::AtMost => 4,
        Operator::More => 5,
        Operator::AtLeast => 6,
    }
}

/// The code of a test, from 1 to 8.
fn test_code(test: &Test) -> u8
    ensures code { result ≡ asks.test_code (test_of test.now) }
    ensures low { result ≤ 8 }
{
    match test {
        Test::Compared(operator, _) => operator_code(*operator),
        Test::IsNull => 7,
        Test::IsNotNull => 8,
    }
}

/// The byte of a condition's code: 128 is added where the next one is of its group.
fn code_byte(test: &ColumnTest) -> u8
    ensures code { result ≡ asks.code_byte (test_view test.now) }
{
    let code = test_code(&test.test);
    if test.more { code + 128 } else { code }
}

/// The bytes of a row of the reply to an ask: its identifier and the cells of the asked columns.
pub fn row_width(schema: &Schema, ask: &Ask) -> usize
    ensures width { result ≡ asks.row_width schema.now (ask_view ask.now) }
    ensures some { 4 ≤ result }
    ensures most { result ≤ 1564 }
{
    let mut width = 4;
    let mut rest = ask.columns.as_slice();
    'columns: while let Some((column, later)) = rest.split_first() {
        width += cell_width(kind_at(schema, ask.table as usize, *column as usize));
        rest = later;
    }
    width
}

/// Whether each of the columns is visible.
fn are_visible(schema: &Schema, table: usize, columns: &[u8]) -> bool
    ensures { result ≡ list_all (schemas.is_visible schema.now table) columns.now }
{
    columns
        .iter()
        .all(|&column| schema.is_visible(table, column as usize))
}

/// Whether each number is above the one before, and the first above 0.
fn ascend(columns: &[u8]) -> bool
    ensures { result ≡ asks.ascend_from 0 columns.now }
{
    let mut before = 0;
    let mut rest = columns;
    'columns: while let Some((column, later)) = rest.split_first() {
        if *column <= before {
            return false;
        }
        before = *column;
        rest = later;
    }
    true
}

/// Whether a condition is on a visible column.
fn is_visible(schema: &Schema, table: usize, test: &ColumnTest) -> bool
    ensures { result ≡ schemas.is_visible schema.now table test.now.column }
{
    schema.is_visible(table, test.column as usize)
}

/// Whether the literal of a condition, where there is one, is of the column's kind but for NULL.
fn fits_kind(schema: &Schema, table: usize, test: &ColumnTest) -> bool
    ensures { result ≡ has_kind schema.now table (test_view test.now) }
{
    match &test.test {
        Test::Compared(_, literal) => {
            is_of_kind(
                kind_at(schema, table, test.column as usize).plain(),
                literal,
            )
        }
        Test::IsNull | Test::IsNotNull => true,
    }
}

/// Whether the last condition ends its group.
fn end_their_group(tests: &[ColumnTest]) -> bool
    ensures ended { result ≡ ends (λ test. test.more) tests.now }
{
    let mut ended = true;
    let mut rest = tests;
    'tests: while let Some((test, later)) = rest.split_first() {
        ended = !test.more;
        rest = later;
    }
    ended
}

/// Whether each condition is on a visible column.
fn compare_visible(schema: &Schema, table: usize, tests: &[ColumnTest]) -> bool
    ensures { result ≡ list_all (λ test. schemas.is_visible schema.now table test.column) tests.now }
{
    tests.iter().all(|test| is_visible(schema, table, test))
}

/// Whether the literal of each condition is of its column's kind but for NULL.
fn fit_kinds(schema: &Schema, table: usize, tests: &[ColumnTest]) -> bool
    ensures { result ≡ list_all (λ test. has_kind schema.now table (test_view test)) tests.now }
{
    tests.iter().all(|test| fits_kind(schema, table, test))
}

/// Whether conditions are few, each is on a visible column with a literal that fits, and the last ends its group.
fn are_tests(schema: &Schema, table: usize, tests: &[ColumnTest]) -> bool
    ensures { result ≡ (nat_le (length tests.now) MAX_CONDITIONS
        && list_all (λ test. schemas.is_visible schema.now table test.column) tests.now
        && list_all (λ test. has_kind schema.now table (test_view test)) tests.now
        && ends (λ test. test.more) tests.now) }
{
    if tests.len() > MAX_CONDITIONS || !compare_visible(schema, table, tests) {
        return false;
    }
    fit_kinds(schema, table, tests) && end_their_group(tests)
}

/// Whether the table is there, and the columns are visible and ascend.
fn are_columns(schema: &Schema, table: usize, columns: &[u8]) -> bool
    ensures { result ≡ (nat_lt table (length schema.now) && list_all (schemas.is_visible schema.now table) columns.now
        && asks.ascend_from 0 columns.now) }
{
    table < schema.tables() && are_visible(schema, table, columns) && ascend(columns)
}

/// Whether an ask is one that a key may send.
pub fn is_proper(schema: &Schema, ask: &Ask) -> bool
    ensures { result ≡ asks.is_proper_ask schema.now (ask_view ask.now) }
{
    let table = ask.table as usize;
    let columns = are_columns(schema, table, &ask.columns);
    let tests = are_tests(schema, table, &ask.tests);
    columns && tests
}

/// Writes the cell of a literal at a place, if there is one, and answers where it ends.
fn put_literal(kind: Kind, test: &Test, at: usize, out: &mut [u8]) -> usize
    requires kind { asks.fits_kind (kind_of kind) (test_of test.now) ≡ true }
    requires narrow { cells.cell_width (schemas.plain_of (kind_of kind)) ≤ MAX_CHARS }
    requires room { at + MAX_CHARS ≤ length out.old }
    ensures bytes { take result out.new ≡ take at out.old ++ asks.literal_cell (kind_of kind) (test_of test.now) }
    ensures rest { drop result out.new ≡ drop result out.old }
    ensures end { result ≡ at + length (asks.literal_cell (kind_of kind) (test_of test.now)) }
    ensures short { result ≤ at + MAX_CHARS }
{
    let Test::Compared(_, literal) = test else {
        return at;
    };
    let plain = kind.plain();
    let width = cell_width(plain);
    let mut places = [0; MAX_CHARS];
    let cell = &mut places[..width];
    encode_cell(plain, literal, cell);
    put_at(out, at, cell);
    at + width
}

/// Writes a condition at a place, and answers where it ends.
fn put_test(schema: &Schema, table: usize, test: &ColumnTest, at: usize, out: &mut [u8]) -> usize
    requires kind { has_kind schema.now table (test_view test.now) ≡ true }
    requires room { at + 66 ≤ length out.old }
    ensures bytes { take result out.new ≡ take at out.old ++ asks.test_bytes schema.now table (test_view test.now) }
    ensures rest { drop result out.new ≡ drop result out.old }
    ensures end { result ≡ at + length (asks.test_bytes schema.now table (test_view test.now)) }
    ensures short { result ≤ at + 66 }
{
    let kind = kind_at(schema, table, test.column as usize);
    put_at(out, at, &[test.column, code_byte(test)]);
    put_literal(kind, &test.test, at + 2, out)
}

/// Writes conditions at a place, and answers where they end.
fn put_tests(
    schema: &Schema,
    table: usize,
    tests: &[ColumnTest],
    at: usize,
    out: &mut [u8],
) -> usize
    requires kinds { list_all (has_kind schema.now table) (map test_view tests.now) ≡ true }
    requires room { at + 66 * length tests.now ≤ length out.old }
    ensures bytes { take result out.new ≡ take at out.old ++ flat_map (asks.test_bytes schema.now table) (map test_view tests.now) }
    ensures rest { drop result out.new ≡ drop result out.old }
    ensures end { result ≡ at + length (flat_map (asks.test_bytes schema.now table) (map test_view tests.now)) }
    ensures within { result ≤ at + 66 * length tests.now }
{
    let mut end = at;
    let mut rest = tests;
    'tests: while let Some((test, later)) = rest.split_first() {
        end = put_test(schema, table, test, end, out);
        rest = later;
    }
    end
}

/// Writes the payload of an ask, which is proper (`is_proper`), over the front of `out`, and answers how many bytes it
/// has. The bytes behind it stay.
pub fn put_ask(schema: &Schema, ask: &Ask, out: &mut [u8; PAYLOAD_BYTES]) -> usize
    requires proper { asks.is_proper_ask schema.now (ask_view ask.now) ≡ true }
    ensures bytes { take result out.new ≡ asks.ask_payload schema.now (ask_view ask.now) }
    ensures count { result ≡ length (asks.ask_payload schema.now (ask_view ask.now)) }
    ensures most { result ≤ 1083 }
    ensures rest { drop result out.new ≡ drop result out.old }
{
    let columns = ask.columns.len();
    put_at(out, 0, &[ask.table, columns as u8]);
    put_at(out, 2, &ask.columns);
    put_at(out, 2 + columns, &[ask.tests.len() as u8]);
    put_tests(schema, ask.table as usize, &ask.tests, 3 + columns, out)
}
