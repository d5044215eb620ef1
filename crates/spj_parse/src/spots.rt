//! Where a text was read to, and where a token leads from there.

ghost use Rattle.std.specs.Prelude.{◌≡◌, option_map};
ghost use Rattle.ghost_model.specs.readings.QueryPlaces as places;
ghost use Rattle.tree_schema.specs.Marks.{symbol_of};
ghost use Rattle.ghost_base.specs.Views.{operator_of};
ghost use Rattle.spj_parse.specs.Items as items;
ghost use Rattle.spj_parse.specs.Drafts.{bounds_part_of, column_of, column_part_of, condition_part_of, literal_of, member_part_of, member_turn_of, piece_of, spot_of, test_text_of, turn_of};
ghost use Rattle.ghost_model.specs.refusals.Tokens as tokens;

use crate::drafts::{ColumnDraft, Item, LiteralDraft, PieceDraft, Sign, TestDraft};
use ghost_base::Operator;
use tree_schema::{Mark, Token};

/// A place within a selected column.
#[derive(Clone, Copy)]
pub(crate) enum ColumnPart<'a> {
    WantsColumn,
    HasTablePoint(&'a [u8]),
    HasColumn(ColumnDraft<'a>),
}

/// A place within a member of a condition that is not whole yet. `HasIs` says whether NOT stands behind IS. Of an IN there
/// is the literal at hand alone.
#[derive(Clone, Copy)]
pub(crate) enum MemberPart<'a> {
    WantsLeft,
    HasLeftPoint(&'a [u8]),
    HasLeft(ColumnDraft<'a>),
    HasOperator(ColumnDraft<'a>, Operator),
    HasSign(ColumnDraft<'a>, Operator, Sign),
    HasIs(ColumnDraft<'a>, bool),
    HasIn(ColumnDraft<'a>),
    WantsListed(ColumnDraft<'a>),
    HasListedSign(ColumnDraft<'a>, Sign),
    HasListed(ColumnDraft<'a>, LiteralDraft<'a>),
}

/// A place behind BETWEEN.
#[derive(Clone, Copy)]
pub(crate) enum BoundsPart<'a> {
    WantsLow(ColumnDraft<'a>),
    HasLowSign(ColumnDraft<'a>, Sign),
    HasLow(ColumnDraft<'a>, LiteralDraft<'a>),
    WantsHigh(ColumnDraft<'a>, LiteralDraft<'a>),
    HasHighSign(ColumnDraft<'a>, LiteralDraft<'a>, Sign),
}

/// A place within a condition: in a member that stands alone, in a member of a group or behind one, `true` for the group's
/// first, between two literals, in a join, or behind what may stand as it is.
#[derive(Clone, Copy)]
pub(crate) enum ConditionPart<'a> {
    InMember(MemberPart<'a>),
    InGroup(bool, MemberPart<'a>),
    HasGrouped(bool, TestDraft<'a>),
    InBounds(BoundsPart<'a>),
    HasRightPoint(ColumnDraft<'a>, &'a [u8]),
    HasPiece(PieceDraft<'a>),
}

/// A place within a text. `InSelect` says whether the select list has just begun.
#[derive(Clone, Copy)]
pub(crate) enum Spot<'a> {
    Start,
    HasStar,
    InSelect(bool, ColumnPart<'a>),
    WantsTable,
    HasTable(&'a [u8]),
    InWhere(ConditionPart<'a>),
    Whole,
}

/// What a token does: it leads to another place, perhaps with a thing that has come to its end, or nowhere.
#[derive(Clone, Copy)]
pub(crate) enum Turn<'a> {
    Goes(Spot<'a>),
    Gives(Item<'a>, Spot<'a>),
    Stops,
}

/// What a token does within a member: the member goes on, it goes on past a test that has another one behind it, it is
/// whole with its last test, or the token leads nowhere.
#[derive(Clone, Copy)]
pub(crate) enum MemberTurn<'a> {
    GoesOn(MemberPart<'a>),
    Lists(TestDraft<'a>, MemberPart<'a>),
    IsWhole(TestDraft<'a>),
    Fails,
}

/// Where a token leads within a selected column.
fn step_in_column<'a>(part: ColumnPart<'a>, token: Token<'a>) -> Option<ColumnPart<'a>>
    ensures step { option_map column_part_of result ≡ places.step_in_column (symbol_of token.entry.mark token.entry.bytes.now) (column_part_of part.entry) }
{
    match part {
        ColumnPart::WantsColumn => match token.mark {
            Mark::Name => Some(ColumnPart::HasColumn(ColumnDraft::Bare(token.bytes))),
            _ => None,
        },
        ColumnPart::HasTablePoint(table) => match token.mark {
            Mark::Name => Some(ColumnPart::HasColumn(ColumnDraft::Qualified(table, token.bytes))),
            _ => None,
        },
        ColumnPart::HasColumn(column) => match column {
            ColumnDraft::Bare(name) => match token.mark {
                Mark::Point => Some(ColumnPart::HasTablePoint(name)),
                _ => None,
            },
            ColumnDraft::Qualified(_, _) => None,
        },
    }
}

/// Within the select list, that a token goes on there, or leads nowhere.
fn on_in_select<'a>(first: bool, next: Option<ColumnPart<'a>>) -> Turn<'a>
    ensures turn { turn_of result ≡ items.in_select first (option_map column_part_of next.entry) }
{
    match next {
        Some(part) => Turn::Goes(Spot::InSelect(first, part)),
        None => Turn::Stops,
    }
}

/// What a token does within the select list.
fn turn_in_select<'a>(first: bool, part: ColumnPart<'a>, token: Token<'a>) -> Turn<'a>
    ensures turn { turn_of result ≡ items.turn_in_select (symbol_of token.entry.mark token.entry.bytes.now) (column_part_of part.entry) first }
{
    match part {
        ColumnPart::HasColumn(column) => match token.mark {
            Mark::Comma => Turn::Gives(
                Item::Selected(column),
                Spot::InSelect(false, ColumnPart::WantsColumn),
            ),
            Mark::From => Turn::Gives(Item::Selected(column), Spot::WantsTable),
            _ => on_in_select(first, step_in_column(part, token)),
        },
        ColumnPart::WantsColumn => match token.mark {
            Mark::Star => if first {
                Turn::Goes(Spot::HasStar)
            } else {
                Turn::Stops
            },
            _ => on_in_select(first, step_in_column(part, token)),
        },
        ColumnPart::HasTablePoint(_) => on_in_select(first, step_in_column(part, token)),
    }
}

/// What a token does after the first column of a member.
fn after_left<'a>(column: ColumnDraft<'a>, token: Token<'a>) -> MemberTurn<'a>
    ensures turn { member_turn_of result ≡ items.turn_in_member (symbol_of token.entry.mark token.entry.bytes.now) (items.HasLeft (column_of column.entry)) }
{
    match token.mark {
        Mark::Equal => MemberTurn::GoesOn(MemberPart::HasOperator(column, Operator::Equal)),
        Mark::Unequal => MemberTurn::GoesOn(MemberPart::HasOperator(column, Operator::Unequal)),
        Mark::Less => MemberTurn::GoesOn(MemberPart::HasOperator(column, Operator::Less)),
        Mark::AtMost => MemberTurn::GoesOn(MemberPart::HasOperator(column, Operator::AtMost)),
        Mark::More => MemberTurn::GoesOn(MemberPart::HasOperator(column, Operator::More)),
        Mark::AtLeast => MemberTurn::GoesOn(MemberPart::HasOperator(column, Operator::AtLeast)),
        Mark::Is => MemberTurn::GoesOn(MemberPart::HasIs(column, false)),
        Mark::In => MemberTurn::GoesOn(MemberPart::HasIn(column)),
        Mark::Point => match column {
            ColumnDraft::Bare(name) => MemberTurn::GoesOn(MemberPart::HasLeftPoint(name)),
            ColumnDraft::Qualified(_, _) => MemberTurn::Fails,
        },
        _ => MemberTurn::Fails,
    }
}

/// What a token does after an operator.
fn after_operator<'a>(
    column: ColumnDraft<'a>,
    operator: Operator,
    token: Token<'a>,
) -> MemberTurn<'a>
    ensures turn { member_turn_of result ≡ items.turn_in_member (symbol_of token.entry.mark token.entry.bytes.now) (items.HasOperator (column_of column.entry) (operator_of operator)) }
{
    match token.mark {
        Mark::Plus => MemberTurn::GoesOn(MemberPart::HasSign(column, operator, Sign::Positive)),
        Mark::Minus => MemberTurn::GoesOn(MemberPart::HasSign(column, operator, Sign::Negative)),
        Mark::Digits => MemberTurn::IsWhole(TestDraft::Compares(
            column,
            operator,
            LiteralDraft::Unsigned(token.bytes),
        )),
        Mark::Quoted => MemberTurn::IsWhole(TestDraft::Compares(
            column,
            operator,
            LiteralDraft::Written(token.bytes),
        )),
        _ => MemberTurn::Fails,
    }
}

/// What a token does after IS, or after IS NOT.
fn after_is<'a>(column: ColumnDraft<'a>, negated: bool, token: Token<'a>) -> MemberTurn<'a>
    ensures turn { member_turn_of result ≡ items.turn_in_member (symbol_of token.entry.mark token.entry.bytes.now) (items.HasIs (column_of column.entry) negated) }
{
    match token.mark {
        Mark::Not => if negated {
            MemberTurn::Fails
        } else {
            MemberTurn::GoesOn(MemberPart::HasIs(column, true))
        },
        Mark::Null => MemberTurn::IsWhole(TestDraft::TestsNull(column, negated)),
        _ => MemberTurn::Fails,
    }
}

/// What a token does where an IN wants a literal.
fn at_listed<'a>(column: ColumnDraft<'a>, token: Token<'a>) -> MemberTurn<'a>
    ensures turn { member_turn_of result ≡ items.turn_in_member (symbol_of token.entry.mark token.entry.bytes.now) (items.WantsListed (column_of column.entry)) }
{
    match token.mark {
        Mark::Plus => MemberTurn::GoesOn(MemberPart::HasListedSign(column, Sign::Positive)),
        Mark::Minus => MemberTurn::GoesOn(MemberPart::HasListedSign(column, Sign::Negative)),
        Mark::Digits => MemberTurn::GoesOn(MemberPart::HasListed(
            column,
            LiteralDraft::Unsigned(token.bytes),
        )),
        Mark::Quoted => MemberTurn::GoesOn(MemberPart::HasListed(
            column,
            LiteralDraft::Written(token.bytes),
        )),
        _ => MemberTurn::Fails,
    }
}

/// What a token does after a literal of an IN.
fn after_listed<'a>(
    column: ColumnDraft<'a>,
    literal: LiteralDraft<'a>,
    token: Token<'a>,
) -> MemberTurn<'a>
    ensures turn { member_turn_of result ≡ items.turn_in_member (symbol_of token.entry.mark token.entry.bytes.now) (items.HasListed (column_of column.entry) (literal_of literal.entry)) }
{
    let test = TestDraft::Compares(column, Operator::Equal, literal);
    match token.mark {
        Mark::Comma => MemberTurn::Lists(test, MemberPart::WantsListed(column)),
        Mark::Closing => MemberTurn::IsWhole(test),
        _ => MemberTurn::Fails,
    }
}

/// What a token does within a member.
fn turn_in_member<'a>(part: MemberPart<'a>, token: Token<'a>) -> MemberTurn<'a>
    ensures turn { member_turn_of result ≡ items.turn_in_member (symbol_of token.entry.mark token.entry.bytes.now) (member_part_of part.entry) }
{
    match part {
        MemberPart::WantsLeft => match token.mark {
            Mark::Name => MemberTurn::GoesOn(MemberPart::HasLeft(ColumnDraft::Bare(token.bytes))),
            _ => MemberTurn::Fails,
        },
        MemberPart::HasLeftPoint(table) => match token.mark {
            Mark::Name => {
                MemberTurn::GoesOn(MemberPart::HasLeft(ColumnDraft::Qualified(table, token.bytes)))
            }
            _ => MemberTurn::Fails,
        },
        MemberPart::HasLeft(column) => after_left(column, token),
        MemberPart::HasOperator(column, operator) => after_operator(column, operator, token),
        MemberPart::HasSign(column, operator, sign) => match token.mark {
            Mark::Digits => MemberTurn::IsWhole(TestDraft::Compares(
                column,
                operator,
                LiteralDraft::Signed(sign, token.bytes),
            )),
            _ => MemberTurn::Fails,
        },
        MemberPart::HasIs(column, negated) => after_is(column, negated, token),
        MemberPart::HasIn(column) => match token.mark {
            Mark::Open => MemberTurn::GoesOn(MemberPart::WantsListed(column)),
            _ => MemberTurn::Fails,
        },
        MemberPart::WantsListed(column) => at_listed(column, token),
        MemberPart::HasListedSign(column, sign) => match token.mark {
            Mark::Digits => MemberTurn::GoesOn(MemberPart::HasListed(
                column,
                LiteralDraft::Signed(sign, token.bytes),
            )),
            _ => MemberTurn::Fails,
        },
        MemberPart::HasListed(column, literal) => after_listed(column, literal, token),
    }
}

/// What the turn of a member that stands alone is.
fn alone<'a>(turn: MemberTurn<'a>) -> Turn<'a>
    ensures turn { turn_of result ≡ items.alone (member_turn_of turn.entry) }
{
    match turn {
        MemberTurn::GoesOn(part) => Turn::Goes(Spot::InWhere(ConditionPart::InMember(part))),
        MemberTurn::Lists(test, part) => Turn::Gives(
            Item::Where(PieceDraft::Tests(test, true)),
            Spot::InWhere(ConditionPart::InMember(part)),
        ),
        MemberTurn::IsWhole(test) => Turn::Goes(Spot::InWhere(ConditionPart::HasPiece(
            PieceDraft::Tests(test, false),
        ))),
        MemberTurn::Fails => Turn::Stops,
    }
}

/// What the turn of a member of a group is.
fn grouped<'a>(first: bool, turn: MemberTurn<'a>) -> Turn<'a>
    ensures turn { turn_of result ≡ items.grouped first (member_turn_of turn.entry) }
{
    match turn {
        MemberTurn::GoesOn(part) => Turn::Goes(Spot::InWhere(ConditionPart::InGroup(first, part))),
        MemberTurn::Lists(test, part) => Turn::Gives(
            Item::Where(PieceDraft::Tests(test, true)),
            Spot::InWhere(ConditionPart::InGroup(first, part)),
        ),
        MemberTurn::IsWhole(test) => {
            Turn::Goes(Spot::InWhere(ConditionPart::HasGrouped(first, test)))
        }
        MemberTurn::Fails => Turn::Stops,
    }
}

/// Where a token leads if a condition that begins as a member does is something else.
fn otherwise<'a>(part: MemberPart<'a>, token: Token<'a>) -> Option<ConditionPart<'a>>
    ensures part { option_map condition_part_of result ≡ items.otherwise (symbol_of token.entry.mark token.entry.bytes.now) (member_part_of part.entry) }
{
    match part {
        MemberPart::WantsLeft => match token.mark {
            Mark::Open => Some(ConditionPart::InGroup(true, MemberPart::WantsLeft)),
            _ => None,
        },
        MemberPart::HasLeft(column) => match token.mark {
            Mark::Between => Some(ConditionPart::InBounds(BoundsPart::WantsLow(column))),
            _ => None,
        },
        MemberPart::HasOperator(column, operator) => match operator {
            Operator::Equal => match token.mark {
                Mark::Name => Some(ConditionPart::HasPiece(PieceDraft::Joins(
                    column,
                    ColumnDraft::Bare(token.bytes),
                ))),
                _ => None,
            },
            _ => None,
        },
        _ => None,
    }
}

/// What a token does in a condition that begins as a member does.
fn turn_alone<'a>(part: MemberPart<'a>, token: Token<'a>) -> Turn<'a>
    ensures turn { turn_of result ≡ items.turn_in_where (symbol_of token.entry.mark token.entry.bytes.now) (items.InMember (member_part_of part.entry)) }
{
    match otherwise(part, token) {
        Some(next) => Turn::Goes(Spot::InWhere(next)),
        None => alone(turn_in_member(part, token)),
    }
}

/// That a token leads to another place behind BETWEEN.
fn on_in_bounds<'a>(part: BoundsPart<'a>) -> Turn<'a>
    ensures turn { turn_of result ≡ items.Goes (items.InWhere (items.InBounds (bounds_part_of part.entry))) }
{
    Turn::Goes(Spot::InWhere(ConditionPart::InBounds(part)))
}

/// What a token does behind the whole of a BETWEEN.
fn has_bounds<'a>(
    column: ColumnDraft<'a>,
    low: LiteralDraft<'a>,
    high: LiteralDraft<'a>,
) -> Turn<'a>
    ensures turn { turn_of result ≡ items.Goes (items.InWhere (items.HasPiece (items.LiesBetween (column_of column.entry) (literal_of low.entry) (literal_of high.entry)))) }
{
    Turn::Goes(Spot::InWhere(ConditionPart::HasPiece(PieceDraft::LiesBetween(column, low, high))))
}

/// What a token does after BETWEEN.
fn after_between<'a>(column: ColumnDraft<'a>, token: Token<'a>) -> Turn<'a>
    ensures turn { turn_of result ≡ items.turn_in_bounds (symbol_of token.entry.mark token.entry.bytes.now) (items.WantsLow (column_of column.entry)) }
{
    match token.mark {
        Mark::Plus => on_in_bounds(BoundsPart::HasLowSign(column, Sign::Positive)),
        Mark::Minus => on_in_bounds(BoundsPart::HasLowSign(column, Sign::Negative)),
        Mark::Digits => on_in_bounds(BoundsPart::HasLow(
            column,
            LiteralDraft::Unsigned(token.bytes),
        )),
        Mark::Quoted => on_in_bounds(BoundsPart::HasLow(
            column,
            LiteralDraft::Written(token.bytes),
        )),
        _ => Turn::Stops,
    }
}

/// What a token does after the AND of a BETWEEN.
fn after_low<'a>(column: ColumnDraft<'a>, low: LiteralDraft<'a>, token: Token<'a>) -> Turn<'a>
    ensures turn { turn_of result ≡ items.turn_in_bounds (symbol_of token.entry.mark token.entry.bytes.now) (items.WantsHigh (column_of column.entry) (literal_of low.entry)) }
{
    match token.mark {
        Mark::Plus => on_in_bounds(BoundsPart::HasHighSign(column, low, Sign::Positive)),
        Mark::Minus => on_in_bounds(BoundsPart::HasHighSign(column, low, Sign::Negative)),
        Mark::Digits => has_bounds(column, low, LiteralDraft::Unsigned(token.bytes)),
        Mark::Quoted => has_bounds(column, low, LiteralDraft::Written(token.bytes)),
        _ => Turn::Stops,
    }
}

/// What a token does behind BETWEEN.
fn turn_in_bounds<'a>(part: BoundsPart<'a>, token: Token<'a>) -> Turn<'a>
    ensures turn { turn_of result ≡ items.turn_in_bounds (symbol_of token.entry.mark token.entry.bytes.now) (bounds_part_of part.entry) }
{
    match part {
        BoundsPart::WantsLow(column) => after_between(column, token),
        BoundsPart::HasLowSign(column, sign) => match token.mark {
            Mark::Digits => on_in_bounds(BoundsPart::HasLow(
                column,
                LiteralDraft::Signed(sign, token.bytes),
            )),
            _ => Turn::Stops,
        },
        BoundsPart::HasLow(column, low) => match token.mark {
            Mark::And => on_in_bounds(BoundsPart::WantsHigh(column, low)),
            _ => Turn::Stops,
        },
        BoundsPart::WantsHigh(column, low) => after_low(column, low, token),
        BoundsPart::HasHighSign(column, low, sign) => match token.mark {
            Mark::Digits => has_bounds(column, low, LiteralDraft::Signed(sign, token.bytes)),
            _ => Turn::Stops,
        },
    }
}

/// What a token does behind a member of a group; one that is alone there cannot be closed.
fn turn_in_group<'a>(first: bool, test: TestDraft<'a>, token: Token<'a>) -> Turn<'a>
    ensures turn { turn_of result ≡ items.turn_in_group (symbol_of token.entry.mark token.entry.bytes.now) first (test_text_of test.entry) }
{
    match token.mark {
        Mark::Or => Turn::Gives(
            Item::Where(PieceDraft::Tests(test, true)),
            Spot::InWhere(ConditionPart::InGroup(false, MemberPart::WantsLeft)),
        ),
        Mark::Closing => if first {
            Turn::Stops
        } else {
            Turn::Goes(Spot::InWhere(ConditionPart::HasPiece(PieceDraft::Tests(test, false))))
        },
        _ => Turn::Stops,
    }
}

/// What a point does behind what may stand as it is: a table's name in a join may have its column behind it.
fn at_point<'a>(piece: PieceDraft<'a>) -> Turn<'a>
    ensures turn { turn_of result ≡ items.turn_behind tokens.Point (piece_of piece.entry) }
{
    match piece {
        PieceDraft::Joins(left, right) => match right {
            ColumnDraft::Bare(table) => {
                Turn::Goes(Spot::InWhere(ConditionPart::HasRightPoint(left, table)))
            }
            ColumnDraft::Qualified(_, _) => Turn::Stops,
        },
        PieceDraft::Tests(_, _) => Turn::Stops,
        PieceDraft::LiesBetween(_, _, _) => Turn::Stops,
    }
}

/// What a token does behind what may stand as it is.
fn turn_behind<'a>(piece: PieceDraft<'a>, token: Token<'a>) -> Turn<'a>
    ensures turn { turn_of result ≡ items.turn_behind (symbol_of token.entry.mark token.entry.bytes.now) (piece_of piece.entry) }
{
    match token.mark {
        Mark::And => Turn::Gives(
            Item::Where(piece),
            Spot::InWhere(ConditionPart::InMember(MemberPart::WantsLeft)),
        ),
        Mark::End => Turn::Gives(Item::Where(piece), Spot::Whole),
        Mark::Point => at_point(piece),
        _ => Turn::Stops,
    }
}

/// What a token does behind the point of a join's second column.
fn turn_at_right<'a>(left: ColumnDraft<'a>, table: &'a [u8], token: Token<'a>) -> Turn<'a>
    ensures turn { turn_of result ≡ items.turn_at_right (symbol_of token.entry.mark token.entry.bytes.now) (column_of left.entry) (tokens.in_lower_case table.now) }
{
    match token.mark {
        Mark::Name => Turn::Goes(Spot::InWhere(ConditionPart::HasPiece(PieceDraft::Joins(
            left,
            ColumnDraft::Qualified(table, token.bytes),
        )))),
        _ => Turn::Stops,
    }
}

/// What a token does behind WHERE.
fn turn_in_where<'a>(part: ConditionPart<'a>, token: Token<'a>) -> Turn<'a>
    ensures turn { turn_of result ≡ items.turn_in_where (symbol_of token.entry.mark token.entry.bytes.now) (condition_part_of part.entry) }
{
    match part {
        ConditionPart::InMember(part) => turn_alone(part, token),
        ConditionPart::InGroup(first, part) => grouped(first, turn_in_member(part, token)),
        ConditionPart::HasGrouped(first, test) => turn_in_group(first, test, token),
        ConditionPart::InBounds(part) => turn_in_bounds(part, token),
        ConditionPart::HasRightPoint(left, table) => turn_at_right(left, table, token),
        ConditionPart::HasPiece(piece) => turn_behind(piece, token),
    }
}

/// What a token does at a place of a text.
pub(crate) fn follow<'a>(spot: Spot<'a>, token: Token<'a>) -> Turn<'a>
    ensures turn { turn_of result ≡ items.turn (spot_of spot.entry) (symbol_of token.entry.mark token.entry.bytes.now) }
{
    match spot {
        Spot::Start => match token.mark {
            Mark::Select => Turn::Goes(Spot::InSelect(true, ColumnPart::WantsColumn)),
            _ => Turn::Stops,
        },
        Spot::HasStar => match token.mark {
            Mark::From => Turn::Gives(Item::Star, Spot::WantsTable),
            _ => Turn::Stops,
        },
        Spot::InSelect(first, part) => turn_in_select(first, part, token),
        Spot::WantsTable => match token.mark {
            Mark::Name => Turn::Goes(Spot::HasTable(token.bytes)),
            _ => Turn::Stops,
        },
        Spot::HasTable(table) => match token.mark {
            Mark::Comma => Turn::Gives(Item::From(table), Spot::WantsTable),
            Mark::Where => Turn::Gives(
                Item::From(table),
                Spot::InWhere(ConditionPart::InMember(MemberPart::WantsLeft)),
            ),
            Mark::End => Turn::Gives(Item::From(table), Spot::Whole),
            _ => Turn::Stops,
        },
        Spot::InWhere(part) => turn_in_where(part, token),
        Spot::Whole => Turn::Stops,
    }
}
