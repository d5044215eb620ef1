//! Queries as values of a fixed size.

ghost use Rattle.std.specs.Prelude.{◌≡◌, ℕ, ◌≤◌, List, true, false, filter, is_none, length, map};
ghost use Rattle.ghost_model.specs.core.Groups.{ends};
ghost use Rattle.ghost_model.specs.core.Query.{top_of, members_in};
ghost use Rattle.spj_parse.specs.Resolved.{IsMeant, IsRead, is_group, is_join};
ghost use Rattle.spj_parse.specs.Views.{field_of, grouped, join_of, member_of, query_of, says_more};

use crate::links::top_among;
use arrayvec::ArrayVec;
use ghost_base::Test;
use ghost_base::limits::{MAX_CONDITIONS, MAX_SELECTED, MAX_TABLES};
use std::marker::Model;
use tree_schema::Schema;

/// A column of a table, both by their places in the schema.
#[derive(Clone, Copy, Default)]
pub struct Field {
    pub table: u8,
    pub column: u8,
}

/// A member of a group of conditions, of which one is to be true: a test of a column. The members of a group stand one after
/// another.
#[derive(Clone, Copy, Default)]
pub struct Member {
    /// The column.
    pub field: Field,

    /// What is tested of its value.
    pub test: Test,

    /// Whether the next member is of the same group.
    pub more: bool,
}

/// A join of a table with its parent: the parent's foreign key, and the table's identifier.
#[derive(Clone, Copy, Default)]
pub struct Join {
    pub key: Field,
    pub identifier: Field,
}

/// A query over a schema, which some text means. A clause sees it with each of its joins once, before its groups.
#[derive(Drop)]
pub struct Query {
    tables: ArrayVec<u8, MAX_TABLES>,
    fields: ArrayVec<Field, MAX_SELECTED>,
    joined: ArrayVec<Join, MAX_TABLES>,
    compared: ArrayVec<Member, MAX_CONDITIONS>,
}

impl Model for Query {
    ghost use Rattle.ghost_model.specs.core.Query as query;

    ghost Value = { query.Query };

    ghost use Rattle.std.specs.Prelude.{◌≡◌, true};
    ghost use Rattle.ghost_model.specs.core.Groups.{ends};
    ghost use Rattle.spj_parse.specs.Resolved.{IsRead};
    ghost use Rattle.spj_parse.specs.Views.{query_of, says_more};

    ghost view = { λ q. query_of q.tables.items q.fields.items q.joined.items q.compared.items };

    ghost invariant = { λ q. IsRead (query_of q.tables.items q.fields.items q.joined.items q.compared.items) × (ends says_more q.compared.items ≡ true) };
}

impl Query {
    /// The query of these parts, which some text means. The last member is the last of its group.
    pub(crate) fn of(
        tables: ArrayVec<u8, MAX_TABLES>,
        fields: ArrayVec<Field, MAX_SELECTED>,
        joined: ArrayVec<Join, MAX_TABLES>,
        compared: ArrayVec<Member, MAX_CONDITIONS>,
    ) -> Query
        requires read { IsRead (query_of tables.items fields.items joined.items compared.items) }
        requires ended { ends says_more compared.items ≡ true }
        ensures query { result ≡ query_of tables.items fields.items joined.items compared.items }
    {
        Query {
            tables,
            fields,
            joined,
            compared,
        }
    }

    /// The FROM tables by their places in the schema, in the order of the text.
    pub fn from(&self) -> &[u8]
        ensures tables { result.now ≡ self.now.from }
        ensures read { IsRead self.now }
        ensures few { length result.now ≤ MAX_TABLES }
    {
        self.tables.as_slice()
    }

    /// The selected columns, in the order of the text.
    pub fn select(&self) -> &[Field]
        ensures fields { map field_of result.now ≡ self.now.select }
        ensures few { length result.now ≤ MAX_SELECTED }
    {
        self.fields.as_slice()
    }

    /// The joins, each once.
    pub fn joins(&self) -> &[Join]
        ensures joins { map join_of result.now ≡ filter is_join self.now.conditions }
        ensures few { length result.now ≤ MAX_TABLES }
    {
        self.joined.as_slice()
    }

    /// The members of all groups, in the order of the text; BETWEEN is two groups.
    pub fn members(&self) -> &[Member]
        ensures members { map member_of result.now ≡ members_in self.now.conditions }
        ensures grouped { grouped (map member_of result.now) ≡ filter is_group self.now.conditions }
        ensures few { length result.now ≤ MAX_CONDITIONS }
    {
        self.compared.as_slice()
    }

    /// The top table over the schema: the one FROM table whose parent is not in FROM. Over the schema that its text was
    /// read over, there is one.
    pub fn top(&self, schema: &Schema) -> Option<u8>
        ensures top { result ≡ top_of schema.now self.now }
        ensures some { (text : List ℕ) → IsMeant schema.now text self.now → is_none result ≡ false }
    {
        ghost_model::query::one_reading();
        top_among(schema, self.tables.as_slice())
    }
}
