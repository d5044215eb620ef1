//! The kinds of columns.

ghost use Rattle.std.specs.Prelude.{◌≡◌};
ghost use Rattle.ghost_model.specs.core.Schema as schema;
ghost use Rattle.ghost_base.specs.Views.{kind_of};

/// What a column holds.
#[derive(Clone, Copy)]
pub enum Kind {
    /// 64-bit signed integers.
    Integer,

    /// Texts of at most so many bytes, from 1 to 64 in a schema.
    Chars(u8),

    /// 64-bit signed integers, and NULL.
    IntegerOrNull,

    /// Texts of at most so many bytes, from 1 to 64 in a schema, and NULL.
    CharsOrNull(u8),
}

impl Kind {
    /// The kind of the same values without NULL, which is that of the literals beside a column.
    pub fn plain(self) -> Kind
        ensures { kind_of result ≡ schema.plain_of (kind_of self) }
    {
        match self {
            Kind::Integer | Kind::IntegerOrNull => Kind::Integer,
            Kind::Chars(most) | Kind::CharsOrNull(most) => Kind::Chars(most),
        }
    }

    /// Whether NULL is of the kind.
    pub fn is_nullable(self) -> bool
        ensures { result ≡ schema.is_nullable (kind_of self) }
    {
        match self {
            Kind::Integer | Kind::Chars(_) => false,
            Kind::IntegerOrNull | Kind::CharsOrNull(_) => true,
        }
    }
}

impl Default for Kind {
    ghost use Rattle.ghost_base.specs.declared.kind.Kind.TheVariants.{Integer};

    ghost is_default = { λ kind. kind ≡ Integer };

    fn default() -> Self {
        Kind::Integer
    }
}
