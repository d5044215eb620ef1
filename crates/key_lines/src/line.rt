//! A line while it is put together.

ghost use Rattle.std.specs.Prelude.{◌≡◌, ◌≤◌, ◌+◌, ◌*◌, ◌++◌, ◌∷◌, length, map, flat_map, decimal};
ghost use Rattle.arrayvec.specs.ArrayVec.{array_vec_len};
ghost use Rattle.ghost_base.specs.Views.{value_of};
ghost use Rattle.ghost_model.specs.core.Printed.{field_text, row_line, refusal_word};
ghost use Rattle.spj_parse.specs.Views.{refusal_of};
ghost use Rattle.key_lines.specs.Fields.{fields_text, later_field};

use arrayvec::ArrayVec;
use ghost_base::Value;
use itoa::Buffer;
use spj_parse::Refusal;

/// The most bytes of a line: 32 fields of 64 bytes, a tab between each two, and what stands around them.
pub const MAX_LINE: usize = 2_112;

/// A line of at most so many bytes.
pub type Line = ArrayVec<u8, MAX_LINE>;

/// Puts bytes at the end of a line that has room for them.
pub fn put(line: &mut Line, bytes: &[u8])
    requires room { array_vec_len line.old + length bytes.now ≤ 2112 }
    ensures items { line.new.items ≡ line.old.items ++ bytes.now }
    ensures len { array_vec_len line.new ≡ array_vec_len line.old + length bytes.now }
{
    let _ = line.try_extend_from_slice(bytes);
}

/// Puts a number at the end of a line, in decimal.
pub fn put_number(line: &mut Line, number: u64)
    requires room { array_vec_len line.old + 64 ≤ 2112 }
    ensures items { line.new.items ≡ line.old.items ++ decimal number }
    ensures len { array_vec_len line.new ≤ array_vec_len line.old + 64 }
{
    let mut digits = Buffer::new();
    put(line, digits.format(number).as_bytes());
}

/// Puts a value at the end of a line: an integer in decimal, a text as it is, and of NULL nothing.
pub fn put_field(line: &mut Line, value: &Value)
    requires room { array_vec_len line.old + 64 ≤ 2112 }
    ensures items { line.new.items ≡ line.old.items ++ field_text (value_of value.now) }
    ensures len { array_vec_len line.new ≤ array_vec_len line.old + 64 }
{
    match value {
        Value::Null => {}
        Value::Int(number) => {
            let mut digits = Buffer::new();
            put(line, digits.format(*number).as_bytes());
        }
        Value::Chars(text) => put(line, text.as_bytes()),
    }
}

/// Puts the values after the first one at the end of a line, a tab before each.
pub fn put_later_fields(line: &mut Line, values: &[Value])
    requires room { array_vec_len line.old + 65 * length values.now ≤ 2112 }
    ensures items { line.new.items ≡ line.old.items ++ flat_map later_field (map value_of values.now) }
    ensures len { array_vec_len line.new ≤ array_vec_len line.old + 65 * length values.now }
{
    for value in values {
        put(line, b"\t");
        put_field(line, value);
    }
}

/// Puts values at the end of a line, a tab between each two.
pub fn put_fields(line: &mut Line, values: &[Value])
    requires few { length values.now ≤ 32 }
    requires room { array_vec_len line.old ≤ 2 }
    ensures items { line.new.items ≡ line.old.items ++ fields_text (map value_of values.now) }
    ensures len { array_vec_len line.new ≤ array_vec_len line.old + 65 * length values.now }
{
    if let Some((first, later)) = values.split_first() {
        put_field(line, first);
        put_later_fields(line, later);
    }
}

/// Puts the line of a row in the place of what a line has.
pub fn put_row(line: &mut Line, values: &[Value])
    requires few { length values.now ≤ 32 }
    ensures items { line.new.items ≡ row_line (map value_of values.now) }
{
    line.clear();
    put(line, b"> ");
    put_fields(line, values);
    put(line, b"\n");
}

/// Puts the word of a refusal at the end of a line, and behind that of a syntax fault its offset.
pub fn put_refusal(line: &mut Line, refusal: &Refusal)
    requires room { array_vec_len line.old + 73 ≤ 2112 }
    ensures items { line.new.items ≡ line.old.items ++ refusal_word (refusal_of refusal.now) }
    ensures len { array_vec_len line.new ≤ array_vec_len line.old + 73 }
{
    match refusal {
        Refusal::Syntax { at } => {
            put(line, b"syntax ");
            put_number(line, *at as u64);
        }
        Refusal::Limit => put(line, b"limit"),
        Refusal::UnknownTable => put(line, b"table"),
        Refusal::UnknownColumn => put(line, b"column"),
        Refusal::Ambiguous => put(line, b"ambiguous"),
        Refusal::KindMismatch => put(line, b"kind"),
        Refusal::BadLiteral => put(line, b"literal"),
        Refusal::NotLinked => put(line, b"unlinked"),
        Refusal::MixedTables => put(line, b"mixed"),
    }
}
