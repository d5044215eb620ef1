//! Frames and asks in hexadecimal, both ways, as docs/CHANNEL.md gives them, and bytes that are none.

ghost use Rattle.std.specs.Prelude.{◌≡◌, ◌≤◌, true, length};
ghost use Rattle.ghost_model.specs.forms.Frames as frames;
ghost use Rattle.channel_codec.specs.Views.{frame_view};

use crate::clinic::{Bytes, add, add_number, bytes_of, part};
use channel_codec::ask::{Ask, is_proper, put_ask};
use channel_codec::asking::ask_of;
use channel_codec::frame::{FRAME_BYTES, Frame, PAYLOAD_BYTES, put_frame};
use channel_codec::reading::{Got, frame_of};
use ghost_base::value::Value;
use ghost_base::{Operator, Test};
use itoa::Buffer;
use tree_schema::read_schema;

/// What bytes amount to, with the serial and the number of a frame; the bytes before what it carries; and what it carries.
const FRAMES: &str = "hello 0 1: 01 02 0004 00000000 00000001
ask 1 0: 02 02 000e 00000001: 00 01 01 01 01 01 63617264696f0000
rows 1 0: 12 02 0018 00000001: 00000001 63617264696f0000 00000003 63617264696f0000
more 1 0: 03 02 0000 00000001
done 1 2: 13 02 0004 00000001 00000002
bye 0 0: 04 02 0000 00000000
sorry 1 1: 14 02 0001 00000001 01
ask 1 0: 02 02 0004 00000001: 02 01 01 00
done 1 0: 13 02 0004 00000001 00000000
ask 1 0: 02 02 000e 00000001: 02 01 01 01 01 06 8000000000000002
rows 1 0: 12 02 0030 00000001: 00000001 8000000000000005 00000002 8000000000000005 00000003 8000000000000009 00000004 8000000000000002
ask 1 0: 02 02 000d 00000001: 01 00 01 01 05 800000000000001e
rows 1 0: 12 02 0004 00000001: 00000002
ask 1 0: 02 02 000d 00000001: 01 00 01 01 06 0000000000000000
ask 1 0: 02 02 0009 00000001: 00 00 01 01 01 61000000
rows 1 0: 12 02 0008 00000001: 00000001 00000003
ask 2 0: 0202000e00000002: 00010101010163617264696f0000
rows 2 0: 1202001800000002: 0000000163617264696f00000000000363617264696f0000
more 2 0: 0302000000000002
done 2 2: 1302000400000002 00000002
welcome 0 1: 11 02 016e 00000000 01: CATALOG
rows 16909060 0: 12 02 0004 01020304: 05060708
short 0 8
short 0 3: 12 02 0018 00
short 0 4: 01 02 0004 00000000
short 0 366: 11 02 016e 00000000
short 0 1: 13 02 0004 00000001 000000
bad 0 3: 03 01 0000 00000001
bad 0 3: 03 03 0000 00000001
bad 0 1: 01 01 0004 00000000 00000001
bad 0 0: 00 02 0000 00000001
bad 0 5: 05 02 0000 00000001
bad 0 1: 01 02 0003 00000000
bad 0 1: 01 02 0004 00000001
bad 0 2: 02 02 0002 00000001
bad 0 2: 02 02 000e 00000000
bad 0 3: 03 02 0001 00000001
bad 0 4: 04 02 0000 01000000
bad 0 17: 11 02 0001 00000000
bad 0 18: 12 02 0003 00000001
bad 0 18: 12 02 07f9 00000001
bad 0 19: 13 02 0005 00000001
bad 0 20: 14 02 0002 00000001
bad 0 17: 11 02 0002 00000000 02 00
bad 0 20: 14 02 0001 00000001 00";

/// A name, a serial and a number.
fn told(name: &str, serial: u32, number: u32) -> Bytes {
    let mut told = Bytes::new();
    add(&mut told, name.as_bytes());
    add_number(&mut told, b" ", serial as u64);
    add_number(&mut told, b" ", number as u64);
    told
}

/// What a frame says but for the bytes that it carries.
fn said(frame: &Frame) -> Bytes {
    match frame {
        Frame::Hello { generation } => told("hello", 0, *generation),
        Frame::Ask { serial, .. } => told("ask", *serial, 0),
        Frame::More { serial } => told("more", *serial, 0),
        Frame::Bye => told("bye", 0, 0),
        Frame::Welcome { last, .. } => told("welcome", 0, *last as u32),
        Frame::Rows { serial, .. } => told("rows", *serial, 0),
        Frame::Done { serial, total } => told("done", *serial, *total),
        Frame::Sorry { serial, code } => told("sorry", *serial, *code as u32),
    }
}

/// The bytes that a frame carries.
fn carried<'a>(frame: &Frame<'a>) -> &'a [u8] {
    match frame {
        Frame::Ask { payload, .. } => payload,
        Frame::Welcome { part, .. } => part,
        Frame::Rows { rows, .. } => rows,
        Frame::Hello { .. } | Frame::More { .. } | Frame::Bye => &[],
        Frame::Done { .. } | Frame::Sorry { .. } => &[],
    }
}

/// Whether the payload of a frame is not too long to be sent.
fn is_short(frame: &Frame) -> bool
    ensures { result ≡ true → length (frames.payload_of (frame_view frame.now)) ≤ frames.most_payload }
{
    match frame {
        Frame::Ask { payload, .. } => payload.len() <= PAYLOAD_BYTES,
        Frame::Rows { rows, .. } => rows.len() <= PAYLOAD_BYTES,
        Frame::Welcome { part, .. } => part.len() < PAYLOAD_BYTES,
        Frame::Hello { .. } | Frame::More { .. } | Frame::Bye => true,
        Frame::Done { .. } | Frame::Sorry { .. } => true,
    }
}

/// Whether a frame is written as these bytes.
fn is_written(frame: &Frame, bytes: &[u8]) -> bool {
    if !is_short(frame) {
        return false;
    }
    let mut out = [0; FRAME_BYTES];
    let count = put_frame(frame, &mut out);
    let (written, _rest) = out.split_at(count);
    written == bytes
}

/// Whether the bytes of a row amount to what it says, and are written for it where they are a frame.
fn is_spelled(row: &str) -> bool {
    let mut bytes = bytes_of(part(row, 1));
    let wanted = bytes_of(part(row, 2));
    add(&mut bytes, &wanted);
    let says = match frame_of(&bytes) {
        Got::Frame(frame) => {
            if carried(&frame) != wanted.as_slice() || !is_written(&frame, &bytes) {
                return false;
            }
            said(&frame)
        }
        Got::Short(missing) => told("short", 0, missing as u32),
        Got::Bad(kind) => told("bad", 0, kind as u32),
    };
    says.as_slice() == part(row, 0).as_bytes()
}

#[test]
fn each_frame_is_spelled_as_given_in_hexadecimal(rt: HostRuntime) {
    for row in FRAMES.split('\n') {
        assert!(rt; is_spelled(row), "{row}");
    }
}

/// The payloads of asks of the clinic, and of asks where a doctor's visit has a second visible column.
const ASKS: &str = "clinic: table 0 column 1 where 1=cardio: 00 01 01 01 01 01 63617264696f0000
clinic: table 2 column 1: 02 01 01 00
clinic: table 2 column 1 where 1>=2: 02 01 01 01 01 06 8000000000000002
clinic: table 1 where 1>30: 01 00 01 01 05 800000000000001e
clinic: table 1 where 1>=-9223372036854775808: 01 00 01 01 06 0000000000000000
note: table 0 where 1=a: 00 00 01 01 01 61000000
fees: table 1 column 1 column 3 where 3>=-1: 01 02 01 03 01 03 06 7fffffffffffffff
clinic: table 2 where 1=2 or 1=9: 02 00 02 01 81 8000000000000002 01 01 8000000000000009
clinic: table 2 where 1 is null: 02 00 01 01 07
clinic: table 2 where 1 is not null: 02 00 01 01 08
fees: table 0 where 1=x or 1 is not null or 1 is null where 1<>y: 00 00 04 01 81 7800000000000000 01 88 01 07 01 02 7900000000000000
fees: table 1 where 1<=5 where 3 is null or 1>9: 01 00 03 01 04 8000000000000005 03 87 01 05 8000000000000009
fees: none
fees: none: 00 01
fees: none: 02 00 00
fees: none: 00 01 02 00
fees: none: 00 01 00 00
fees: none: 01 02 03 01 00
fees: none: 01 02 01 01 00
fees: none: 00 01 01 00 00
fees: none: 00 00 01 01 07 63617264696f0000
fees: none: 00 00 01 01 00 63617264696f0000
fees: none: 00 00 01 01 09 63617264696f0000
fees: none: 00 00 01 01 08 63617264696f0000
fees: none: 00 00 02 01 80 63617264696f0000 01 07
fees: none: 00 00 02 01 89 63617264696f0000 01 07
fees: none: 00 00 01 01 81 63617264696f0000
fees: none: 00 00 01 01 87
fees: none: 00 00 01 02 07
fees: none: 00 00 01 00 08
fees: none: 00 00 01 01 01
fees: none: 00 00 01 01 01 63617264696f00
fees: none: 00 00 01 01 01 63617264696f0078
fees: none: 00 00 11
fees: none: 00 ff 01";

/// The text of a schema.
fn schema_of(name: &str) -> &'static [u8] {
    match name {
        "clinic" => {
            b"CREATE TABLE doctor (id INTEGER PRIMARY KEY, specialty CHAR(8), country CHAR(2) HIDDEN);
CREATE TABLE patient (id INTEGER PRIMARY KEY, age INTEGER, name CHAR(8) HIDDEN);
CREATE TABLE visit (id INTEGER PRIMARY KEY, day INTEGER, purpose CHAR(8) HIDDEN, doc INTEGER REFERENCES doctor(id) HIDDEN, pat INTEGER REFERENCES patient(id) HIDDEN);"
        }
        "fees" => {
            b"CREATE TABLE doctor (id INTEGER PRIMARY KEY, specialty CHAR(8), country CHAR(2) HIDDEN);
CREATE TABLE visit (id INTEGER PRIMARY KEY, day INTEGER, doc INTEGER REFERENCES doctor(id) HIDDEN, fee INTEGER);"
        }
        _ => b"CREATE TABLE note (id INTEGER PRIMARY KEY, topic CHAR(4), body CHAR(8) HIDDEN);",
    }
}

/// The sign of an operator.
fn sign(operator: Operator) -> &'static [u8] {
    match operator {
        Operator::Equal => b"=",
        Operator::Unequal => b"<>",
        Operator::Less => b"<",
        Operator::AtMost => b"<=",
        Operator::More => b">",
        Operator::AtLeast => b">=",
    }
}

/// Adds what is tested of a value.
fn add_test(said: &mut Bytes, test: &Test) {
    match test {
        Test::Compared(operator, literal) => {
            add(said, sign(*operator));
            match literal {
                Value::Null => add(said, b"NULL"),
                Value::Int(number) => add(said, Buffer::new().format(*number).as_bytes()),
                Value::Chars(text) => add(said, text.as_bytes()),
            }
        }
        Test::IsNull => add(said, b" is null"),
        Test::IsNotNull => add(said, b" is not null"),
    }
}

/// What an ask is for.
fn asked(ask: &Ask) -> Bytes {
    let mut said = Bytes::new();
    add_number(&mut said, b"table ", ask.table as u64);
    for column in ask.columns.as_slice() {
        add_number(&mut said, b" column ", *column as u64);
    }
    let mut more = false;
    for test in ask.tests.as_slice() {
        let before: &[u8] = if more { b" or " } else { b" where " };
        add_number(&mut said, before, test.column as u64);
        add_test(&mut said, &test.test);
        more = test.more;
    }
    said
}

/// Whether the payload of a row is read as what the row says, and written for it again.
fn is_ask(row: &str) -> bool {
    let Ok(schema) = read_schema(schema_of(part(row, 0))) else {
        return false;
    };
    let payload = bytes_of(part(row, 2));
    let Some(ask) = ask_of(&schema, &payload) else {
        return part(row, 1) == "none";
    };
    if !is_proper(&schema, &ask) {
        return false;
    }
    let mut out = [0; PAYLOAD_BYTES];
    let count = put_ask(&schema, &ask, &mut out);
    &out[..count] == payload.as_slice() && asked(&ask).as_slice() == part(row, 1).as_bytes()
}

#[test]
fn each_ask_is_spelled_as_given_in_hexadecimal(rt: HostRuntime) {
    for row in ASKS.split('\n') {
        assert!(rt; is_ask(row), "{row}");
    }
}
