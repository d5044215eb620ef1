//! Lines by example.

use edge_traits::mem_sink::MemSink;
use ghost_base::{Text64, Value};
use key_lines::{Fault, Printer};
use spj_parse::Refusal;
use std::alloc::AllocError;

const FAULTS: [Fault; 5] = [
    Fault::Link,
    Fault::Protocol,
    Fault::Host,
    Fault::Flash,
    Fault::Damaged,
];

const REFUSALS: [Refusal; 9] = [
    Refusal::Syntax { at: 4_096 },
    Refusal::Limit,
    Refusal::UnknownTable,
    Refusal::UnknownColumn,
    Refusal::Ambiguous,
    Refusal::KindMismatch,
    Refusal::BadLiteral,
    Refusal::NotLinked,
    Refusal::MixedTables,
];

const LINES: &str =
    "> cardio\t-9223372036854775808\t\n> 9223372036854775807\n= 64 2\n! 2 link\n! 2 protocol\n! 2 host\n! 2 flash\n! 2 damaged\n! 1 syntax 4096\n! 1 limit\n! 1 table\n! 1 column\n! 1 ambiguous\n! 1 kind\n! 1 literal\n! 1 unlinked\n! 1 mixed\n";

#[test]
fn lines_go_whole_through_short_writes(rt: HostRuntime) -> Result<(), AllocError> {
    let row = [
        Value::Chars(Text64::of(b"cardio")),
        Value::Int(i64::MIN),
        Value::Chars(Text64::of(b"")),
    ];
    for most in [1usize, 7, 999] {
        let mut out = MemSink::new(rt.alloc(), 999, most, &[])?;
        let mut printer = Printer::new();
        printer.row(&mut out, &row);
        printer.row(&mut out, &[Value::Int(i64::MAX)]);
        printer.count(&mut out, 64, 2);
        for fault in FAULTS {
            printer.fault(&mut out, 2, fault);
        }
        for refusal in REFUSALS.as_slice() {
            printer.refusal(&mut out, 1, refusal);
        }
        assert!(rt;
            !printer.failed && out.bytes() == LINES.as_bytes(),
            "most {most}"
        );
    }
    Ok(())
}
