//! The search for the line of a record.

/// The byte order mark, with which a file may begin.
const MARK: &[u8] = b"\xEF\xBB\xBF";

/// Where the reading of records stands.
#[derive(Clone, Copy, Drop)]
enum Spot {
    /// Before a record, or behind its end.
    Between,

    /// Before a field.
    Before,

    /// In a field, or behind its closing quote.
    In,

    /// Between quotes.
    Quoted,

    /// Behind a quote that closes a field, or is the first of two.
    Quote,
}

impl Spot {
    /// The spot behind this byte.
    fn after(self, byte: u8) -> Spot {
        match (self, byte) {
            (Spot::Quoted, b'"') => Spot::Quote,
            (Spot::Quoted, _) => Spot::Quoted,
            (Spot::Quote | Spot::Between | Spot::Before, b'"') => Spot::Quoted,
            (_, b'\n' | b'\r') => Spot::Between,
            (_, b',') => Spot::Before,
            _ => Spot::In,
        }
    }

    /// Whether a record begins with this byte.
    fn begins_record(self, byte: u8) -> bool {
        match (self, self.after(byte)) {
            (Spot::Between, Spot::Between) => false,
            (Spot::Between, _) => true,
            _ => false,
        }
    }
}

/// The line of a file, from 1, on which a record begins, counted from 1 too, or the last line where there is none.
pub(crate) fn line_by_search(file: &[u8], rec: u32) -> u32 {
    let mut spot = Spot::Between;
    let mut left = rec;
    let mut line: u32 = 1;
    for byte in file.strip_prefix(MARK).unwrap_or(file) {
        if spot.begins_record(*byte) {
            left = left.saturating_sub(1);
            if left == 0 {
                break;
            }
        }
        spot = spot.after(*byte);
        if *byte == b'\n' {
            line = line.saturating_add(1);
        }
    }
    line
}
