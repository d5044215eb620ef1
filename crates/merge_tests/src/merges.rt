//! What merges give, against sets.

use crate::codes::{Codes, bytes_of};
use crate::device::lay_out;
use crate::pieces::{Piece, agrees, merge_of};
use crate::rows::{Numbers, ascending, none_of, note, note_range, retain};
use edge_traits::flash::AttachFault;
use flash_pages::fault::PageFault;
use page_pool::PagePool;
use std::alloc::{AllocError, Global};

/// The rows of each case.
const ROWS: u32 = 2500;

/// How many identifiers a list is to have, where a case does not say.
const COUNTS: [u32; 6] = [0, 1, 511, 512, 513, 7];

/// A case: its seed, how many unions it has, how many lists and ranges each, how many identifiers a list is to have, and the widest
/// step between two.
type Case = (u64, u32, u32, u32, u32, u32);

/// What a merge is made of, and the rows that it is to give.
#[derive(Drop)]
struct Drawn {
    ids: Vec<u32>,
    pieces: Vec<Piece>,
    wanted: Vec<bool>,
}

impl Drawn {
    /// Nothing yet: all rows are wanted.
    fn nothing(alloc: Global) -> Result<Drawn, AllocError> {
        let mut wanted = none_of(alloc, ROWS)?;
        note_range(&mut wanted, 1, ROWS);
        Ok(Drawn {
            ids: Vec::new(alloc),
            pieces: Vec::new(alloc),
            wanted,
        })
    }

    /// Adds a piece.
    fn add(&mut self, piece: Piece) -> Result<(), AllocError> {
        match self.pieces.push(piece) {
            Ok(()) => Ok(()),
            Err(_) => Err(AllocError),
        }
    }

    /// Draws a list, and notes its rows.
    fn draw_list(
        &mut self,
        numbers: &mut Numbers,
        count: u32,
        step: u32,
        rows: &mut [bool],
    ) -> Result<(), AllocError> {
        let first = self.ids.len();
        let count = ascending(&mut self.ids, numbers, count, step, ROWS)?;
        if let Some(ids) = self.ids.get(first..) {
            note(rows, ids);
        }
        let Ok(first) = u32::try_from(first) else {
            return Err(AllocError);
        };
        self.add(Piece::List(first, count))
    }

    /// Draws a range, and notes its rows.
    fn draw_range(&mut self, numbers: &mut Numbers, rows: &mut [bool]) -> Result<(), AllocError> {
        let low = numbers.below(ROWS);
        let high = low.saturating_add(numbers.below(900)).min(ROWS);
        note_range(rows, low, high);
        self.add(Piece::Range(low, high))
    }

    /// Draws a union: lists and then ranges.
    fn draw_union(
        &mut self,
        alloc: Global,
        numbers: &mut Numbers,
        case: &Case,
    ) -> Result<(), AllocError> {
        let mut rows = none_of(alloc, ROWS)?;
        for at in 0..case.2 {
            let count = if case.4 > 0 {
                case.4
            } else {
                COUNTS[(at % 6) as usize]
            };
            self.draw_list(numbers, count, case.5, &mut rows)?;
        }
        for _at in 0..case.3 {
            self.draw_range(numbers, &mut rows)?;
        }
        retain(&mut self.wanted, &rows);
        Ok(())
    }
}

/// What a case is made of.
fn draw(alloc: Global, case: &Case) -> Result<Drawn, AllocError> {
    let mut drawn = Drawn::nothing(alloc)?;
    let mut numbers = Numbers::seeded(case.0);
    for at in 0..case.1 {
        if at > 0 {
            drawn.add(Piece::Another)?;
        }
        drawn.draw_union(alloc, &mut numbers, case)?;
    }
    Ok(drawn)
}

/// How many leases a pool has left.
fn left_in(pool: &mut PagePool) -> u32 {
    let mut left = 0u32;
    for _at in 0..64 {
        if pool.lease().is_some() {
            left = left.saturating_add(1);
        }
    }
    left
}

/// What a merge came to: whether it gave the rows that were wanted, and how many leases were left.
type Came = (Result<bool, PageFault>, u32);

/// What a merge of pieces comes to, where some calls of the device fail.
fn came(
    alloc: Global,
    ids: &[u32],
    pieces: &[Piece],
    wanted: &[bool],
    fails: &[u64],
) -> Result<Came, AttachFault> {
    if ids.len() > 2_000_000 {
        return Err(AttachFault::NoMemory);
    }
    let mut laid = lay_out(alloc, ids, &[], 1, fails)?;
    let mut pool = PagePool::new(alloc, 64)?;
    let merge = merge_of(pieces, &laid.one, ROWS, &mut pool);
    let agreed = agrees(merge, &mut laid.flash, &mut pool, wanted);
    Ok((agreed, left_in(&mut pool)))
}

/// What a merge of the same pieces comes to, where their lists are codes.
fn coded(
    alloc: Global,
    ids: &[u32],
    pieces: &[Piece],
    rows: u32,
    wanted: &[bool],
) -> Result<Came, AttachFault> {
    let mut codes = Codes::none(alloc);
    let mut over_codes = Vec::new(alloc);
    for piece in pieces {
        let piece = match *piece {
            Piece::List(first, count) => {
                let behind = first.saturating_add(count) as usize;
                let list = ids.get(first as usize..behind).unwrap_or(&[]);
                Piece::List(codes.put_list(list)?, count)
            }
            other => other,
        };
        let Ok(()) = over_codes.push(piece) else {
            return Err(AttachFault::NoMemory);
        };
    }
    let numbers = codes.numbers(alloc)?;
    if numbers.len() > 2_000_000 {
        return Err(AttachFault::NoMemory);
    }
    let mut laid = lay_out(alloc, &numbers, &[], 1, &[])?;
    let mut pool = PagePool::new(alloc, 64)?;
    let merge = merge_of(&over_codes, &bytes_of(&laid.one), rows, &mut pool);
    let agreed = agrees(merge, &mut laid.flash, &mut pool, wanted);
    Ok((agreed, left_in(&mut pool)))
}

#[test]
fn a_merge_gives_what_is_in_each_union(rt: HostRuntime) -> Result<(), AttachFault> {
    let cases: [Case; 12] = [
        (1, 1, 1, 0, 600, 3),
        (2, 1, 62, 0, 20, 40),
        (3, 3, 20, 1, 300, 2),
        (4, 2, 0, 2, 0, 1),
        (5, 95, 0, 1, 0, 1),
        (6, 1, 0, 0, 0, 1),
        (7, 2, 6, 0, 0, 4),
        (8, 4, 12, 12, 0, 3),
        (9, 2, 31, 17, 40, 30),
        (10, 62, 1, 0, 500, 1),
        (11, 1, 30, 66, 7, 9),
        (12, 20, 3, 1, 513, 2),
    ];
    for case in &cases {
        let drawn = draw(rt.alloc(), case)?;
        let (agreed, left) = came(rt.alloc(), &drawn.ids, &drawn.pieces, &drawn.wanted, &[])?;
        assert!(rt; matches!(agreed, Ok(true)) && left == 64, "case {}", case.0);
        let (agreed, left) = coded(rt.alloc(), &drawn.ids, &drawn.pieces, ROWS, &drawn.wanted)?;
        assert!(rt;
            matches!(agreed, Ok(true)) && left == 64,
            "codes of case {}",
            case.0
        );
    }
    Ok(())
}

#[test]
fn codes_of_one_two_and_three_bytes_are_merged(rt: HostRuntime) -> Result<(), AttachFault> {
    let rows = 1_900_000;
    for step in [1u32, 2, 100, 20_000, 400_000] {
        let mut drawn = Drawn::nothing(rt.alloc())?;
        let mut wanted = none_of(rt.alloc(), rows)?;
        let mut numbers = Numbers::seeded(u64::from(step));
        for count in [2046u32, 3, 700, 5000, 1] {
            let first = drawn.ids.len();
            let count = ascending(&mut drawn.ids, &mut numbers, count, step, rows)?;
            note(&mut wanted, drawn.ids.get(first..).unwrap_or(&[]));
            drawn.add(Piece::List(u32::try_from(first).unwrap_or(0), count))?;
        }
        let (agreed, left) = coded(rt.alloc(), &drawn.ids, &drawn.pieces, rows, &wanted)?;
        assert!(rt; matches!(agreed, Ok(true)) && left == 64, "step {step}");
    }
    Ok(())
}

/// Adds a list of identifiers, and answers where its codes begin.
fn add_list(drawn: &mut Drawn, codes: &mut Codes, ids: &[u32]) -> Result<u32, AllocError> {
    let first = u32::try_from(drawn.ids.len()).unwrap_or(0);
    for id in ids {
        let Ok(()) = drawn.ids.push(*id) else {
            return Err(AllocError);
        };
    }
    drawn.add(Piece::List(first, u32::try_from(ids.len()).unwrap_or(0)))?;
    codes.put_list(ids)
}

/// The identifiers from 1 to another.
fn all_to(alloc: Global, last: u32) -> Result<Vec<u32>, AllocError> {
    let mut ids = Vec::new(alloc);
    for id in 1..=last {
        let Ok(()) = ids.push(id) else {
            return Err(AllocError);
        };
    }
    Ok(ids)
}

/// After a first list from 1 to so many two lists come; each is given with where it begins.
type Behind<'a> = (u32, &'a [u32], u32, &'a [u32], u32);

/// A code of two bytes where one is left of the page, one of three bytes where two are left, and one of two bytes where two are left;
/// and the least and the greatest codes of one, two and three bytes.
const BEHIND: [Behind<'static>; 4] = [
    (2047, &[], 2047, &[300], 2048),
    (2046, &[20_000], 2048, &[], 2051),
    (2046, &[300], 2046, &[], 2048),
    (1, &[1, 128, 256, 16_639, 33_023, 1_033_023], 1, &[], 13),
];

#[test]
fn lists_begin_where_their_codes_have_room(rt: HostRuntime) -> Result<(), AttachFault> {
    let rows = 1_900_000;
    for (last, second, second_at, third, third_at) in BEHIND {
        let mut drawn = Drawn::nothing(rt.alloc())?;
        let mut codes = Codes::none(rt.alloc());
        let first = all_to(rt.alloc(), last)?;
        assert!(rt; add_list(&mut drawn, &mut codes, &first)? == 0);
        assert!(rt;
            add_list(&mut drawn, &mut codes, second)? == second_at,
            "{last}"
        );
        assert!(rt;
            add_list(&mut drawn, &mut codes, third)? == third_at,
            "{last}"
        );
        let mut wanted = none_of(rt.alloc(), rows)?;
        note(&mut wanted, &drawn.ids);
        let (agreed, left) = coded(rt.alloc(), &drawn.ids, &drawn.pieces, rows, &wanted)?;
        assert!(rt; matches!(agreed, Ok(true)) && left == 64, "{last}");
    }
    Ok(())
}

#[test]
fn each_call_of_a_merge_may_fail(rt: HostRuntime) -> Result<(), AttachFault> {
    let case = (13, 2, 6, 1, 0, 4);
    let drawn = draw(rt.alloc(), &case)?;
    let mut failed = 0u32;
    for call in 1..40u64 {
        if let Ok((agreed, left)) = came(
            rt.alloc(),
            &drawn.ids,
            &drawn.pieces,
            &drawn.wanted,
            &[call],
        ) {
            assert!(rt; left == 64, "call {call}");
            match agreed {
                Ok(agreed) => assert!(rt; agreed, "call {call}"),
                Err(PageFault::Flash) => failed = failed.saturating_add(1),
                Err(PageFault::Damaged { .. }) => assert!(rt; false, "call {call}"),
            }
        }
    }
    assert!(rt; failed > 4, "{failed}");
    Ok(())
}

#[test]
fn a_list_that_does_not_ascend_is_damaged(rt: HostRuntime) -> Result<(), AttachFault> {
    let ids = [5u32, 3, 9, 4, 4, 0, 1, 2501];
    for (first, count, slot) in [(0u32, 3u32, 1u32), (3, 2, 4), (5, 1, 5), (6, 2, 7)] {
        let pieces = [Piece::List(first, count)];
        let (agreed, left) = came(rt.alloc(), &ids, &pieces, &[], &[])?;
        match agreed {
            Err(PageFault::Damaged { page, slot: at, .. }) => {
                assert!(rt; page == 0 && at == slot && left == 64);
            }
            _ => assert!(rt; false, "slot {slot}"),
        }
    }
    Ok(())
}
