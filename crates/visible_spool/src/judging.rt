//! What one page of a reply tells of an identifier.

ghost use Rattle.std.specs.Prelude.{◌≡◌, ◌<◌, ◌≤◌, length, map, IsTrue, IfSome, IfNone};
ghost use Rattle.std.specs.List.{list_all};
ghost use Rattle.ghost_base.specs.Views.{kind_of};
ghost use Rattle.visible_spool.specs.Replies.{IsSound, is_narrow, is_placed, kinds_of, may_stand};
ghost use Rattle.visible_spool.specs.Searches.{IsVerdict, HasNoneAmong, id_at, row_at};

use crate::cells::are_cells;
use crate::reply::Reply;
use flash_pages::cells::{cell_of, number_at};
use ghost_base::Kind;
use ghost_base::runs::per_page;

/// What a page tells of an identifier.
#[derive(Clone, Copy)]
pub(crate) enum Verdict {
    /// It is below that of the page's first row, which is this one.
    Before(u32),
    /// It is above that of the page's last row, which is this one.
    After(u32),
    /// It is that of the row at this place.
    At(u32),
    /// It is between those of the first and the last row, and that of none.
    Nowhere,
    /// The row at this place may not stand there.
    Wrong(u32),
}

impl Reply {
    /// The kinds of a row's cells.
    fn kinds(&self) -> &[Kind]
        requires cells { self.now.cells ≤ 24 }
        ensures kinds { map kind_of result.now ≡ kinds_of self.now }
    {
        &self.kinds[..self.cells]
    }

    /// The bytes of the row at a place, in the bytes of the page in which it stands.
    pub fn row<'p>(&self, page: &'p [u8; 2048], place: u32) -> &'p [u8]
        requires wide { 4 ≤ self.now.run.width }
        requires narrow { self.now.run.width ≤ 1564 }
        ensures row { result.now ≡ row_at self.now page.now place }
        ensures width { length result.now ≡ self.now.run.width }
    {
        cell_of(page, self.run.width, place % per_page(self.run.width))
    }

    /// Its identifier.
    fn id_at(&self, bytes: &[u8; 2048], place: u32) -> u32
        requires wide { 4 ≤ self.now.run.width }
        requires narrow { self.now.run.width ≤ 1564 }
        ensures id { result ≡ id_at self.now bytes.now place }
    {
        number_at(self.row(bytes, place), 0)
    }

    /// Whether an identifier may stand at a place, with those that stand before it and behind it.
    fn is_placed(&self, place: u32, id: u32) -> bool
        requires within { place < self.now.run.count }
        ensures placed { result ≡ is_placed self.now place id }
    {
        place < id && id as u64 + (self.run.count - 1 - place) as u64 <= self.rows as u64
    }

    /// Whether a row may stand at a place.
    fn may_stand(&self, place: u32, row: &[u8]) -> bool
        requires within { place < self.now.run.count }
        requires wide { 4 ≤ length row.now }
        requires cells { self.now.cells ≤ 24 }
        requires kinds { IsTrue (list_all is_narrow (kinds_of self.now)) }
        ensures stands { result ≡ may_stand self.now place row.now }
    {
        let (_id, cells) = row.split_at(4);
        self.is_placed(place, number_at(row, 0)) && are_cells(self.kinds(), cells)
    }

    /// The place of the row with an identifier, from one row of a page to another.
    fn among(&self, bytes: &[u8; 2048], first: u32, last: u32, id: u32) -> Option<u32>
        requires order { first ≤ last }
        requires within { last < self.now.run.count }
        requires sound { IsSound self.now }
        ensures some { IfSome result (λ place. (first ≤ place) × (place ≤ last) × (id_at self.now bytes.now place ≡ id)) }
        ensures none { IfNone result (HasNoneAmong self.now bytes.now first last id) }
    {
        let mut low = first;
        let mut high = last + 1;
        'rows: while low < high {
            let middle = low + (high - low) / 2;
            let found = self.id_at(bytes, middle);
            if found == id {
                return Some(middle);
            }
            if found < id {
                low = middle + 1;
            } else {
                high = middle;
            }
        }
        None
    }

    /// What a page tells of an identifier between those of two of its rows.
    fn within(&self, bytes: &[u8; 2048], first: u32, last: u32, id: u32) -> Verdict
        requires order { first ≤ last }
        requires within { last < self.now.run.count }
        requires sound { IsSound self.now }
        requires above { id_at self.now bytes.now first ≤ id }
        requires below { id ≤ id_at self.now bytes.now last }
        ensures verdict { IsVerdict self.now bytes.now first last id result }
    {
        match self.among(bytes, first, last, id) {
            None => Verdict::Nowhere,
            Some(place) => {
                if self.may_stand(place, self.row(bytes, place)) {
                    Verdict::At(place)
                } else {
                    Verdict::Wrong(place)
                }
            }
        }
    }

    /// What a page tells of an identifier, by its rows from one place to another.
    pub(crate) fn judge(&self, bytes: &[u8; 2048], first: u32, last: u32, id: u32) -> Verdict
        requires order { first ≤ last }
        requires within { last < self.now.run.count }
        requires sound { IsSound self.now }
        ensures verdict { IsVerdict self.now bytes.now first last id result }
    {
        let low = self.id_at(bytes, first);
        if !self.is_placed(first, low) {
            return Verdict::Wrong(first);
        }
        let high = self.id_at(bytes, last);
        if !self.is_placed(last, high) {
            return Verdict::Wrong(last);
        }
        if id < low {
            return Verdict::Before(low);
        }
        if high < id {
            return Verdict::After(high);
        }
        self.within(bytes, first, last, id)
    }
}
