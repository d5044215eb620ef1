//! Runs and lists, by their places.

ghost use Rattle.std.specs.Prelude.{◌≡◌, ◌*◌, ◌<◌, ◌≤◌};
ghost use Rattle.ghost_model.specs.forms.Runs.{per_page};

/// Records of one width, one after another from a page on: as many in each page as whole ones fit.
#[derive(Clone, Copy)]
pub struct Run {
    /// The number of the first page.
    pub first: u32,
    /// How many records there are.
    pub count: u32,
    /// The bytes of a record.
    pub width: u32,
}

/// A part of a run: so many of its records from one on, counted from 0.
#[derive(Clone, Copy)]
pub struct ListRef {
    /// The run.
    pub run: Run,
    /// The number of the first record.
    pub first: u32,
    /// How many records there are.
    pub count: u32,
}

/// How many records of a width one page takes, the width being from 1 to 2,048 bytes.
pub fn per_page(width: u32) -> u32
    requires some { 0 < width }
    requires fits { width ≤ 2048 }
    ensures value { result ≡ per_page width }
    ensures some { 0 < result }
    ensures within { result * width ≤ 2048 }
{
    2048 / width
}
