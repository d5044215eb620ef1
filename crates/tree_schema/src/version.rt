//! The versions of the format.

ghost use Rattle.std.specs.Prelude.{◌≡◌, ◌==◌, true, option_map, Some, None, if◌then◌else◌};
ghost use Rattle.ghost_model.specs.forms.Catalog.{is_version, current_version};
ghost use Rattle.tree_schema.specs.Views.{version_of};

/// A version of the format of catalogs, and of the devices and files that begin with them.
#[derive(Clone, Copy)]
pub enum Version {
    /// Version 1, which is read.
    One,

    /// Version 2, which is read and made.
    Two,
}

impl Version {
    /// The version of a number, where it is that of a version.
    pub fn of(number: u8) -> Option<Version>
        ensures { option_map version_of result ≡ (if is_version number then Some number else None) }
    {
        match number {
            1 => Some(Version::One),
            2 => Some(Version::Two),
            _ => None,
        }
    }

    /// Its number.
    pub fn number(self) -> u8
        ensures value { result ≡ version_of self }
        ensures version { is_version result ≡ true }
    {
        match self {
            Version::One => 1,
            Version::Two => 2,
        }
    }

    /// Whether it is the version that is made.
    pub fn is_current(self) -> bool
        ensures { result ≡ (version_of self == current_version) }
    {
        match self {
            Version::One => false,
            Version::Two => true,
        }
    }
}
