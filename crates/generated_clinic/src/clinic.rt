//! The bytes of a clinic and of a script over it.

/// The files of a clinic, and a script of texts over it.
#[derive(Drop)]
pub struct Generated {
    /// The doctors' file.
    pub doctors: Vec<u8>,

    /// The patients' file.
    pub patients: Vec<u8>,

    /// The visits' file.
    pub visits: Vec<u8>,

    /// The script.
    pub script: Vec<u8>,
}
