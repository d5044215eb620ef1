//! Where a host stands in a session.

/// Where a host stands in a session.
#[derive(Clone, Copy)]
pub enum Stage {
    /// It awaits the key's greeting.
    Greeting,
    /// It says its catalog, of which so many bytes were said.
    Welcoming { at: usize },
    /// It awaits the ask with this serial, or the key's farewell.
    Listening { next: u64 },
    /// It owes the next frame of a reply, which goes on at a row of the table; so many rows were sent.
    Answering { serial: u32, place: u32, sent: u32 },
    /// It awaits that the key wants this next frame.
    Replying { serial: u32, place: u32, sent: u32 },
    /// It says nothing more.
    Over,
}

/// A frame that was said: its bytes, where the host then stands, and whether it refuses to go on with a reply.
#[derive(Clone, Copy)]
pub struct Said {
    pub size: usize,
    pub stage: Stage,
    pub refused: bool,
}
