//! The objects of a call.

use crate::order::{CountedSink, NotedLink};
use crate::texts::{bytes_of, numbers_of};
use edge_traits::flash::Flash;
use edge_traits::mem_depot::{MemDepot, Room};
use edge_traits::mem_flash::MemFlash;
use edge_traits::mem_link::{MemLink, Room as LinkRoom};
use edge_traits::mem_sink::MemSink;
use edge_traits::peer::PeerScript;
use edge_traits::script::Script;
use host_commands::host_main;
use key_commands::key_main;
use std::alloc::{AllocError, Global};
use std::cell::Cell;
use std::mem;
use tree_schema::{Catalog, read_catalog};

const ROOM: Room = Room {
    files: 16,
    name_bytes: 64,
    file_bytes: 800_000,
};

const LINK_ROOM: LinkRoom = LinkRoom {
    moves: 220_000,
    bytes: 500_000,
};

const NO_ROOM: LinkRoom = LinkRoom { moves: 0, bytes: 0 };

/// How many bytes are printed at most.
const OUT_ROOM: usize = 400_000;

/// How many blocks a blank flash has room for.
const BLOCKS: u32 = 21;

/// The pages from the first one on that can hold bytes of a catalog.
const CATALOG_PAGES: u32 = 9;

/// What came of a call.
#[derive(Drop)]
pub struct Came {
    /// The exit code.
    pub code: u8,
    /// What is told of it.
    pub line: String,
}

/// The files, the flash, the link and the output.
#[derive(Drop)]
pub struct Bench {
    alloc: Global,
    pub depot: MemDepot,
    pub flash: MemFlash,
    pub link: MemLink,
    pub out: MemSink,
    /// How many writes there were before each move of the last call of the key, and at its end.
    pub order: (Vec<u64>, u64),
    deep: u64,
}

/// Puts bytes over those of a page from a place on, as far as it goes.
fn put_over(page: &mut [u8], place: usize, front: &[u8]) {
    for (byte, new) in page.iter_mut().skip(place).zip(front.iter()) {
        *byte = *new;
    }
}

/// A link to another end that says nothing.
fn silent_link(alloc: Global, room: LinkRoom) -> Result<MemLink, AllocError> {
    let peer = PeerScript {
        bytes: &[],
        pieces: &[],
        ports: &[],
    };
    MemLink::new(alloc, room, &peer, &[])
}

/// An output to which nothing was printed.
fn empty_out(alloc: Global) -> Result<MemSink, AllocError> {
    MemSink::new(alloc, OUT_ROOM, OUT_ROOM, &[])
}

impl Bench {
    /// No file, a blank flash, a host that says nothing, and nothing printed.
    pub fn new(alloc: Global) -> Result<Bench, AllocError> {
        Ok(Bench {
            alloc,
            depot: MemDepot::new(alloc, ROOM, &[])?,
            flash: MemFlash::new(alloc, BLOCKS, &[])?,
            link: silent_link(alloc, LINK_ROOM)?,
            out: empty_out(alloc)?,
            order: (Vec::new(alloc), 0),
            deep: 0,
        })
    }

    /// Begins to count calls anew, with nothing said, printed or failing. Files and flash stay.
    pub fn again(&mut self) -> Result<(), AllocError> {
        self.depot.script = Script::new(self.alloc, &[])?;
        self.flash.script = Script::new(self.alloc, &[])?;
        self.link = silent_link(self.alloc, LINK_ROOM)?;
        self.out = empty_out(self.alloc)?;
        self.deep = self.flash.deep_reads();
        Ok(())
    }

    /// How many deep reads there were since the count began.
    pub fn deep_reads(&self) -> u64 {
        self.flash.deep_reads().saturating_sub(self.deep)
    }

    /// Puts a text so many times behind what a file has; answers whether there was room.
    pub fn add(&mut self, name: &str, times: u64, text: &[u8]) -> Result<bool, AllocError> {
        let mut bytes = Vec::new(self.alloc);
        if let Some(before) = self.depot.file(name) {
            bytes.extend_from_slice(before)?;
        }
        for _ in 0..times {
            bytes.extend_from_slice(text)?;
        }
        Ok(self.depot.put(name, &bytes))
    }

    /// Takes a blank flash with room for so many blocks.
    pub fn blocks(&mut self, count: u64) -> Result<bool, AllocError> {
        match u32::try_from(count) {
            Ok(count) => {
                self.flash = MemFlash::new(self.alloc, count, &[])?;
                self.deep = 0;
                Ok(true)
            }
            Err(_) => Ok(false),
        }
    }

    /// Lets each flash be made with so many blocks; answers whether one can have as many.
    pub fn room(&mut self, count: u64) -> bool {
        match u32::try_from(count) {
            Ok(count) => {
                self.flash.room = count;
                true
            }
            Err(_) => false,
        }
    }

    /// Has the flash of a name at hand, by a call that is not counted; answers whether there was memory for it.
    pub fn open(&mut self, name: &str) -> Result<bool, AllocError> {
        let script = mem::replace(&mut self.flash.script, Script::new(self.alloc, &[])?);
        let opened = self.flash.attach(self.alloc, name).is_ok();
        self.flash.script = script;
        Ok(opened)
    }

    /// Makes the flash with all its room, where it has no pages; that call is not counted.
    fn make_blank(&mut self) {
        if self.flash.page(0).is_some() {
            return;
        }
        let room = self.flash.room;
        if room <= 60_000_000 {
            let _made = self.flash.make(self.alloc, "flash", room);
        }
        self.flash.script.calls = 0;
    }

    /// Puts a page; answers whether the flash has it.
    pub fn page(&mut self, page: u64, front: &[u8]) -> bool {
        let mut bytes = [0xFF; 2048];
        for (place, byte) in bytes.iter_mut().zip(front.iter()) {
            *place = *byte;
        }
        self.make_blank();
        match u32::try_from(page) {
            Ok(page) => self.flash.put_page(page, &bytes),
            Err(_) => false,
        }
    }

    /// Puts bytes into a slot of a page whose slots are as wide; answers whether the flash has it.
    pub fn slot(&mut self, page: u64, slot: u64, front: &[u8]) -> bool {
        let Ok(page) = u32::try_from(page) else {
            return false;
        };
        let mut bytes = [0xFF; 2048];
        match self.flash.page(page) {
            Some(before) => put_over(&mut bytes, 0, before),
            None => return false,
        }
        let place = (slot as usize).saturating_mul(front.len());
        put_over(&mut bytes, place, front);
        self.flash.put_page(page, &bytes)
    }

    /// Counts the calls of an object anew, and lets these fail; answers whether there is such an object.
    pub fn fail(&mut self, object: &str, calls: &str) -> Result<bool, AllocError> {
        let fails = numbers_of(self.alloc, calls)?;
        let script = Script::new(self.alloc, &fails)?;
        match object {
            "depot" => self.depot.script = script,
            "flash" => self.flash.script = script,
            "link" => self.link.script = script,
            "out" => self.out.script = script,
            _ => return Ok(false),
        }
        Ok(true)
    }

    /// Lets the other end say more.
    pub fn say(&mut self, text: &str) -> Result<(), AllocError> {
        let bytes = bytes_of(self.alloc, text)?;
        self.link.peer.bytes.extend_from_slice(&bytes)
    }

    /// Lets the other end say the bytes of a file more; answers whether there is such a file.
    pub fn say_file(&mut self, name: &str) -> Result<bool, AllocError> {
        match self.depot.file(name) {
            None => Ok(false),
            Some(bytes) => {
                self.link.peer.bytes.extend_from_slice(bytes)?;
                Ok(true)
            }
        }
    }

    /// Lets all its bytes come one at a time.
    pub fn drip(&mut self) -> Result<(), AllocError> {
        for _ in 0..self.link.peer.bytes.len() {
            self.link.peer.pieces.push(1)?;
        }
        Ok(())
    }

    /// Lets its bytes come in pieces of these sizes.
    pub fn cut(&mut self, sizes: &str) -> Result<(), AllocError> {
        for size in numbers_of(self.alloc, sizes)? {
            self.link.peer.pieces.push(size as usize)?;
        }
        Ok(())
    }

    /// Gives the next listening this port.
    pub fn port(&mut self, number: u64) -> Result<bool, AllocError> {
        match u16::try_from(number) {
            Ok(port) => {
                self.link.peer.ports.push(port)?;
                Ok(true)
            }
            Err(_) => Ok(false),
        }
    }

    /// The catalog on the flash last made or opened, where it begins with one.
    fn catalog(&self) -> Result<Option<Catalog>, AllocError> {
        let mut front = Vec::new(self.alloc);
        for page in 0..CATALOG_PAGES {
            if let Some(bytes) = self.flash.page(page) {
                front.extend_from_slice(bytes)?;
            }
        }
        Ok(read_catalog(&front))
    }

    /// Makes the call of the key.
    fn key(&mut self, words: &[String]) -> Result<Came, AllocError> {
        let writes = Cell::new(0);
        let mut link = NotedLink {
            link: mem::replace(&mut self.link, silent_link(self.alloc, NO_ROOM)?),
            writes: &writes,
            before: Vec::new(self.alloc),
        };
        let mut out = CountedSink {
            sink: mem::replace(&mut self.out, MemSink::new(self.alloc, 0, 0, &[])?),
            writes: &writes,
        };
        let ended = key_main(
            self.alloc,
            words,
            &mut self.depot,
            &mut self.flash,
            &mut link,
            &mut out,
        );
        self.link = link.link;
        self.out = out.sink;
        self.order = (link.before, writes.get());
        let catalog = self.catalog()?;
        let schema = catalog.as_ref().map(|catalog| catalog.schema());
        Ok(Came {
            code: ended.exit_code(),
            line: key_messages::line_of(self.alloc, words, &ended, schema)?,
        })
    }

    /// Makes the call of the host.
    fn host(&mut self, words: &[String]) -> Result<Came, AllocError> {
        let status = host_main(
            self.alloc,
            words,
            &mut self.depot,
            &mut self.link,
            &mut self.out,
        );
        Ok(Came {
            code: status.exit_code(),
            line: host_commands::line_of(self.alloc, words, &status)?,
        })
    }

    /// Makes the call that the words say, of which the first is the program's name.
    pub fn call(&mut self, line: &str) -> Result<Option<Came>, AllocError> {
        let mut words = Vec::new(self.alloc);
        for word in line.split(' ') {
            words.push(String::from_str(self.alloc, word)?)?;
        }
        self.out.bytes.clear();
        match words.first() {
            Some(name) if name.as_str() == "key" => Ok(Some(self.key(&words)?)),
            Some(name) if name.as_str() == "host" => Ok(Some(self.host(&words)?)),
            _ => Ok(None),
        }
    }
}
