//! The frames that a host says.

ghost use Rattle.std.specs.Prelude.{◌≡◌, ◌≤◌, ◌<◌, ◌+◌, ◌/◌, ℕ, List, Some, length, take, IfErr, IfOk, ◌⊎◌, MatchBool, true, false, is_ok};
ghost use Rattle.ghost_model.specs.forms.Catalog.{catalog_bytes};
ghost use Rattle.ghost_model.specs.core.Causes.{HasCause, Rose};
ghost use Rattle.ghost_model.specs.core.Channel as channel;
ghost use Rattle.ghost_model.specs.forms.Frames.{frame_bytes};
ghost use Rattle.ghost_model.specs.core.Host as host;
ghost use Rattle.edge_traits.specs.Files.{file_of};
ghost use Rattle.host_exec.specs.Saying as saying;
ghost use Rattle.host_exec.specs.Replies.{source_of};
ghost use Rattle.host_exec.specs.Steps.{steps_left};

use crate::gathering::{Batch, gather};
use crate::reply::Reply;
use crate::stage::{Said, Stage};
use channel_codec::frame::{Frame, put_frame};
use edge_traits::Failed;
use edge_traits::depot::Depot;
use tree_schema::{Catalog, catalog_len, catalog_part};

/// The bytes of the catalog that one frame has at most.
const PART_BYTES: usize = 2039;

/// Says the next part of the catalog.
pub fn say_part(catalog: &Catalog, at: usize, out: &mut [u8]) -> Said
    requires within { at < length (catalog_bytes catalog.now) }
    requires room { 2048 ≤ length out.old }
    ensures within { (rows ahead : ℕ) → ahead ≤ rows → saying.IsWithin (length (catalog_bytes catalog.now)) rows ahead result.stage }
    ensures short { result.size ≤ 2048 }
    ensures fewer { steps_left (length (catalog_bytes catalog.now)) result.stage < steps_left (length (catalog_bytes catalog.now)) (Stage.Welcoming at) }
    ensures granted { result.refused ≡ false }
    ensures rests { saying.rests result.stage ≡ true }
    ensures said { (source : saying.Source) (owed : List channel.Frame) (stand : host.Stand)
        → saying.Stands (catalog_bytes catalog.now) source (Stage.Welcoming at) owed stand
        → saying.Says (catalog_bytes catalog.now) source owed stand result.size out.new result.stage }
{
    let len = catalog_len(catalog) as usize;
    let mut places = [0; PART_BYTES];
    let count = catalog_part(catalog, at, &mut places);
    let (part, _rest) = places.split_at(count);
    let end = at + count;
    if end < len {
        let size = put_frame(&Frame::Welcome { last: 0, part }, out);
        Said {
            size,
            stage: Stage::Welcoming { at: end },
            refused: false,
        }
    } else {
        let size = put_frame(&Frame::Welcome { last: 1, part }, out);
        Said {
            size,
            stage: Stage::Listening { next: 1 },
            refused: false,
        }
    }
}

/// Says the next frame of a reply, which goes on at a row of the table.
fn say_rows<D: Depot>(
    reply: &mut Reply,
    depot: &mut D,
    name: &str,
    serial: u32,
    place: u32,
    sent: u32,
    out: &mut [u8],
) -> Result<Said, Failed>
    requires sent { sent ≤ place }
    requires place { place + reply.old.piece.rows ≤ reply.old.rows }
    requires room { 2048 ≤ length out.old }
    ensures cause { HasCause (D.faults depot.old) (D.faults depot.new) result }
    ensures appends { D.append_faults depot.new ≡ D.append_faults depot.old }
    ensures same { D.contents depot.new ≡ D.contents depot.old }
    ensures goes_well { D.sure depot.old name.now → is_ok result ≡ true }
    ensures stays_sure { D.sure depot.old name.now → D.sure depot.new name.now }
    ensures none { IfErr result (λ _. reply.new.piece.rows ≡ 0) }
    ensures within { (catalog : ℕ) → 0 < catalog → IfOk result (λ said. saying.IsWithin catalog reply.new.rows reply.new.piece.rows said.stage) }
    ensures short { IfOk result (λ said. said.size ≤ 2048) }
    ensures fewer { (catalog : ℕ) → IfOk result (λ said. steps_left catalog said.stage < steps_left catalog (Stage.Answering serial place sent)) }
    ensures granted { IfOk result (λ said. said.refused ≡ false) }
    ensures rests { IfOk result (λ said. saying.rests said.stage ≡ true) }
    ensures said { (catalog file : List ℕ) (owed : List channel.Frame) (stand : host.Stand) → file_of (D.contents depot.old) name.now ≡ Some file
        → saying.Stands catalog (source_of reply.old file) (Stage.Answering serial place sent) owed stand
        → IfOk result (λ said. saying.Says catalog (source_of reply.new file) owed stand said.size out.new said.stage) }
{
    let mut batch = Batch::new();
    let next = gather(
        &reply.form,
        &mut reply.piece,
        depot,
        name,
        reply.start,
        place,
        reply.rows,
        reply.most,
        &mut batch,
    )?;
    if batch.rows == 0 {
        let size = put_frame(
            &Frame::Done {
                serial,
                total: sent,
            },
            out,
        );
        return Ok(Said {
            size,
            stage: Stage::Listening {
                next: serial as u64 + 1,
            },
            refused: false,
        });
    }
    let size = put_frame(
        &Frame::Rows {
            serial,
            rows: batch.bytes.as_slice(),
        },
        out,
    );
    Ok(Said {
        size,
        stage: Stage::Replying {
            serial,
            place: next,
            sent: sent + batch.rows,
        },
        refused: false,
    })
}

/// Refuses to go on with a reply.
fn say_sorry(serial: u32, out: &mut [u8]) -> Said
    requires room { 2048 ≤ length out.old }
    ensures spelled { take result.size out.new ≡ frame_bytes (channel.SorryFrame serial 1) }
    ensures ended { result.stage ≡ Stage.Listening (serial + 1) }
    ensures short { result.size ≤ 2048 }
    ensures refused { result.refused ≡ true }
{
    let size = put_frame(&Frame::Sorry { serial, code: 1 }, out);
    Said {
        size,
        stage: Stage::Listening {
            next: serial as u64 + 1,
        },
        refused: true,
    }
}

/// Says the next frame of a reply, or refuses to go on where the depot failed.
pub fn say_reply<D: Depot>(
    reply: &mut Reply,
    depot: &mut D,
    name: &str,
    serial: u32,
    place: u32,
    sent: u32,
    out: &mut [u8],
) -> Said
    requires sent { sent ≤ place }
    requires place { place + reply.old.piece.rows ≤ reply.old.rows }
    requires room { 2048 ≤ length out.old }
    ensures never_falls { D.faults depot.old ≤ D.faults depot.new }
    ensures appends { D.append_faults depot.new ≡ D.append_faults depot.old }
    ensures same { D.contents depot.new ≡ D.contents depot.old }
    ensures stays_sure { D.sure depot.old name.now → D.sure depot.new name.now }
    ensures within { (catalog : ℕ) → 0 < catalog → saying.IsWithin catalog reply.new.rows reply.new.piece.rows result.stage }
    ensures short { result.size ≤ 2048 }
    ensures fewer { (catalog : ℕ) → steps_left catalog result.stage < steps_left catalog (Stage.Answering serial place sent) }
    ensures rests { saying.rests result.stage ≡ true }
    ensures granted { D.sure depot.old name.now → result.refused ≡ false }
    ensures told { MatchBool result.refused (Rose (D.faults depot.old) (D.faults depot.new)) (D.faults depot.new ≡ D.faults depot.old) }
    ensures said { saying.Refuses (D.sure depot.old name.now) (D.faults depot.old) (D.faults depot.new) serial result.size out.new result.stage
        ⊎ ((D.faults depot.new ≡ D.faults depot.old) × ((catalog file : List ℕ) (owed : List channel.Frame) (stand : host.Stand) → file_of (D.contents depot.old) name.now ≡ Some file
        → saying.Stands catalog (source_of reply.old file) (Stage.Answering serial place sent) owed stand
        → saying.Says catalog (source_of reply.new file) owed stand result.size out.new result.stage)) }
{
    match say_rows(reply, depot, name, serial, place, sent, out) {
        Ok(said) => said,
        Err(_) => say_sorry(serial, out),
    }
}
