//! What a session counts, and how it ended.

ghost use Rattle.std.specs.Prelude.{◌≡◌, false};
ghost use Rattle.ghost_model.specs.core.NextMove.{Standing};
ghost use Rattle.channel_pump.specs.Progress.{EndsAs};
ghost use Rattle.key_session.specs.Refusing.{first_code};
ghost use Rattle.key_session.specs.Running as running;
ghost use Rattle.key_session.specs.Running.{is_sink, status_with};

use crate::counts::Counts;
use channel_pump::state::Cause;
use key_exec::Damage;
use key_lines::ToldTexts;

/// How a session ended: the first of these that is so, in the order `Sink`, `Link`, `Protocol`, `Host`, `Flash`, `Damaged`,
/// `Ok`.
#[derive(Clone, Copy)]
pub enum SessionStatus {
    /// All went well.
    Ok,
    /// A line could not be written.
    Sink,
    /// The link failed or ended.
    Link,
    /// A frame was invalid: its first byte, and the number of bytes taken before it.
    Protocol {
        /// The first byte of the frame.
        kind: u8,
        /// The number of bytes taken before it.
        at: u64,
    },
    /// The host refused an ask, the first with this code.
    Host {
        /// The code.
        code: u8,
    },
    /// The flash failed.
    Flash,
    /// A slot of the flash is damaged.
    Damaged(Damage),
}

/// What a session counts, and how it ended.
#[derive(Clone, Copy)]
pub struct Tally {
    /// The texts of the script.
    pub texts: u32,
    /// Those that are refused.
    pub refused: u32,
    /// Those that a fault ended: of the host, the link, the protocol or the flash.
    pub faulted: u32,
    /// Of each text the rule by which it is refused, and the rows that were given.
    pub told: ToldTexts,
    /// How the session ended.
    pub status: SessionStatus,
}

/// How a session ended whose lines were written, whose link did not fail, and whose frames were valid.
fn host_or(refusal: Option<u8>, counts: &Counts) -> SessionStatus
    ensures status { result ≡ running.host_or refusal counts.now.by_flash counts.now.damage }
    ensures written { is_sink result ≡ false }
{
    match refusal {
        Some(code) => SessionStatus::Host { code },
        None => {
            if counts.by_flash {
                return SessionStatus::Flash;
            }
            match counts.damage {
                None => SessionStatus::Ok,
                Some(damage) => SessionStatus::Damaged(damage),
            }
        }
    }
}

/// How a session ended, by whether a write failed, by why its moves ended, by the first refusal of the host, and by what was
/// counted.
pub(crate) fn status(
    failed: bool,
    cause: Option<Cause>,
    refusal: Option<u8>,
    counts: &Counts,
) -> SessionStatus
    ensures status { (session : Standing) → EndsAs session cause → refusal ≡ first_code session.heard.ended
        → result ≡ status_with failed session counts.now.by_flash counts.now.damage }
    ensures sink { is_sink result ≡ failed }
{
    if failed {
        return SessionStatus::Sink;
    }
    match cause {
        Some(Cause::Link) => SessionStatus::Link,
        Some(Cause::Protocol { kind, at }) => SessionStatus::Protocol { kind, at },
        Some(Cause::Finished) | None => host_or(refusal, counts),
    }
}
