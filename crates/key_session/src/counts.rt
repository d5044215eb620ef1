//! What is counted of the texts that were told.

ghost use Rattle.std.specs.Prelude.{◌≡◌, ◌<◌, ◌≤◌, ◌+◌, ◌++◌, ◌∷◌, [], length};
ghost use Rattle.key_lines.specs.Told.{told_in};
ghost use Rattle.key_session.specs.Counting.{IsCounted, damage_in, first_damage, reason_of};

use key_exec::{Damage, Told};
use key_lines::{ToldText, ToldTexts};

/// What was counted of the texts that were told.
#[derive(Clone, Copy)]
pub struct Counts {
    /// How many are refused.
    pub refused: u32,
    /// How many were ended by a fault: of the host, the link, the protocol or the flash.
    pub faulted: u32,
    /// Whether the flash failed in one of them.
    pub by_flash: bool,
    /// The first damage that was found.
    pub damage: Option<Damage>,
    /// The rule and the rows of each.
    pub told: ToldTexts,
}

impl Counts {
    /// Counts one more text, by what its lines tell, and keeps its rule and its rows.
    pub(crate) fn add(&mut self, told: Told, one: ToldText)
        requires refused { self.old.refused ≤ 64 }
        requires faulted { self.old.faulted ≤ 64 }
        requires room { length (told_in self.old.told) < 64 }
        ensures counted { IsCounted (reason_of told) self.old self.new }
        ensures first { self.new.damage ≡ first_damage self.old.damage (damage_in told) }
        ensures refused { self.new.refused ≤ self.old.refused + 1 }
        ensures faulted { self.new.faulted ≤ self.old.faulted + 1 }
        ensures told { told_in self.new.told ≡ told_in self.old.told ++ one ∷ [] }
    {
        self.told.push(one);
        match told {
            Told::Answered => {}
            Told::Refused => self.refused += 1,
            Told::Host | Told::Link | Told::Protocol => self.faulted += 1,
            Told::Marked | Told::Flash => {
                self.faulted += 1;
                self.by_flash = true;
            }
            Told::Damaged(damage) => {
                self.faulted += 1;
                if self.damage.is_none() {
                    self.damage = Some(damage);
                }
            }
        }
    }
}
