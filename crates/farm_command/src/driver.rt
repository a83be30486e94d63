//! A script that is run line by line over the servers of a farm.

use asp_base::NoMemory;
use command_loop::{Consumer, Stepped};
use held_lines::HeldLines;
use keeper::Keeper;
use page_script::{LineEnd, MOST_SCRIPT_LINE};
use partition::FarmScript;
use script_runner::ScriptVerdict;

/// A farm's script, the bytes of it that are held, and what its last line printed.
#[derive(Drop)]
pub struct FarmDriver<K> {
    /// The bytes that were read, and whose lines are still to be run.
    pub held: HeldLines,
    /// The pages of the script on their servers.
    pub scripts: FarmScript<K>,
    /// What the last line printed.
    pub print: Vec<u8>,
}

impl<K: Keeper> Consumer for FarmDriver<K> {
    ghost use Rattle.std.specs.Prelude.{length, []};
    ghost use Rattle.farm_command.specs.FarmRunning.{FarmWent, FarmWaits, FarmGave, FarmLacks};

    type Over = ScriptVerdict;

    ghost went = { FarmWent ⟦<K as Keeper>⟧ };

    ghost waits = { FarmWaits };

    ghost gave = { FarmGave ⟦<K as Keeper>⟧ };

    ghost lacks = { FarmLacks ⟦<K as Keeper>⟧ };

    ghost work = { λ now. length now.held };

    ghost parts = { λ now. (now.print.items, []) };

    fn feed(&mut self, piece: &[u8]) -> Result<(), NoMemory> {
        self.held.feed(piece)
    }

    fn step(&mut self, more: bool) -> Stepped<ScriptVerdict> {
        self.print.clear();
        let Some(len) = self.held.first_line() else {
            if more && self.held.len() > MOST_SCRIPT_LINE {
                return Stepped::Over(ScriptVerdict::Broken);
            }
            return Stepped::More;
        };
        match self
            .scripts
            .line(&self.held.as_slice()[..len], &mut self.print)
        {
            LineEnd::Done => {
                self.held.take_line(len);
                Stepped::Did
            }
            LineEnd::NotALine => Stepped::Over(ScriptVerdict::Broken),
            LineEnd::NoMemory => Stepped::NoMemory,
        }
    }

    fn finish(&mut self) -> Result<ScriptVerdict, NoMemory> {
        self.print.clear();
        Ok(if self.held.is_empty() {
            ScriptVerdict::Whole
        } else {
            ScriptVerdict::Broken
        })
    }

    fn parts(&self) -> (&[u8], &[u8]) {
        (self.print.as_slice(), &[])
    }
}
