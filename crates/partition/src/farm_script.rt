//! A page script over several servers: one script of pages for each of them.
ghost use Rattle.std.specs.Prelude.{◌≡◌, ◌≤◌, length, []};
ghost use Rattle.visit_core.specs.Terms.{LimitsFit};

use crate::server_scripts::{limit_each, server_with, step_on};
use asp_base::NoMemory;
use keeper::Keeper;
use page_script::{Line, LineEnd, MOST_PAGES, Name, PageLine, Script, read_line};
use placement::server_of;
use std::alloc::Global;
use visit_core::Limits;

/// A page script, run line by line over 1 to 64 servers, each with a keeper of its own. A line of
/// limits goes to each server, a page to the server of its key, and a step to that of its page.
#[derive(Drop)]
pub struct FarmScript<K> {
    alloc: Global,
    scripts: Vec<Script<K>>,
    pages: usize,
    is_over: bool,
    ghost servers: { (1 ≤ length scripts.items) × (length scripts.items ≤ 64) },
}

impl<K: Keeper + Drop> FarmScript<K> {
    ghost use Rattle.std.specs.Prelude.{◌≤◌, All, IfOk};
    ghost use Rattle.keeper.specs.Items.{IsEmptyTold};
    ghost use Rattle.partition.specs.Farm.{empty_run};
    ghost use Rattle.partition.specs.FarmStands.{FarmIsOver, FarmStands, servers_of};

    /// A script with no pages over 1 to 64 keepers with no items, one for each server, whose
    /// cookies begin at 1. After `NoMemory` the keepers are dropped.
    pub fn new(alloc: Global, keepers: Vec<K>) -> Result<FarmScript<K>, NoMemory>
        requires servers { (1 ≤ length keepers.items) × (length keepers.items ≤ 64) }
        requires no_faults { All (λ keeper. K.count keeper ≡ 0) keepers.items }
        requires empty { All (λ keeper. IsEmptyTold (K.told keeper)) keepers.items }
        ensures stands { IfOk result (λ farm. FarmStands ⟦<K as Keeper>⟧ farm empty_run) }
        ensures servers { IfOk result (λ farm. servers_of farm ≡ length keepers.items) }
        ensures begun { IfOk result (λ farm. FarmIsOver farm → ⊥) }
    {
        let mut scripts = Vec::new(alloc);
        for keeper in keepers {
            scripts.push(Script::new(alloc, keeper))?;
        }
        Ok(FarmScript {
            alloc,
            scripts,
            pages: 0,
            is_over: false,
        })
    }
}

impl<K: Keeper> FarmScript<K> {
    ghost use Rattle.std.specs.Prelude.{◌≤◌, ◌^◌};
    ghost use Rattle.page_script.specs.declared.line.Line.{Line};
    ghost use Rattle.page_script.specs.Lines.{LineFits, PageFits};
    ghost use Rattle.page_script.specs.ScriptStands.{IsAppended};
    ghost use Rattle.partition.specs.FarmStands.{EachRunStays, EachRunTakes, EachRunMayTake, NoRunTakes};
    ghost use Rattle.partition.specs.FarmStands.{EachRunTakesText, EachRunMayTakeText, NoRunTakesText, FarmIsOver, IsSameFarm, servers_of};

    /// How many servers there are, 1 to 64.
    pub fn servers(&self) -> u64
        ensures { result ≡ servers_of self.now }
    {
        self.scripts.len() as u64
    }

    /// The limits of the pages to come, on each server.
    fn set_limits(&mut self, limits: Limits)
        requires { LimitsFit limits }
        ensures takes { EachRunTakes ⟦<K as Keeper>⟧ self.old self.new (Line.Limits limits)
            (λ printed. printed ≡ []) }
        ensures servers { servers_of self.new ≡ servers_of self.old }
        ensures is_over { self.new.is_over ≡ self.old.is_over }
    {
        limit_each(&mut self.scripts, limits);
    }

    /// A new page, on the server of its key.
    fn add_page(&mut self, page: PageLine) -> LineEnd
        requires { PageFits page }
        ensures done { result ≡ LineEnd.Done → EachRunTakes ⟦<K as Keeper>⟧ self.old self.new
            (Line.Page page) (λ printed. printed ≡ []) }
        ensures not_a_line { result ≡ LineEnd.NotALine
            → NoRunTakes ⟦<K as Keeper>⟧ self.old (Line.Page page) }
        ensures unchanged { result ≡ LineEnd.NotALine → IsSameFarm self.old self.new }
        ensures no_memory { result ≡ LineEnd.NoMemory
            → EachRunStays ⟦<K as Keeper>⟧ self.old self.new }
        ensures servers { servers_of self.new ≡ servers_of self.old }
        ensures is_over { self.new.is_over ≡ self.old.is_over }
    {
        if self.pages >= MOST_PAGES {
            return LineEnd::NotALine;
        }
        if server_with(&self.scripts, &page.name).is_some() {
            return LineEnd::NotALine;
        }
        let server = server_of(page.key.as_slice(), self.servers());
        let end = self.scripts[server as usize].add_page(page);
        if end == LineEnd::Done {
            self.pages += 1;
        }
        end
    }

    /// One step of the page of this name, with the number of its server in front of what it prints.
    fn step(&mut self, moment: u64, name: Name, out: &mut Vec<u8>) -> LineEnd
        requires { moment ≤ 2 ^ 62 }
        ensures done { result ≡ LineEnd.Done → EachRunTakes ⟦<K as Keeper>⟧ self.old self.new
            (Line.Step moment name) (IsAppended out.old.items out.new.items) }
        ensures not_a_line { result ≡ LineEnd.NotALine
            → NoRunTakes ⟦<K as Keeper>⟧ self.old (Line.Step moment name) }
        ensures unchanged { result ≡ LineEnd.NotALine → IsSameFarm self.old self.new }
        ensures no_memory { result ≡ LineEnd.NoMemory
            → EachRunMayTake ⟦<K as Keeper>⟧ self.old self.new (Line.Step moment name) }
        ensures same { (result ≡ LineEnd.Done → ⊥) → out.new.items ≡ out.old.items }
        ensures servers { servers_of self.new ≡ servers_of self.old }
        ensures is_over { self.new.is_over ≡ self.old.is_over }
    {
        let Some(server) = server_with(&self.scripts, &name) else {
            return LineEnd::NotALine;
        };
        step_on(&mut self.scripts[server], server, moment, name, out)
    }

    /// One line.
    fn run(&mut self, line: Line, out: &mut Vec<u8>) -> LineEnd
        requires { LineFits line }
        ensures done { result ≡ LineEnd.Done → EachRunTakes ⟦<K as Keeper>⟧ self.old self.new
            line (IsAppended out.old.items out.new.items) }
        ensures not_a_line { result ≡ LineEnd.NotALine
            → NoRunTakes ⟦<K as Keeper>⟧ self.old line }
        ensures unchanged { result ≡ LineEnd.NotALine → IsSameFarm self.old self.new }
        ensures no_memory { result ≡ LineEnd.NoMemory
            → EachRunMayTake ⟦<K as Keeper>⟧ self.old self.new line }
        ensures same { (result ≡ LineEnd.Done → ⊥) → out.new.items ≡ out.old.items }
        ensures servers { servers_of self.new ≡ servers_of self.old }
    {
        match line {
            Line::Limits(limits) => {
                self.set_limits(limits);
                LineEnd::Done
            }
            Line::Page(page) => self.add_page(page),
            Line::Step { moment, name } => self.step(moment, name, out),
        }
    }

    /// Runs one line, without its line feed, and appends what is printed for it. After `NoMemory`
    /// the farm is over, and each later line answers `NoMemory`; the last step was made or not.
    pub fn line(&mut self, text: &[u8], out: &mut Vec<u8>) -> LineEnd
        // Each run that the farm stands for takes the line, and what is printed for it was
        // appended.
        ensures done { result ≡ LineEnd.Done → EachRunTakesText ⟦<K as Keeper>⟧ self.old
            self.new text.now (IsAppended out.old.items out.new.items) }
        ensures goes_on { result ≡ LineEnd.Done → FarmIsOver self.new → ⊥ }

        // In no run that the farm stands for may such a line follow; nothing changed.
        ensures not_a_line { result ≡ LineEnd.NotALine
            → NoRunTakesText ⟦<K as Keeper>⟧ self.old text.now }
        ensures unchanged { result ≡ LineEnd.NotALine → IsSameFarm self.old self.new }

        // For want of memory each run stayed, or took the line without a print.
        ensures no_memory { result ≡ LineEnd.NoMemory
            → EachRunMayTakeText ⟦<K as Keeper>⟧ self.old self.new text.now }
        ensures is_over { result ≡ LineEnd.NoMemory → FarmIsOver self.new }
        ensures stays_over { FarmIsOver self.old → (result ≡ LineEnd.NoMemory)
            × (self.new ≡ self.old) }
        ensures same { (result ≡ LineEnd.Done → ⊥) → out.new.items ≡ out.old.items }
        ensures servers { servers_of self.new ≡ servers_of self.old }
    {
        if self.is_over {
            return LineEnd::NoMemory;
        }
        match read_line(self.alloc, text) {
            Ok(Some(line)) => {
                let end = self.run(line, out);
                self.is_over = end == LineEnd::NoMemory;
                end
            }
            Ok(None) => LineEnd::NotALine,
            Err(NoMemory) => {
                self.is_over = true;
                LineEnd::NoMemory
            }
        }
    }
}
