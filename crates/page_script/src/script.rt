//! A script: its pages, and the desk that they share.
ghost use Rattle.std.specs.Prelude.{◌≡◌, ◌<◌, ◌++◌, ◌∷◌, [], ◌↔◌, length, IsTrue, MatchOption, OnOk, OnErr};
ghost use Rattle.visit_core.specs.Terms.{LimitsFit};
ghost use Rattle.page_script.specs.PagePlaces.{IsUnused, IsIndexOf};

use crate::script_page::ScriptPage;
use crate::{Line, Name, PageLine, read_line};
use asp_base::NoMemory;
use asp_messages::{MOST_COOKIE, or_undo};
use cookie_source::PlainCookies;
use keeper::Keeper;
use plain_desk::PlainDesk;
use std::alloc::Global;
use visit_core::Limits;

/// The most pages of a script.
pub const MOST_PAGES: usize = 64;

/// How a line ended.
#[derive(Clone, Copy, Debug, PartialEq, Eq)]
pub enum LineEnd {
    /// It was done, and its output was appended.
    Done,
    /// It is no line of a script, or none that may follow: nothing changed.
    NotALine,
    /// Memory was wanting; the script is over.
    NoMemory,
}

/// A page script, run line by line over one keeper. Contracts tie it to the worlds that it stands
/// for.
#[derive(Drop)]
pub struct Script<K> {
    alloc: Global,
    desk: PlainDesk<K>,
    pages: Vec<ScriptPage>,
    limits: Limits,
    is_over: bool,
    ghost limits_fit: { LimitsFit limits },
}

/// The place of the page of this name.
fn place_of(pages: &[ScriptPage], name: &Name) -> Option<usize>
    ensures { MatchOption result (IsUnused pages.now name.now) (IsIndexOf pages.now name.now) }
{
    for (i, page) in pages.iter().enumerate() {
        if page.name == *name {
            return Some(i);
        }
    }
    None
}

/// Whether a page of this name may be added.
fn is_free(pages: &[ScriptPage], name: &Name) -> bool
    ensures { IsTrue result ↔ ((length pages.now < MOST_PAGES) × IsUnused pages.now name.now) }
{
    pages.len() < MOST_PAGES && place_of(pages, name).is_none()
}

/// Adds a page behind the others.
fn push_page(pages: &mut Vec<ScriptPage>, page: ScriptPage) -> Result<(), NoMemory>
    ensures ok { OnOk result (pages.new.items ≡ pages.old.items ++ page ∷ []) }
    ensures err { OnErr result (pages.new.items ≡ pages.old.items) }
{
    pages.push(page)?;
    Ok(())
}

impl<K: Keeper> Script<K> {
    ghost use Rattle.std.specs.Prelude.{◌≡◌, ◌≤◌, ◌^◌, ◌↔◌, [], IsTrue};
    ghost use Rattle.std.specs.List.{AllByRecursion};
    ghost use Rattle.keeper.specs.Items.{IsEmptyTold};
    ghost use Rattle.shard_core.specs.ShardStands.{StandsFor};
    ghost use Rattle.page_script.specs.declared.line.Line.{Line};
    ghost use Rattle.page_script.specs.Lines.{LineFits, PageFits};
    ghost use Rattle.asp_messages.specs.Fields.{most_cookie};
    ghost use Rattle.plain_desk.specs.Openings.{HasFreshCookies, NeverBegins, cookies_of, opening_over, opening_with};
    ghost use Rattle.page_script.specs.World.{history, world_from, HasName, IsLawfulWorld, PagesForceOldLocks};
    ghost use Rattle.page_script.specs.ScriptStands.{ScriptStands, IsAppended, IfTold, IfTells, ScriptIsOver, keeper_of, opening_of};
    ghost use Rattle.page_script.specs.ScriptStands.{EachWorld, EachWorldStays, EachWorldTakes, EachWorldMayTake, NoWorldTakes, EachWorldTakesText, EachWorldMayTakeText, NoWorldTakesText};

    /// A script with no pages over a keeper with no items, whose cookies begin at 1. It takes no
    /// memory.
    pub fn new(alloc: Global, keeper: K) -> Script<K>
        requires no_faults { K.count keeper ≡ 0 }
        requires empty { IsEmptyTold (K.told keeper) }
        ensures keeper { keeper_of result ≡ keeper }
        ensures stands { ScriptStands ⟦<K as Keeper>⟧ result
            (world_from (opening_with 1 most_cookie)) }
        ensures begun { ScriptIsOver result → ⊥ }
    {
        Script::over(alloc, keeper, Some(PlainCookies::new(1, MOST_COOKIE)))
    }

    /// A script with no pages over the keeper, whose acquires draw these cookies; with `None` they
    /// find none. Its history begins with the items that the keeper has. It takes no memory.
    pub fn over(alloc: Global, keeper: K, cookies: Option<PlainCookies>) -> Script<K>
        requires { HasFreshCookies (opening_over ⟦<K as Keeper>⟧ keeper (cookies_of cookies)) }
        ensures keeper { keeper_of result ≡ keeper }
        ensures begins { opening_of ⟦<K as Keeper>⟧ result
            ≡ opening_over ⟦<K as Keeper>⟧ keeper (cookies_of cookies) }
        ensures stands { ScriptStands ⟦<K as Keeper>⟧ result
            (world_from (opening_over ⟦<K as Keeper>⟧ keeper (cookies_of cookies))) }
        ensures begun { ScriptIsOver result → ⊥ }
    {
        Script {
            alloc,
            desk: PlainDesk::over(alloc, keeper, cookies),
            pages: Vec::new(alloc),
            limits: Limits::default(),
            is_over: false,
        }
    }

    /// Whether it has a page of this name.
    pub fn has_page(&self, name: &Name) -> bool
        ensures { EachWorld ⟦<K as Keeper>⟧ self.now (λ world.
            IsTrue result ↔ HasName world.pages name.now) }
    {
        place_of(&self.pages, name).is_some()
    }

    /// The limits of the pages to come. It takes no memory.
    pub fn set_limits(&mut self, limits: Limits)
        requires { LimitsFit limits }
        ensures takes { EachWorldTakes ⟦<K as Keeper>⟧ self.old self.new
            (Line.Limits limits) (λ printed. printed ≡ []) }
        ensures goes_on { ScriptIsOver self.new → ScriptIsOver self.old }
        ensures keeper { keeper_of self.new ≡ keeper_of self.old }
    {
        self.limits = limits;
    }

    /// A new page, which is no line where its name is in use or 64 pages are there. After
    /// `NoMemory` the script is over.
    pub fn add_page(&mut self, line: PageLine) -> LineEnd
        requires { PageFits line }
        ensures done { result ≡ LineEnd.Done → EachWorldTakes ⟦<K as Keeper>⟧ self.old self.new
            (Line.Page line) (λ printed. printed ≡ []) }
        ensures not_a_line { result ≡ LineEnd.NotALine
            → NoWorldTakes ⟦<K as Keeper>⟧ self.old (Line.Page line) }
        ensures unchanged { result ≡ LineEnd.NotALine → self.new ≡ self.old }
        ensures no_memory { result ≡ LineEnd.NoMemory
            → EachWorldStays ⟦<K as Keeper>⟧ self.old self.new }
        ensures is_over { result ≡ LineEnd.NoMemory → ScriptIsOver self.new }
        ensures goes_on { result ≡ LineEnd.Done → ScriptIsOver self.new → ScriptIsOver self.old }
        ensures keeper { keeper_of self.new ≡ keeper_of self.old }
    {
        if !is_free(&self.pages, &line.name) {
            return LineEnd::NotALine;
        }
        let page = ScriptPage::new(self.limits, line);
        match push_page(&mut self.pages, page) {
            Ok(()) => LineEnd::Done,
            Err(NoMemory) => {
                self.is_over = true;
                LineEnd::NoMemory
            }
        }
    }

    /// One step of the page of this name, which is no line where there is none: what it prints is
    /// appended. After `NoMemory` the script is over, and the step was made or not.
    pub fn step(&mut self, t: u64, name: Name, out: &mut Vec<u8>) -> LineEnd
        requires { t ≤ 2 ^ 62 }
        ensures done { result ≡ LineEnd.Done → EachWorldTakes ⟦<K as Keeper>⟧ self.old self.new
            (Line.Step t name) (IsAppended out.old.items out.new.items) }
        ensures not_a_line { result ≡ LineEnd.NotALine
            → NoWorldTakes ⟦<K as Keeper>⟧ self.old (Line.Step t name) }
        ensures unchanged { result ≡ LineEnd.NotALine → self.new ≡ self.old }
        ensures no_memory { result ≡ LineEnd.NoMemory
            → EachWorldMayTake ⟦<K as Keeper>⟧ self.old self.new (Line.Step t name) }
        ensures is_over { result ≡ LineEnd.NoMemory → ScriptIsOver self.new }
        ensures goes_on { result ≡ LineEnd.Done → ScriptIsOver self.new → ScriptIsOver self.old }
        ensures same { (result ≡ LineEnd.Done → ⊥) → out.new.items ≡ out.old.items }
        ensures floor { K.floor (keeper_of self.new) ≡ K.floor (keeper_of self.old) }
        ensures tells { NeverBegins (K.told (keeper_of self.old)) (K.told (keeper_of self.new)) }
    {
        let Some(place) = place_of(&self.pages, &name) else {
            return LineEnd::NotALine;
        };
        let len = out.len();
        let written = self.pages[place].step(self.alloc, &mut self.desk, t, out);
        match or_undo(written, out, len) {
            Ok(()) => LineEnd::Done,
            Err(NoMemory) => {
                self.is_over = true;
                LineEnd::NoMemory
            }
        }
    }

    /// One line.
    fn run(&mut self, line: Line, out: &mut Vec<u8>) -> LineEnd
        requires { LineFits line }
        ensures done { result ≡ LineEnd.Done → EachWorldTakes ⟦<K as Keeper>⟧ self.old self.new
            line (IsAppended out.old.items out.new.items) }
        ensures not_a_line { result ≡ LineEnd.NotALine
            → NoWorldTakes ⟦<K as Keeper>⟧ self.old line }
        ensures unchanged { result ≡ LineEnd.NotALine → self.new ≡ self.old }
        ensures no_memory { result ≡ LineEnd.NoMemory
            → EachWorldMayTake ⟦<K as Keeper>⟧ self.old self.new line }
        ensures is_over { result ≡ LineEnd.NoMemory → ScriptIsOver self.new }
        ensures goes_on { result ≡ LineEnd.Done → ScriptIsOver self.new → ScriptIsOver self.old }
        ensures same { (result ≡ LineEnd.Done → ⊥) → out.new.items ≡ out.old.items }
        ensures floor { K.floor (keeper_of self.new) ≡ K.floor (keeper_of self.old) }
        ensures tells { NeverBegins (K.told (keeper_of self.old)) (K.told (keeper_of self.new)) }
    {
        match line {
            Line::Limits(limits) => {
                self.set_limits(limits);
                LineEnd::Done
            }
            Line::Page(page) => self.add_page(page),
            Line::Step { moment, name } => self.step(moment, name, out),
        }
    }

    /// Runs one line, without its line feed, and appends what is printed for it. After `NoMemory`
    /// the script is over, and each later line answers `NoMemory`; the last step was made or not.
    pub fn line(&mut self, text: &[u8], out: &mut Vec<u8>) -> LineEnd
        // Each world that the script stands for takes the line, and what is printed for it was
        // appended.
        ensures done { result ≡ LineEnd.Done → EachWorldTakesText ⟦<K as Keeper>⟧ self.old
            self.new text.now (IsAppended out.old.items out.new.items) }
        ensures goes_on { result ≡ LineEnd.Done → ScriptIsOver self.new → ⊥ }

        // In no world that the script stands for may such a line follow; nothing changed.
        ensures not_a_line { result ≡ LineEnd.NotALine
            → NoWorldTakesText ⟦<K as Keeper>⟧ self.old text.now }
        ensures unchanged { result ≡ LineEnd.NotALine → self.new ≡ self.old }

        // For want of memory each world stayed, or took the line without a print.
        ensures no_memory { result ≡ LineEnd.NoMemory
            → EachWorldMayTakeText ⟦<K as Keeper>⟧ self.old self.new text.now }
        ensures is_over { result ≡ LineEnd.NoMemory → ScriptIsOver self.new }
        ensures stays_over { ScriptIsOver self.old → (result ≡ LineEnd.NoMemory)
            × (self.new ≡ self.old) }
        ensures same { (result ≡ LineEnd.Done → ⊥) → out.new.items ≡ out.old.items }

        // Each page follows the rule of its visit over its own past, and releases by force only a
        // lock that is in force and old.
        ensures lawful { EachWorld ⟦<K as Keeper>⟧ self.old IsLawfulWorld }
        ensures forced { EachWorld ⟦<K as Keeper>⟧ self.old
            (λ world. IfTells ⟦<K as Keeper>⟧ self.old (PagesForceOldLocks world)) }
        ensures floor { K.floor (keeper_of self.new) ≡ K.floor (keeper_of self.old) }
        ensures tells { NeverBegins (K.told (keeper_of self.old)) (K.told (keeper_of self.new)) }
    {
        if self.is_over {
            return LineEnd::NoMemory;
        }
        match read_line(self.alloc, text) {
            Ok(Some(line)) => self.run(line, out),
            Ok(None) => LineEnd::NotALine,
            Err(NoMemory) => {
                self.is_over = true;
                LineEnd::NoMemory
            }
        }
    }

    /// The keeper, with the items and the count of faults after the history of the script's
    /// requests.
    pub fn into_keeper(self) -> K
        ensures keeper { result ≡ keeper_of self }
        ensures history { EachWorld ⟦<K as Keeper>⟧ self (λ world.
            StandsFor world.opening.items world.opening.count (history world.turns)
            (K.told result) (K.count result)) }
        ensures counts { EachWorld ⟦<K as Keeper>⟧ self (λ world.
            AllByRecursion (λ e. K.can_count e.faults) (history world.turns)) }
        ensures lawful { EachWorld ⟦<K as Keeper>⟧ self IsLawfulWorld }
        ensures forced { EachWorld ⟦<K as Keeper>⟧ self
            (λ world. IfTold (K.told result) (PagesForceOldLocks world)) }
    {
        self.desk.into_keeper()
    }
}
