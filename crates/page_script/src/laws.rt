//! Laws of lines and of the world. The functions do nothing; what they ensure holds of all texts,
//! lines and worlds.
ghost use Rattle.std.specs.Prelude.{◌≡◌, ◌++◌, ◌∷◌, [], ℕ, List};
ghost use Rattle.std.specs.List.{AllByRecursion};
ghost use Rattle.plain_words.specs.Words.{HasNo};
ghost use Rattle.plain_desk.specs.Openings.{Opening};
ghost use Rattle.session_machine.specs.History.{IsLegal};
ghost use Rattle.page_script.specs.declared.line.Line.{Line};
ghost use Rattle.page_script.specs.Lines.{IsScriptLine, LineFits};
ghost use Rattle.page_script.specs.World.{World, history, WorldStep, Leads, IsWorldRun, IsLawfulWorld, PagesForceOldLocks};

/// A text spells at most one line, and none where it holds a line feed.
pub fn one_line()
    ensures one { (text : List ℕ) (a b : Line) → IsScriptLine text a → IsScriptLine text b → a ≡ b }
    ensures no_line_feed { (text : List ℕ) (line : Line) → IsScriptLine text line → HasNo 10 text }
{}

/// A run of the world goes on by one line.
pub fn runs_go_on()
    ensures { (opening : Opening) (script : List Line) (world : World) (output : List ℕ)
        (line : Line) (next : World) (printed : List ℕ)
        → IsWorldRun opening script world output → WorldStep world line next printed
        → IsWorldRun opening (script ++ line ∷ []) next (output ++ printed) }
{}

/// In each world of a run each page follows the rule of its visit over its own past. Where the
/// history of the run is legal, a page that releases a lock before its end met that lock, which was
/// in force, and older than a page may run.
pub fn pages_keep_their_rule()
    ensures lawful { (opening : Opening) (script : List Line) (world : World) (output : List ℕ)
        → AllByRecursion LineFits script → IsWorldRun opening script world output
        → IsLawfulWorld world }
    ensures forced { (opening : Opening) (script rest : List Line) (world last : World)
        (output more : List ℕ) → AllByRecursion LineFits script
        → IsWorldRun opening script world output → Leads world rest last more
        → IsLegal opening.items opening.count (history last.turns) → PagesForceOldLocks world }
{}
