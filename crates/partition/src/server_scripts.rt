//! The scripts of a farm's servers, side by side.
ghost use Rattle.std.specs.Prelude.{◌≡◌, ◌<◌, ◌≤◌, ◌^◌, ◌++◌, ◌∷◌, [], ℕ, decimal, length, MatchOption, OnOk, OnErr, ⊤};
ghost use Rattle.asp_messages.specs.Appending.{Extends};
ghost use Rattle.page_script.specs.declared.line.Line.{Line};
ghost use Rattle.page_script.specs.ScriptStands.{EachWorldTakes, EachWorldMayTake, NoWorldTakes};
ghost use Rattle.page_script.specs.World.{World, HasName};
ghost use Rattle.partition.specs.FarmStands.{ScriptsStand};
ghost use Rattle.partition.specs.Limited.{limited};
ghost use Rattle.visit_core.specs.Terms.{LimitsFit};

use asp_base::NoMemory;
use asp_messages::{or_undo, push, push_number};
use keeper::Keeper;
use page_script::{LineEnd, Name, Script};
use visit_core::Limits;

/// A server's number, and a space.
fn push_server(out: &mut Vec<u8>, server: usize) -> Result<(), NoMemory>
    ensures ok { OnOk result (out.new.items ≡ out.old.items ++ (decimal server ++ 32 ∷ [])) }
    ensures err { OnErr result (Extends out.old.items out.new.items) }
{
    push_number(out, server as u64)?;
    push(out, b" ")
}

/// Appends a server's number and a space. After want of memory nothing is appended.
fn number_line(out: &mut Vec<u8>, server: usize) -> Result<(), NoMemory>
    ensures ok { OnOk result (out.new.items ≡ out.old.items ++ (decimal server ++ 32 ∷ [])) }
    ensures err { OnErr result (out.new.items ≡ out.old.items) }
{
    let len = out.len();
    let numbered = push_server(out, server);
    or_undo(numbered, out, len)
}

/// The server that has a page of this name.
pub fn server_with<K: Keeper>(scripts: &[Script<K>], name: &Name) -> Option<usize>
    ensures found { (worlds : ℕ → World) → ScriptsStand ⟦<K as Keeper>⟧ scripts.now worlds
        → MatchOption result
        ((server : ℕ) → server < length scripts.now → HasName (worlds server).pages name.now → ⊥)
        (λ server. HasName (worlds server).pages name.now) }
    ensures inside { MatchOption result ⊤ (λ server. server < length scripts.now) }
{
    for (server, script) in scripts.iter().enumerate() {
        if script.has_page(name) {
            return Some(server);
        }
    }
    None
}

/// The limits of the pages to come, on each server.
pub fn limit_each<K: Keeper>(scripts: &mut [Script<K>], limits: Limits)
    requires { LimitsFit limits }
    ensures limited { (worlds : ℕ → World) → ScriptsStand ⟦<K as Keeper>⟧ scripts.old worlds
        → ScriptsStand ⟦<K as Keeper>⟧ scripts.new (λ server. limited limits (worlds server)) }
    ensures count { length scripts.new ≡ length scripts.old }
{
    for script in scripts.iter_mut() {
        script.set_limits(limits);
    }
}

/// One step of the page of this name of the server's script, which is no line where there is none:
/// the server's number and what the step prints are appended.
pub fn step_on<K: Keeper>(
    script: &mut Script<K>,
    server: usize,
    moment: u64,
    name: Name,
    out: &mut Vec<u8>,
) -> LineEnd
    requires { moment ≤ 2 ^ 62 }
    ensures done { result ≡ LineEnd.Done → EachWorldTakes ⟦<K as Keeper>⟧ script.old script.new
        (Line.Step moment name)
        (λ printed. out.new.items ≡ out.old.items ++ (decimal server ++ 32 ∷ printed)) }
    ensures not_a_line { result ≡ LineEnd.NotALine
        → NoWorldTakes ⟦<K as Keeper>⟧ script.old (Line.Step moment name) }
    ensures unchanged { result ≡ LineEnd.NotALine → script.new ≡ script.old }
    ensures no_memory { result ≡ LineEnd.NoMemory
        → EachWorldMayTake ⟦<K as Keeper>⟧ script.old script.new (Line.Step moment name) }
    ensures same { (result ≡ LineEnd.Done → ⊥) → out.new.items ≡ out.old.items }
{
    let len = out.len();
    let Ok(()) = number_line(out, server) else {
        return LineEnd::NoMemory;
    };
    let end = script.step(moment, name, out);
    if end != LineEnd::Done {
        out.truncate(len);
    }
    end
}
