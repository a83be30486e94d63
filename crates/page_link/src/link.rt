//! A link to the state server.
ghost use Rattle.std.specs.Prelude.{◌≡◌, ℕ, ◌<◌, ◌≤◌, List, Option, [], ◌∷◌, length, MatchResult};
ghost use Rattle.asp_base.specs.Causes.{HasCause};
ghost use Rattle.page_link.specs.Links.{IsReceipt, KeepsPauses, LinkSends, SendsFront};

use asp_base::Failed;
use std::rt::Clock as HostTime;

/// One end of a connection. What stands behind it may fail, and counts each failure.
pub trait Link {
    /// The bytes sent so far and the bytes still to be received, where the link tells them.
    ghost told: { Self → Option (List ℕ × List ℕ) };

    /// The moments until which it was told to pause, so many of the first of them as it had room
    /// for, and for how many more it has room, where the link tells them.
    ghost pauses: { Self → Option (List ℕ × ℕ) };

    /// How often it failed.
    ghost faults: { Self → ℕ };

    /// Sends the whole piece. After `Failed` a front of it was sent, and the count of failures
    /// rose.
    fn send<R>(&mut self, rt: &R, piece: &[u8]) -> Result<(), Failed>
        ensures sends { MatchResult result
            (λ _. LinkSends (told self.old) (told self.new) piece.now)
            (λ _. SendsFront (told self.old) (told self.new) piece.now) }
        ensures pauses { pauses self.new ≡ pauses self.old }
        ensures cause { HasCause (faults self.old) (faults self.new) result };

    /// Puts the next bytes received into `buf`, which is not empty, and answers how many; 0 is the
    /// end. `Failed` takes none, and comes only where the count of failures rose.
    fn receive<R>(&mut self, rt: &R, buf: &mut [u8]) -> Result<usize, Failed>
        requires { 0 < length buf.old }
        ensures receives { IsReceipt (told self.old) (told self.new) result buf.new }
        ensures pauses { pauses self.new ≡ pauses self.old }
        ensures cause { HasCause (faults self.old) (faults self.new) result };

    /// Lets time pass until the moment `until`, in milliseconds.
    fn pause<R: HostTime>(&mut self, rt: &R, until: u64)
        ensures told { told self.new ≡ told self.old }
        ensures pauses { KeepsPauses (pauses self.old) (pauses self.new) (until ∷ []) }
        ensures faults { faults self.old ≤ faults self.new };
}
