//! What follows from the rule of a visit. The functions do nothing; what they ensure holds of all
//! pasts.
ghost use Rattle.std.specs.Prelude.{◌≡◌, ◌↔◌, ℕ, List, false};
ghost use Rattle.asp_messages.specs.declared.request.Ask.TheVariants.{Release};
ghost use Rattle.visit_core.specs.Terms.{VisitTerms};
ghost use Rattle.visit_core.specs.VisitRule.{Event, IsLawful, has_ended, act_of, send_ask, MeetsOldLock};

/// Before its page's end a visit releases a lock exactly where its last ask met that lock, the lock
/// was older than a page may run, and polls are left.
pub fn releases_only_an_old_lock()
    ensures { (terms : VisitTerms) (past : List Event) (t cookie : ℕ) → IsLawful terms past
        → has_ended past ≡ false → ((act_of terms past t ≡ send_ask terms (Release cookie))
        ↔ MeetsOldLock terms past cookie) }
{}
