//! The laws. The functions do nothing; what they ensure holds of every legal history of any profile
//! from any items.
ghost use Rattle.std.specs.Prelude.{ℕ, List, Option};
ghost use Rattle.session_machine.specs.declared.entry.Entry.{Entry};
ghost use Rattle.session_machine.specs.declared.item.Item.{Item};
ghost use Rattle.session_machine.specs.declared.item.Profile.{Profile};
ghost use Rattle.session_machine.specs.History.{IsLegalIn};
ghost use Rattle.lock_laws.specs.Laws.{ActsOnlyInForce, InForceIsDone, NoUpdateIsLost, NobodyElse, LockInTheWayIsInForce, LocksHoldIn, FaultsAreCounted};

/// A request that names a cookie acts only where that lock is in force: a stale cookie changes
/// nothing.
pub fn acts_only_in_force()
    ensures { (profile : Profile) (opening : List ℕ → Option Item) (count : ℕ)
        (list : List Entry) → IsLegalIn profile opening count list
        → ActsOnlyInForce profile opening count list }
{}

/// A request that names a cookie whose lock is in force is done, or answered that nothing was done,
/// for want of memory or a fault of the keeper.
pub fn in_force_is_done()
    ensures { (profile : Profile) (opening : List ℕ → Option Item) (count : ℕ)
        (list : List Entry) → IsLegalIn profile opening count list
        → InForceIsDone profile opening count list }
{}

/// A write that names a cookie and acts finds what was granted with the cookie: no update is lost.
pub fn no_update_is_lost()
    ensures { (profile : Profile) (opening : List ℕ → Option Item) (count : ℕ)
        (list : List Entry) → IsLegalIn profile opening count list
        → NoUpdateIsLost profile opening count list }
{}

/// While a lock is in force nobody acquires, and nobody writes or removes without its cookie.
pub fn nobody_else()
    ensures { (profile : Profile) (opening : List ℕ → Option Item) (count : ℕ)
        (list : List Entry) → IsLegalIn profile opening count list
        → NobodyElse profile opening count list }
{}

/// Where an acquire or a read is answered that a lock is in the way, that lock is in force, and as
/// old as the answer says.
pub fn lock_in_the_way_is_in_force()
    ensures { (profile : Profile) (opening : List ℕ → Option Item) (count : ℕ)
        (list : List Entry) → IsLegalIn profile opening count list
        → LockInTheWayIsInForce profile opening count list }
{}

/// All that locks give.
pub fn locks_hold()
    ensures { (profile : Profile) (opening : List ℕ → Option Item) (count : ℕ)
        (list : List Entry) → IsLegalIn profile opening count list
        → LocksHoldIn profile opening count list }
{}

/// A keeper that counts no fault is never answered to have failed.
pub fn faults_are_counted()
    ensures { (profile : Profile) (opening : List ℕ → Option Item) (list : List Entry)
        → IsLegalIn profile opening 0 list → FaultsAreCounted list }
{}
