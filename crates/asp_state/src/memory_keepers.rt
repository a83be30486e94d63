//! Keepers in memory: one for each shard of a store, or for each server of a farm.
ghost use Rattle.std.specs.Prelude.{◌≡◌, [], All, IfSome, length};

use keeper::MapKeeper;
use std::alloc::Global;

/// So many empty keepers, `None` where memory is wanting.
pub fn keepers_of(alloc: Global, count: u64) -> Option<Vec<MapKeeper>>
    ensures { IfSome result (λ keepers. (length keepers.items ≡ count)
        × All (λ pairs. pairs ≡ []) keepers.items) }
{
    let mut keepers = Vec::new(alloc);
    for _ in 0..count {
        keepers.push(MapKeeper::new(alloc)).ok()?;
    }
    Some(keepers)
}
