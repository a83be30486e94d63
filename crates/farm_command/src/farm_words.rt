//! The words of the command `farm`.
ghost use Rattle.std.specs.Prelude.{◌≡◌, ◌≤◌, IfSome, map, string_bytes};
ghost use Rattle.farm_command.specs.FarmWords.{farm_of};

use asp_base::read_number;

/// The most servers of a farm.
const MOST_SERVERS: u64 = 64;

/// How many servers the words `farm N` say, 1 to 64; `None` where they are others. It takes no
/// memory.
#[tactic(auto, unfolding(crate::specs::FarmWords::farm_of))]
pub fn farm_of(words: &[String]) -> Option<u64>
    ensures fits { IfSome result (λ servers. (1 ≤ servers) × (servers ≤ 64)) }
    ensures value { result ≡ farm_of (map string_bytes words.now) }
{
    let [name, servers] = words else {
        return None;
    };
    if name.as_str() != "farm" {
        return None;
    }
    let servers = read_number(servers.as_bytes(), MOST_SERVERS)?;
    if servers == 0 {
        return None;
    }
    Some(servers)
}
