//! The top call of the gateway.
ghost use Rattle.std.specs.Prelude.{◌≡◌, ◌≤◌, ◌⊎◌, ◌↔◌, [], None, IfSome, map, string_bytes};
ghost use Rattle.asp_base.specs.Causes.{Rose};
ghost use Rattle.keeper.specs.Items.{IsEmptyTold};
ghost use Rattle.command_loop.specs.Flow.{flow};
ghost use Rattle.id_gateway.specs.Gate.{GateEnd, GateFits, IsGateRun, IsWholePages, gate_seen, status_number};
ghost use Rattle.id_gateway.specs.Keeping.{GateWent, random_of};
ghost use Rattle.id_gateway.specs.Words.{gate_of};

use crate::Random;
use crate::gatekeeper::Gatekeeper;
use crate::words::{GateTerms, gate_of};
use asp_base::{MOST_INPUT, Sink, Source, status};
use command_loop::{RunEnd, Status, run};
use keeper::Keeper;
use std::alloc::Global;

/// What a gateway answers.
#[derive(Debug, Drop)]
pub struct Gated<K, R> {
    /// The status.
    pub status: u8,
    /// The keeper that it was given, as the run left it.
    pub keeper: K,
    /// Where new identifiers came from, as the run left it.
    pub random: R,
}

/// What the input of a run was.
#[derive(Clone, Copy, Debug, PartialEq, Eq, Drop)]
pub enum GateVerdict {
    /// It was whole page requests, and each was answered.
    Whole,
    /// It was no whole page requests.
    Broken,
}

impl Status for GateVerdict {
    ghost use Rattle.id_gateway.specs.Gate.{verdict_number};

    ghost number = { verdict_number };

    fn number(&self) -> u8 {
        match self {
            GateVerdict::Whole => status::DONE,
            GateVerdict::Broken => status::NOT_WHOLE,
        }
    }
}

/// Runs the gatekeeper over the source and the sink; it keeps where its identifiers come from.
fn run_keeper<S: Source, T: Sink, K: Keeper, R: Random>(
    gatekeeper: &mut Gatekeeper<K, R>,
    source: &mut S,
    sink: &mut T,
) -> RunEnd<GateVerdict>
    requires begun { GateWent ⟦<K as Keeper>⟧ ⟦<R as Random>⟧ gatekeeper.old gatekeeper.old [] [] }
    ensures ran { IsGateRun K.can_count gatekeeper.old.gate (gate_seen
        (flow (S.told source.old) (S.told source.new) (T.taken sink.old) (T.taken sink.new))
        (random_of ⟦<R as Random>⟧ gatekeeper.old.random)
        (random_of ⟦<R as Random>⟧ gatekeeper.new.random)
        (K.told gatekeeper.new.desk.keeper) (K.count gatekeeper.new.desk.keeper)) result }
    ensures read { result ≡ RunEnd.ReadFault → Rose (S.faults source.old) (S.faults source.new) }
    ensures write { result ≡ RunEnd.WriteFault → Rose (T.faults sink.old) (T.faults sink.new) }
    ensures source_count { S.faults source.old ≤ S.faults source.new }
    ensures sink_count { T.faults sink.old ≤ T.faults sink.new }
    ensures complete { IsWholePages (S.told source.old)
        → (Rose (S.faults source.old) (S.faults source.new) → ⊥)
        → (Rose (T.faults sink.old) (T.faults sink.new) → ⊥)
        → (status_number result ≡ 0) ⊎ (status_number result ≡ 6) }
    ensures floor { K.floor gatekeeper.new.desk.keeper ≡ K.floor gatekeeper.old.desk.keeper }
{
    run(MOST_INPUT, gatekeeper, source, sink)
}

/// Serves the page requests on the source, one after the other, writes their answers, and hands the
/// keeper back.
fn run_gate<S: Source, T: Sink, K: Keeper, R: Random>(
    alloc: Global,
    gate: GateTerms,
    source: &mut S,
    sink: &mut T,
    keeper: K,
    random: R,
) -> Gated<K, R>
    requires gate { GateFits gate }
    requires no_faults { K.count keeper ≡ 0 }
    requires empty { IsEmptyTold (K.told keeper) }
    ensures ran { (end : GateEnd) × (result.status ≡ status_number end)
        × IsGateRun K.can_count gate (gate_seen
        (flow (S.told source.old) (S.told source.new) (T.taken sink.old) (T.taken sink.new))
        (random_of ⟦<R as Random>⟧ random) (random_of ⟦<R as Random>⟧ result.random)
        (K.told result.keeper) (K.count result.keeper)) end }
    ensures read { result.status ≡ 4 → Rose (S.faults source.old) (S.faults source.new) }
    ensures write { result.status ≡ 5 → Rose (T.faults sink.old) (T.faults sink.new) }
    ensures source_count { S.faults source.old ≤ S.faults source.new }
    ensures sink_count { T.faults sink.old ≤ T.faults sink.new }
    ensures complete { IsWholePages (S.told source.old)
        → (Rose (S.faults source.old) (S.faults source.new) → ⊥)
        → (Rose (T.faults sink.old) (T.faults sink.new) → ⊥)
        → (result.status ≡ 0) ⊎ (result.status ≡ 6) }
    ensures floor { K.floor result.keeper ≡ K.floor keeper }
{
    let mut gatekeeper = Gatekeeper::new(alloc, gate, keeper, random);
    let end = run_keeper(&mut gatekeeper, source, sink);
    let status = end.status();
    let Gatekeeper { desk, random, .. } = gatekeeper;
    Gated {
        status,
        keeper: desk.into_keeper(),
        random,
    }
}

/// Does what the words `gate MODE START STEP` say: serves the page requests on the source, one
/// after the other, writes their answers, and hands the keeper back. It waits for nobody, and
/// returns.
///
/// The status is 0 where the input was whole page requests and each was answered; 2 exactly where
/// the words are others, and nothing was read or written then; 3 where the input was no whole page
/// requests; 4 and 5 where the source or the sink failed; 6 where memory was wanting; 7 where 2^40
/// bytes were taken. The first of these in time decides.
pub fn gateway<S: Source, T: Sink, K: Keeper, R: Random>(
    alloc: Global,
    words: &[String],
    source: &mut S,
    sink: &mut T,
    keeper: K,
    random: R,
) -> Gated<K, R>
    requires no_faults { K.count keeper ≡ 0 }
    requires empty { IsEmptyTold (K.told keeper) }
    ensures words { (result.status ≡ 2) ↔ (gate_of (map string_bytes words.now) ≡ None) }
    ensures untouched { result.status ≡ 2
        → (source.new ≡ source.old) × (sink.new ≡ sink.old) × (result.random ≡ random)
        × (result.keeper ≡ keeper) }
    ensures ran { IfSome (gate_of (map string_bytes words.now)) (λ gate. (end : GateEnd)
        × (result.status ≡ status_number end)
        × IsGateRun K.can_count gate (gate_seen
        (flow (S.told source.old) (S.told source.new) (T.taken sink.old) (T.taken sink.new))
        (random_of ⟦<R as Random>⟧ random) (random_of ⟦<R as Random>⟧ result.random)
        (K.told result.keeper) (K.count result.keeper)) end) }
    ensures read { result.status ≡ 4 → Rose (S.faults source.old) (S.faults source.new) }
    ensures write { result.status ≡ 5 → Rose (T.faults sink.old) (T.faults sink.new) }
    ensures source_count { S.faults source.old ≤ S.faults source.new }
    ensures sink_count { T.faults sink.old ≤ T.faults sink.new }

    // Where the input is whole page requests and neither source nor sink fails, all are answered,
    // if memory is there.
    ensures complete { IfSome (gate_of (map string_bytes words.now)) (λ gate.
        IsWholePages (S.told source.old)
        → (Rose (S.faults source.old) (S.faults source.new) → ⊥)
        → (Rose (T.faults sink.old) (T.faults sink.new) → ⊥)
        → (result.status ≡ 0) ⊎ (result.status ≡ 6)) }
    ensures floor { K.floor result.keeper ≡ K.floor keeper }
{
    match gate_of(words) {
        Some(gate) => run_gate(alloc, gate, source, sink, keeper, random),
        None => Gated {
            status: status::NO_COMMAND,
            keeper,
            random,
        },
    }
}
