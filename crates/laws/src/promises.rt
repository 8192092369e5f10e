// The promises of a network, each as the contract of a function, and all of them together.
ghost use Rattle.laws.specs.Promises.{OverHistories, RunsRight, ConflictsRight, SeeksRight, RefusalsRight, ConflictsHopeless, StableForFewer, Promises};
ghost use Rattle.laws.specs.Inside.{KeepsApart, StaysRight};

use facts::kind::Kind;

/// After a quiet run the cells are stable, and every stable table of the same premises tells at least as much. Each run
/// made exactly the steps that it reports, within their bound.
pub fn runs_right<K: Kind>()
    ensures { OverHistories K.model (RunsRight K.model) }
{}

/// Whatever conflict run or kept answers, and whatever none names, no placement meets those premises; all of them were in
/// force at each answer of run or seek that names it, and one that kept answers was named so before.
pub fn conflicts_right<K: Kind>()
    ensures { OverHistories K.model ConflictsRight }
{}

/// After found the cells' numbers satisfy every constraint in force; after none no placement meets the premises named.
/// Each seek made exactly the moves that it reports.
pub fn seeks_right<K: Kind>()
    ensures { OverHistories K.model (SeeksRight K.model) }
{}

/// A refusal changes nothing, and read, kept and finish without a search change nothing.
pub fn refusals_right<K: Kind>()
    ensures { OverHistories K.model (λ N. RefusalsRight) }
{}

/// A run that answers conflict means that every stable table of the premises in force has a cell in conflict.
pub fn conflicts_hopeless<K: Kind>()
    ensures { OverHistories K.model (ConflictsHopeless K.model) }
{}

/// What is stable for more constraints is stable for fewer.
pub fn stable_for_fewer<K: Kind>()
    ensures { StableForFewer K.model }
{}

/// All of the promises, over every history.
pub fn promises<K: Kind>()
    ensures { Promises K.model }
{}

/// The keeping rule keeps conflicts apart, and at most 64 of them.
pub fn keeps_apart()
    ensures { KeepsApart }
{}

/// After every history the kept conflicts are apart and at most 64, the trail of an open search has at most 32 guesses
/// and 512 entries, and without a conflict each of its entries is told.
pub fn stays_right<K: Kind>()
    ensures { StaysRight K.model }
{}
