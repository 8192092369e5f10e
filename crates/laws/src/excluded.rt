// What no network does, each as the contract of a function.
ghost use Rattle.laws.specs.Promises.{OverHistories};
ghost use Rattle.laws.specs.Excluded.{OwnReasonsOnly, WithinBudget, OnlyInVain, OnlyKept};

use facts::kind::Kind;

/// No reasons that name all premises in force: a step brings in only those that own its constraint.
pub fn own_reasons_only<K: Kind>()
    ensures { OwnReasonsOnly K.model }
{}

/// No run makes more steps than its budget, and no seek more moves.
pub fn within_budget<K: Kind>()
    ensures { WithinBudget K.model }
{}

/// No seek answers none, and no run a conflict, where some placement meets the premises in force.
pub fn only_in_vain<K: Kind>()
    ensures { OverHistories K.model OnlyInVain }
{}

/// No bring is refused for a kept conflict but the first that lies within the premises in force and the new one.
pub fn only_kept<K: Kind>()
    ensures { OnlyKept K }
{}
