// The net of every plan.
ghost use Rattle.plan.specs.Items.{planned};
ghost use Rattle.calls.specs.Networks.{net_of, Planned};

use plan::plan::Plan;

/// The promises hold of the network of every plan: its net has what they ask for.
pub fn is_planned(plan: &Plan)
    ensures { Planned (net_of (planned plan.now)) }
{}
