// What lines make and mean: a plan that lines build has the solutions of the lines.
#![tactic(auto)]

ghost use Rattle.meaning.specs.Building.{BuiltSolves, BuiltSound};

/// Lines and the network that they build have the same solutions, whatever premises are in force.
pub fn meaning_stands()
    ensures solves { BuiltSolves }
    ensures sound { BuiltSound }
{}
