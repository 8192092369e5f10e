// The worked examples, as one theorem.
ghost use Rattle.std.specs.List.{All};
ghost use Rattle.kinds.specs.Examples.{Holds, examples};

/// Each worked example holds of the definitions that the contracts use.
pub fn examples_hold()
    ensures { All Holds examples }
{}
