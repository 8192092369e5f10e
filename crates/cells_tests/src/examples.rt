// The worked examples of firing, as one theorem.
ghost use Rattle.std.specs.List.{All};
ghost use Rattle.cells_tests.specs.Examples.{Holds, examples};

/// Each worked example holds of the definitions that the contracts of firing use.
pub fn examples_hold()
    ensures { All Holds examples }
{}
