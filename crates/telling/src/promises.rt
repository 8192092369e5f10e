// The promises of firing, each as the contract of a function.
ghost use Rattle.telling.specs.Theorems.{TellsNoMore, LosesNone, SettlesRight, Shrinks, GoesSo};

use facts::kind::Kind;

/// Firing tells no more than every stable table above the present one.
pub fn tells_no_more<K: Kind>()
    ensures { TellsNoMore K.model }
{}

/// A placement that lies within the cells and satisfies the constraint still lies within them after firing.
pub fn loses_none<K: Kind>()
    ensures { LosesNone K.model }
{}

/// In an exact kind, a constraint that changes nothing where each of its cells has one number is satisfied by those numbers.
pub fn settles_right<K: Kind>()
    ensures { SettlesRight K.model }
{}

/// Each change makes the table smaller.
pub fn shrinks<K: Kind>()
    ensures { Shrinks K.model }
{}

/// The cells that a firing is said to change are exactly those whose fact changed, among those that the constraint names.
pub fn goes_so<K: Kind>()
    ensures { GoesSo K.model }
{}
