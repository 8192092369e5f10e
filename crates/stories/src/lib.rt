// Two histories that happen: the promises are not empty words.
#![tactic(auto)]

ghost use Rattle.kinds.specs.Full.{full_model};
ghost use Rattle.stories.specs.Stories.{Finding, Failing};

use facts::exact::ExactKind;
use kinds::full::Full;

/// In every exact kind there is a history with a conflict, a lift, a quiet run and a search that finds, and one whose
/// search ends in none.
pub fn stories_happen<K: ExactKind>()
    ensures { Finding K.Kind.model × Failing K.Kind.model }
{}

/// Both happen in the full kind.
pub fn stories_happen_in_full()
    ensures { Finding full_model × Failing full_model }
{
    stories_happen::<Full>();
}
