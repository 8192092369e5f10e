// Taking from any agenda until nothing waits.
ghost use Rattle.std.specs.Prelude.{◌≡◌};
ghost use Rattle.sets.specs.Members.{Nobody, count};

use super::Agenda;

/// Takes every waiting constraint and answers how many there were.
pub fn drain<A: Agenda>(agenda: &mut A) -> usize
    ensures none { Nobody (A.waits agenda.new) }
    ensures taken { result ≡ count (A.waits agenda.old) 512 }
{
    // Counted by hand: an iterator over what is taken would need a struct, an impl and a law that its calls end, and say no more.
    let mut taken = 0;
    while let Some(_) = agenda.take() {
        taken += 1;
    }
    taken
}
