//! Laws of the table, over the definitions alone: their functions do nothing.

ghost use Rattle.sync_objects.specs.Laws.{RaisesNumber, KeepsSound, ShowsNumber, ShowsState, StaysHeld, OthersWait};

/// Law: each allowed operation raises the number of its object's word by exactly one, and keeps the word sound.
#[tactic(auto, using(crate::proofs::Soundness::number_rises, crate::proofs::Soundness::keeps_sound))]
pub fn law_advanced()
    ensures number { RaisesNumber }
    ensures sound { KeepsSound }
{}

/// Law: a word that is made of a number and a sound state shows that number and that state.
#[tactic(auto, using(crate::proofs::Facts::shown_words))]
pub fn law_shown()
    ensures number { ShowsNumber }
    ensures state { ShowsState }
{}

/// Law: a mutex stays held until its holder unlocks it, and on a stripe that a thread holds no other thread has an
/// operation.
#[tactic(auto, using(crate::proofs::Facts::held_stays, crate::proofs::Facts::others_wait))]
pub fn law_held()
    ensures mutex { StaysHeld }
    ensures stripe { OthersWait }
{}
