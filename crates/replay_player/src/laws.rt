//! Laws of a unit's stores, as a contract of a function that does nothing.

ghost use Rattle.std.specs.Prelude.{◌≡◌, ℕ, ◌*◌, ◌≤◌, false, List, length};
ghost use Rattle.shm_segment.specs.declared.sample.Sample.{Sample};
ghost use Rattle.shm_segment.specs.Publishing.{words_now};
ghost use Rattle.shm_segment.specs.Words.{words_of};
ghost use Rattle.book_units.specs.declared.unit.UnitStep.{UnitStep};
ghost use Rattle.book_units.specs.Steps.{Steps, state_of};
ghost use Rattle.book_units.specs.Units.{UnitView};
ghost use Rattle.replay_player.specs.Stored.{IsStored, is_store, makes_store, shown_state, stores_at_end, stores_next};

/// Whether a step of a unit makes a store, what the words are, and what the unit shows, by its first number, all its samples and
/// its number of stores alone; and how many stores there are once steps make no more.
#[tactic(auto, using(crate::proofs::Stored::is_stored, crate::proofs::Stored::stepped, crate::proofs::Stored::words_are, crate::proofs::Stored::state_is, crate::proofs::Stored::at_end))]
pub fn stores_have_a_closed_form()
    ensures step { (first stores : ℕ) (samples : List Sample) (answer : UnitStep) (u v : UnitView) → IsStored first samples stores u → Steps answer u v
        → is_store answer ≡ makes_store first samples stores }
    ensures stored { (first stores : ℕ) (samples : List Sample) (answer : UnitStep) (u v : UnitView) → IsStored first samples stores u → Steps answer u v
        → IsStored first samples (stores_next first samples stores) v }
    ensures words { (first stores : ℕ) (samples : List Sample) (u : UnitView) → IsStored first samples stores u
        → words_now u.publisher ≡ words_of first samples stores }
    ensures state { (first stores : ℕ) (samples : List Sample) (u : UnitView) → IsStored first samples stores u
        → state_of u ≡ shown_state first samples stores }
    ensures end { (first stores : ℕ) (samples : List Sample) (u : UnitView) → IsStored first samples stores u → makes_store first samples stores ≡ false
        → stores ≡ stores_at_end first samples }
{}
