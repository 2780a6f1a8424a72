//! The laws of epochs, as contracts of functions that do nothing.

ghost use Rattle.std.specs.Prelude.{◌≡◌, List, filter, reverse};
ghost use Rattle.epoch_core.specs.declared.heard.Heard.{Heard};
ghost use Rattle.epoch_core.specs.Days.{dated};
ghost use Rattle.epoch_core.specs.Epochs.{all_notes, closed, closings, epochs_of, is_no_toff, reports};

/// Each note is in one epoch, in order.
pub fn epochs_hold_all_notes()
    ensures { (notes : List Heard) → all_notes (epochs_of notes) ≡ dated (reverse notes) }
{}

/// The reports that are no serial times are, in order, what the closed epochs give: those that another follows, and the last if its last
/// note ends it.
pub fn reports_are_those_of_the_closed_epochs()
    ensures { (notes : List Heard) → filter is_no_toff (reports notes) ≡ closings (closed (epochs_of notes)) }
{}
