//! What one program makes of what another wrote. `decode` of what `pseudo` wrote, and `lines` of what `decode` wrote. A device that is sent the
//! sentences of fixes reports these fixes. And the sessions of this project's daemon that another daemon reads as a device: those that asked once
//! for packets as they came. This project's own.
#![tactic(auto)]

mod fixes;
mod laws;
mod sessions;

pub use fixes::sentences_of_fixes_give_them_back;
pub use laws::{
    decode_reads_what_pseudo_wrote, fixes_of_frames_fit_in_a_stream, lines_reads_what_decode_wrote,
};
pub use sessions::sessions_come_across;
