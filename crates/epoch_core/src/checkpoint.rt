ghost use Rattle.std.specs.Prelude.{◌≡◌};
ghost use Rattle.epoch_core.specs.Checkpoints.{put_aside};

use crate::days::Days;
use crate::point::Point;
use crate::running::Running;

/// The way back: what the running epoch was at the checkpoint, and that epoch itself if it has closed since.
#[derive(Debug, Drop)]
pub struct Checkpoint {
    pub days: Days,
    pub point: Point,
    pub aside: Option<Running>,
}

/// Keeps the epoch that ran at the checkpoint; a later one is dropped.
pub fn set_aside(checkpoint: &mut Option<Checkpoint>, old: Running)
    ensures { checkpoint.new ≡ put_aside checkpoint.old old }
{
    if let Some(checkpoint) = checkpoint {
        if checkpoint.aside.is_none() {
            checkpoint.aside = Some(old);
        }
    }
}
