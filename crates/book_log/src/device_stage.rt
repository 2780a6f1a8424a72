/// Whether a device still runs.
#[derive(Clone, Copy, Debug, PartialEq, Eq)]
pub enum DeviceStage {
    Running,
    Ended,
    Lost,
}
