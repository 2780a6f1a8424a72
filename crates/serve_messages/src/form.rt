use std::alloc::Alloc;
use std::env;
use std::fs::{self, File};
use std::os::unix::fs::MetadataExt;
use std::rt::{Env, Files};

/// How grave a message is.
#[derive(Clone, Copy)]
pub enum Weight {
    /// Something failed, or somebody is not served.
    Fault,
    News,
}

/// How each message begins.
#[derive(Clone, Copy)]
pub enum MessageForm {
    /// With the program's name.
    Named,
    /// With its priority, 3 (error) or 6 (information), as systemd's journal reads it (sd-daemon(3)). The journal writes the program's name itself.
    Journal,
}

/// The device and the inode in a text as `8:1234`.
fn file_in(text: &str) -> Option<(u64, u64)> {
    let (device, inode) = text.split_once(':')?;
    let device = device.parse::<u64>().ok()?;
    let inode = inode.parse::<u64>().ok()?;
    Some((device, inode))
}

/// Whether standard error is the file with this device and inode.
fn is_error_file<R: Files<File = File>>(rt: &R, device: u64, inode: u64) -> bool {
    match fs::metadata(rt, "/proc/self/fd/2") {
        Ok(metadata) => metadata.dev() == device && metadata.ino() == inode,
        Err(_) => false,
    }
}

impl MessageForm {
    /// The form for standard error. If that leads to the journal, JOURNAL_STREAM has the device and the inode of its socket (systemd.exec(5)).
    pub fn of_errors<R: Files<File = File> + Env + Alloc>(rt: &R) -> MessageForm {
        let is_journal = match env::var(rt, "JOURNAL_STREAM") {
            Ok(text) => match file_in(&text) {
                Some((device, inode)) => is_error_file(rt, device, inode),
                None => false,
            },
            Err(_) => false,
        };
        if is_journal {
            MessageForm::Journal
        } else {
            MessageForm::Named
        }
    }

    /// What stands before a message.
    pub fn head(self, weight: Weight) -> &'static str {
        match (self, weight) {
            (MessageForm::Named, _) => "gpsrelay: ",
            (MessageForm::Journal, Weight::Fault) => "<3>",
            (MessageForm::Journal, Weight::News) => "<6>",
        }
    }
}
