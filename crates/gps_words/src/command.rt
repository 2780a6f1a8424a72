use std::alloc::AllocError;

/// A command with its options.
#[derive(Clone, Copy, Debug, PartialEq, Eq)]
pub enum CommandLine {
    /// Reads device bytes and writes JSON lines; `history` is how many bytes are read at most.
    Decode { history: u64 },
    /// Reads device bytes and writes the sentences of their fixes; `history` is how many bytes are read at most.
    Pseudo { history: u64 },
    /// Plays a script; `history` is how many symbols a generation has at most, `queue` how many items wait for a session.
    Replay { history: u32, queue: u32 },
    /// Plays a made script of `size` seconds.
    Generate { seed: u32, size: u32 },
    /// Reads the daemon's lines and writes how many are of each class.
    Lines,
}

/// Why the words are no command.
#[derive(Clone, Copy, Debug, PartialEq, Eq)]
pub enum WordsFault {
    /// The first word is no command or is missing, `clap` finds a fault in the words, or the text of a
    /// number is not 1 to 10 decimal digits with a value in range. `--history` of `decode` and `pseudo` takes the word `all` too.
    Refused,
    NoMemory,
}

impl From<AllocError> for WordsFault {
    ghost use Rattle.std.specs.Prelude.{◌≡◌};
    ghost use Rattle.gps_words.specs.declared.command.WordsFault.TheVariants.{NoMemory};

    ghost from_gives = { λ _ fault. fault ≡ NoMemory };

    fn from(_refused: AllocError) -> WordsFault {
        WordsFault::NoMemory
    }
}
