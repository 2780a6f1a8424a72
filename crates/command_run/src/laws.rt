//! What follows from the clauses of [`run`](crate::run), as contracts of functions that do nothing.

ghost use Rattle.std.specs.Prelude.{◌≡◌, ℕ};
ghost use Rattle.gps_outside.specs.Calls.{ClockCall, SinkCall, SourceCall, WriteFailed};
ghost use Rattle.gps_outside.specs.Outcomes.{HasReadCause, NothingFails, StatusHasCause, status_of};
ghost use Rattle.gps_outside.specs.declared.outcome.CommandOutcome.{CommandOutcome};
ghost use Rattle.command_run.specs.Commands.{Does, EndsAt};
ghost use Rattle.gps_words.specs.declared.command.CommandLine.{CommandLine};

/// Law: at status 3 a read failed, or a thousand reads brought nothing; at status 4 a write failed.
pub fn faults_show_at_their_statuses()
    ensures read_fault { (status : ℕ) (source : SourceCall) (sink : SinkCall) → StatusHasCause status source sink → status ≡ 3 → HasReadCause source }
    ensures write_fault { (status : ℕ) (source : SourceCall) (sink : SinkCall) → StatusHasCause status source sink → status ≡ 4 → WriteFailed sink }
{}

/// Law: which statuses are left for each command if no read and no write fails and fewer than a thousand reads bring nothing.
pub fn statuses_if_nothing_fails()
    ensures { (command : CommandLine) (outcome : CommandOutcome) (source : SourceCall) (sink : SinkCall) (clock : ClockCall)
        → Does command outcome source sink clock → NothingFails source sink → EndsAt command (status_of outcome) }
{}
