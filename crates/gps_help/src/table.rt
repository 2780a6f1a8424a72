ghost use Rattle.gps_help.specs.Agreement.{IsWrittenByName, TakesWhatIsAccepted};

/// The table by which words are refused says what their reading does: a command's words are accepted exactly if they have no options but those of the
/// table, with texts that these take by the table.
pub fn table_is_what_is_read()
    ensures written { IsWrittenByName }
    ensures takes { TakesWhatIsAccepted }
{}
