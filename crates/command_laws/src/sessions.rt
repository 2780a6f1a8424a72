//! The law of a session that asked once, as the contract of a function that does nothing.

ghost use Rattle.command_laws.specs.Sessions.{SessionsAreAlike, SessionsBeginAlike, SessionsComeAcross, TakenComesAcross};

/// A session of a book whose client sent the one request. What is handed on of the bytes of its items is the packets of the device, from the
/// place of the request to the end of the session (`packets`); of the items that were taken so far, the first of these packets (`taken`).
/// If the first byte of the device came after the request, its fixes and skies are the same of a session that was given all reports
/// (`reports`); of any beginning of the bytes, wherever the session was closed, they are the first of them (`first_reports`).
pub fn sessions_come_across()
    ensures packets { SessionsComeAcross }
    ensures taken { TakenComesAcross }
    ensures reports { SessionsAreAlike }
    ensures first_reports { SessionsBeginAlike }
{}
