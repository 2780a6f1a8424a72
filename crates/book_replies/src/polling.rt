ghost use Rattle.std.specs.Prelude.{◌≡◌, false, option_map};
ghost use Rattle.std.specs.List.{list_any};
ghost use Rattle.book_replies.specs.Polling.{begins_as_poll, is_poll, poll_text};

use gps_command::RawCommand;

fn poll_text(text: &[u8]) -> Option<&[u8]>
    ensures { option_map (λ rest. rest.now) result ≡ poll_text text.entry.now }
{
    text.strip_prefix(b"?POLL".as_slice())
}

fn begins_as_poll(request: &RawCommand) -> bool
    ensures { result ≡ begins_as_poll request.now }
{
    match request {
        RawCommand::Words(words) => poll_text(words.as_slice()).is_some(),
        RawCommand::Long => false,
    }
}

fn some_begins(requests: &[RawCommand]) -> bool
    ensures { result ≡ list_any begins_as_poll requests.now }
{
    requests.iter().any(begins_as_poll)
}

/// Whether one of these requests begins as `?POLL` does. If none does, no reply shows a fix or a sky. Takes no memory.
#[tactic(auto, using(crate::proofs::Polls::none_polls))]
pub fn may_poll(requests: &[RawCommand]) -> bool
    ensures { result ≡ false → list_any is_poll requests.now ≡ false }
{
    some_begins(requests)
}
