ghost use Rattle.std.specs.Prelude.{◌≡◌, ◌++◌, IfOk, length};
ghost use Rattle.json_line.specs.Json.{line_end};
ghost use Rattle.json_line.specs.Lines.{devices, watch};
ghost use Rattle.book_replies.specs.Replies.{answer_of, answered, opening_reply};

use crate::ReplyData;
use gps_command::{Command, RawCommand, ReadFault, command_of};
use gps_fixed::{Bytes, NoMemory};
use gps_report::{Names, Policy};
use json_line::{error_line, version_line, watch_line};
use std::alloc::Global;
use watch_policy::updated;

/// The answer to a request: the policy after it, and its reply, which may hold two lines.
#[derive(Debug, Drop, PartialEq, Eq)]
pub struct Answer {
    pub policy: Policy,
    pub reply: Bytes,
}

/// What a session is sent when it opens: the VERSION line.
pub fn opening_reply(alloc: Global) -> Result<Bytes, NoMemory>
    ensures { IfOk result (λ reply. reply ≡ opening_reply) }
{
    version_line(alloc)
}

fn watch_reply(
    alloc: Global,
    known: &ReplyData,
    names: &Names,
    policy: &Policy,
) -> Result<Bytes, NoMemory>
    requires { length names.now ≡ length known.now.firsts }
    ensures { IfOk result (λ reply. reply
        ≡ (devices names.now known.now.firsts ++ line_end) ++ (watch policy.now ++ line_end)) }
{
    let mut reply = known.devices_reply(alloc, names)?;
    let line = watch_line(alloc, policy)?;
    reply.extend_from_slice(line.as_slice())?;
    Ok(reply)
}

fn watched(
    alloc: Global,
    known: &ReplyData,
    names: &Names,
    policy: Policy,
) -> Result<Answer, NoMemory>
    requires { length names.now ≡ length known.now.firsts }
    ensures policy { IfOk result (λ answer. answer.policy ≡ policy) }
    ensures reply { IfOk result (λ answer. answer.reply
        ≡ (devices names.now known.now.firsts ++ line_end) ++ (watch policy ++ line_end)) }
{
    let reply = watch_reply(alloc, known, names, &policy)?;
    Ok(Answer { policy, reply })
}

fn answer_to(
    alloc: Global,
    known: &ReplyData,
    names: &Names,
    policy: Policy,
    request: &RawCommand,
) -> Result<Answer, NoMemory>
    requires { length names.now ≡ length known.now.firsts }
    ensures { IfOk result (λ answer. answer ≡ answer_of known.now names.now policy request.now) }
{
    match command_of(alloc, request) {
        Ok(Command::Version) => {
            let reply = version_line(alloc)?;
            Ok(Answer { policy, reply })
        }
        Ok(Command::Devices) => {
            let reply = known.devices_reply(alloc, names)?;
            Ok(Answer { policy, reply })
        }
        Ok(Command::Poll) => {
            let reply = known.poll_reply(alloc, names)?;
            Ok(Answer { policy, reply })
        }
        Ok(Command::Watch(None)) => watched(alloc, known, names, policy),
        Ok(Command::Watch(Some(change))) => watched(alloc, known, names, updated(policy, change)),
        Err(ReadFault::Fault(fault)) => {
            let reply = error_line(alloc, fault)?;
            Ok(Answer { policy, reply })
        }
        Err(ReadFault::NoMemory) => Err(NoMemory),
    }
}

/// The answers to requests in order, with the policy before the first of them: each has the policy after its
/// request, and the reply that shows it. A WATCH object that is accepted changes the policy, and nothing else
/// does.
#[tactic(auto, unfolding(crate::specs::Replies::answered))]
pub fn answers(
    alloc: Global,
    known: &ReplyData,
    names: &Names,
    policy: &Policy,
    requests: &[RawCommand],
) -> Result<Vec<Answer>, NoMemory>
    requires { length names.now ≡ length known.now.firsts }
    ensures { IfOk result (λ out. out.items ≡ answered known.now names.now policy.now requests.now) }
{
    let mut out = Vec::new(alloc);
    let mut current = policy.copy()?;
    'requests: for request in requests {
        let answer = answer_to(alloc, known, names, current, request)?;
        current = answer.policy.copy()?;
        out.push(answer)?;
    }
    Ok(out)
}
