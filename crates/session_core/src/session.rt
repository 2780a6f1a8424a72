ghost use Rattle.std.specs.Prelude.{◌≡◌, ◌↔◌, ◌≤◌, ◌<◌, [], ◌∷◌, ◌++◌, ◌-◌, ◌^◌, ◌||◌, if◌then◌else◌, ℕ, true, length, drop, max, slice_get, List, IfOk, IfErr, IfNone, OnOk, OnErr, Option};
ghost use Rattle.std.specs.Option.{option_to_list};
ghost use Rattle.session_core.specs.declared.outlet.Push.{Push};
ghost use Rattle.session_core.specs.declared.mark.Close.{Close};
ghost use Rattle.gps_report.specs.declared.report.Report.{Report};
ghost use Rattle.session_core.specs.Stretches.{Stretch, answer_stretch};
ghost use Rattle.session_core.specs.Holding.{Selection, Agrees, Holding, SessionGains, stretches_left};
ghost use Rattle.session_core.specs.Pushing.{MatchPush};
ghost use Rattle.session_core.specs.SessionView.{allowing, fresh, given, marked, replied, closed_at, turned, turned_closing, last_place, one_more};

use crate::{Close, Item, Mark, Outlet, PlainOutlet, Push, TwoEnded};
use ghost_list::GhostList;
use gps_fixed::NoMemory;
use gps_report::Policy;
use std::alloc::Global;
use std::marker::Model;

/// One session: the marks of this generation, the closing, and the outlet into which its items are pushed. The marks are kept in proofs alone: of them
/// the program needs only whether there is one, and the policy of the last one. So a session takes no memory for what it is asked.
#[derive(Drop)]
pub struct Session<O: Outlet> {
    outlet: O,
    marks: GhostList<Mark>,
    /// The last mark. If there is none, its policy is that of the last one that there was, or of no request.
    last: Mark,
    marked: bool,
    answered: bool,
    closing: Option<(u64, Close)>,
    requests: u32,
    most_requests: u32,
    items: u64,
    spare: usize,
}

impl<O: Outlet> Model for Session<O> {
    ghost use Rattle.std.specs.Prelude.{◌≡◌, ◌==◌, None, length, not};
    ghost use Rattle.session_core.specs.SessionView.{SessionView};

    ghost Value = { SessionView };

    ghost view = { λ s. record {
      name = O.name s.outlet;
      cap = O.cap s.outlet;
      kept = O.kept s.outlet;
      marks = s.marks;
      answered = s.answered;
      closing = s.closing;
      policy = s.last.policy;
      requests = s.requests;
      most_requests = s.most_requests;
      items = s.items;
      spare = s.spare;
    } };

    ghost invariant = { λ s. (s.marked ≡ not (length s.marks == 0))
        × (s.closing ≡ None → O.takes s.outlet) };
}

/// The opening is no request.
fn counted(requests: u32, opening: bool) -> u32
    ensures { result ≡ (if opening then requests else one_more (2 ^ 32 - 1) requests) }
{
    if opening {
        requests
    } else {
        requests.saturating_add(1)
    }
}

/// A closing as a turn leaves it: at the place at which the new generation begins.
fn begun(closing: Option<(u64, Close)>) -> Option<(u64, Close)>
    ensures { result ≡ turned_closing closing }
{
    match closing {
        None => None,
        Some((_, why)) => Some((0, why)),
    }
}

/// How many requests of a session are answered, if no other number is allowed.
const USUAL_REQUESTS: u32 = 65_536;

impl<O: Outlet> Session<O> {
    /// A session without marks that watches nothing, with room for its opening, of which 65,536 requests are answered. It takes no memory; refused for
    /// that, the outlet would come back.
    pub fn new(_alloc: Global, outlet: O) -> Result<Session<O>, O>
        requires { O.takes outlet }
        ensures fresh { IfOk result (λ s. s ≡ fresh (O.name outlet) (O.cap outlet) (O.kept outlet)) }
        ensures outlet { IfErr result (λ back. back ≡ outlet) }
        ensures agrees { (lines : Selection) (history : List Report) → IfOk result (λ s. Agrees lines history s []) }
    {
        Ok(Session {
            outlet,
            marks: GhostList::new(),
            last: Mark {
                place: 0,
                policy: Policy {
                    enable: false,
                    json: false,
                    nmea: false,
                    raw: 0,
                    pps: false,
                    device: None,
                },
            },
            marked: false,
            answered: false,
            closing: None,
            requests: 0,
            most_requests: USUAL_REQUESTS,
            items: 0,
            spare: 1,
        })
    }

    /// Says how many requests of it are answered.
    #[tactic(auto, using(crate::proofs::Gaining::allowed))]
    pub fn allow_requests(&mut self, most: u32)
        ensures now { self.new ≡ allowing most self.old }
        ensures agrees { (lines : Selection) (history : List Report) (stretches : List Stretch) → Agrees lines history self.old stretches
            → Agrees lines history self.new stretches }
    {
        self.most_requests = most;
    }

    /// Makes ready for the given number of further marks, which takes no memory.
    #[tactic(auto, using(crate::proofs::Gaining::roomier))]
    pub fn reserve(&mut self, marks: u32) -> Result<(), NoMemory>
        ensures ok { OnOk result (self.new ≡ record self.old { spare = max self.old.spare marks }) }
        ensures err { OnErr result (self.new ≡ self.old) }
        ensures holding { (lines : Selection) (history : List Report) (stretches : List Stretch) → Holding lines history self.old stretches
            → Holding lines history self.new stretches }
    {
        let marks = marks as usize;
        if self.spare < marks {
            self.spare = marks;
        }
        Ok(())
    }

    fn put(&mut self, item: Item) -> Push
        requires open { self.old.closing ≡ None }
        requires may { O.may self.old.name (self.old.kept ++ item ∷ []) }
        ensures given { MatchPush result (self.new ≡ given item self.old) (self.new ≡ self.old) }
        ensures full { result ≡ Push.Full → self.old.cap ≤ length self.old.kept }
        ensures exact { O.exact ≡ true → (result ≡ Push.Full) ↔ (self.old.cap ≤ length self.old.kept) }
    {
        match self.outlet.push(item) {
            Push::Done => {
                self.items = self.items.saturating_add(1);
                Push::Done
            }
            Push::Full => Push::Full,
        }
    }

    fn mark(&mut self, place: u64, policy: Policy)
        requires open { self.old.closing ≡ None }
        requires room { 1 ≤ self.old.spare }
        ensures { self.new ≡ marked place policy self.old }
    {
        self.last = Mark { place, policy };
        self.marks.add(&self.last);
        self.answered = !self.marked || self.answered;
        self.requests = counted(self.requests, !self.marked);
        self.marked = true;
        self.spare -= 1;
    }

    fn overrun(&mut self, place: u64)
        ensures { self.new ≡ closed_at place Close.Overrun self.old }
    {
        self.closing = Some((place, Close::Overrun));
    }

    /// Pushes the reply to the opening or to a request, and marks where from the policy after it holds. If the outlet is
    /// full, there is no mark, and the session is closed.
    #[tactic(auto, using(crate::proofs::Gaining::reply_gains, crate::proofs::Policies::last_place_push))]
    pub fn reply(&mut self, place: u64, policy: Policy, item: Item) -> Push
        // The session is open and has room for a mark, and the place is not before its last one.
        requires open { self.old.closing ≡ None }
        requires room { 1 ≤ self.old.spare }
        requires after { last_place 0 self.old.marks ≤ place }
        requires may { O.may self.old.name (self.old.kept ++ item ∷ []) }

        // What the session is after it, and when it is full.
        ensures now { MatchPush result (self.new ≡ replied place policy item self.old) (self.new ≡ closed_at place Close.Overrun self.old) }
        ensures full { result ≡ Push.Full → self.old.cap ≤ length self.old.kept }
        ensures exact { O.exact ≡ true → (result ≡ Push.Full) ↔ (self.old.cap ≤ length self.old.kept) }
        ensures placed { last_place 0 self.new.marks ≤ place }

        // What its client is sent.
        ensures items { (lines : Selection) (history : List Report) (stretches : List Stretch) → length history ≡ place
            → Agrees lines history self.old stretches
            → MatchPush result (SessionGains lines history history self.old self.new stretches (stretches ++ answer_stretch place policy item ∷ []) (item ∷ []))
            (SessionGains lines history history self.old self.new stretches stretches []) }
    {
        match self.put(item) {
            Push::Done => {
                self.mark(place, policy);
                Push::Done
            }
            Push::Full => {
                self.overrun(place);
                Push::Full
            }
        }
    }

    /// Pushes the line of a selected report at this place. If the outlet is full, the session is closed.
    pub fn report(&mut self, place: u64, item: Item) -> Push
        // The session is open, and the place is not before its last mark.
        requires open { self.old.closing ≡ None }
        requires after { last_place 0 self.old.marks ≤ place }
        requires may { O.may self.old.name (self.old.kept ++ item ∷ []) }

        // What the session is after it, and when it is full.
        ensures now { MatchPush result (self.new ≡ given item self.old) (self.new ≡ closed_at place Close.Overrun self.old) }
        ensures full { result ≡ Push.Full → self.old.cap ≤ length self.old.kept }
        ensures exact { O.exact ≡ true → (result ≡ Push.Full) ↔ (self.old.cap ≤ length self.old.kept) }
        ensures placed { last_place 0 self.new.marks ≤ place }

        // What its client is sent.
        ensures items { (lines : Selection) (history : List Report) (last : Report) (stretches : List Stretch) → length history ≡ place
            → lines self.old.policy last ≡ item ∷ [] → Holding lines history self.old stretches
            → MatchPush result (SessionGains lines history (history ++ last ∷ []) self.old self.new stretches stretches (item ∷ []))
            (SessionGains lines history (history ++ last ∷ []) self.old self.new stretches stretches []) }
    {
        match self.put(item) {
            Push::Done => Push::Done,
            Push::Full => {
                self.overrun(place);
                Push::Full
            }
        }
    }

    /// From this place on nothing is pushed any more. Takes no memory.
    #[tactic(auto, using(crate::proofs::Gaining::close_gains))]
    pub fn close(&mut self, place: u64, why: Close)
        requires open { self.old.closing ≡ None }
        requires after { last_place 0 self.old.marks ≤ place }
        ensures now { self.new ≡ closed_at place why self.old }
        ensures items { (lines : Selection) (history : List Report) (stretches : List Stretch) → length history ≡ place
            → Agrees lines history self.old stretches
            → SessionGains lines history history self.old self.new stretches stretches [] }
    {
        self.closing = Some((place, why));
    }

    /// The place from which on nothing is pushed any more, and why; none exactly if the session is open.
    pub fn closing(&self) -> Option<(u64, Close)>
        ensures { result ≡ self.now.closing }
    {
        self.closing
    }

    /// The policy of the last reply, or before the first one that of the opening.
    pub fn policy(&self) -> &Policy
        ensures { result.now ≡ self.now.policy }
    {
        &self.last.policy
    }

    /// How many requests were answered.
    pub fn requests(&self) -> u32
        ensures { result ≡ self.now.requests }
    {
        self.requests
    }

    /// How many requests are answered.
    pub fn most_requests(&self) -> u32
        ensures { result ≡ self.now.most_requests }
    {
        self.most_requests
    }

    /// How many items were pushed.
    pub fn items(&self) -> u64
        ensures { result ≡ self.now.items }
    {
        self.items
    }

    pub fn into_outlet(self) -> O
        ensures kept { O.kept result ≡ self.kept }
        ensures cap { O.cap result ≡ self.cap }
        ensures name { O.name result ≡ self.name }
    {
        let Session { outlet, .. } = self;
        outlet
    }

    /// A new generation begins: an open session keeps only its policy, from place 0 on, and a closed one ends there.
    pub fn turn(&mut self)
        requires { self.old.closing ≡ None → 0 < length self.old.marks }
        ensures now { self.new ≡ turned self.old }
        ensures holding { (lines : Selection) → Holding lines [] self.new (stretches_left self.old.closing self.old.policy) }
    {
        self.marks = GhostList::new();
        self.last.place = 0;
        self.marked = self.closing.is_none();
        if self.marked {
            self.marks.add(&self.last);
        }
        self.closing = begun(self.closing);
        self.answered = false;
    }
}

impl Session<PlainOutlet> {
    /// The item that was pushed first of those that the outlet holds; none exactly if it holds nothing.
    pub fn take(&mut self) -> Option<Item>
        ensures item { result ≡ slice_get self.old.kept 0 }
        ensures now { self.new ≡ record self.old { kept = drop 1 self.old.kept } }
        ensures holding { (lines : Selection) (history : List Report) (stretches : List Stretch) → Holding lines history self.old stretches
            → Holding lines history self.new stretches }
    {
        self.outlet.take()
    }
}

impl<O: TwoEnded> Session<O> {
    /// Takes one item at the far end and returns it. A closed session is given no more, so its outlet may end with this.
    pub fn settle(&mut self, far: &mut O::Far) -> Option<Item>
        requires { O.belongs (O.far_name far.old) self.old.name }
        ensures same { self.new ≡ self.old }
        ensures item { O.got far.new ≡ O.got far.old ++ option_to_list result }
        ensures prefix { (rest : List (List ℕ)) × (self.new.kept ≡ O.got far.new ++ rest) }
        ensures all { IfNone result (O.got far.new ≡ self.new.kept) }
        ensures far_name { O.far_name far.new ≡ O.far_name far.old }
    {
        self.outlet.settle(far, self.closing.is_some())
    }
}
