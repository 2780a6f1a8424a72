ghost use Rattle.std.specs.Prelude.{◌≡◌, ◌++◌, ◌∷◌, List, [], OnOk};
ghost use Rattle.gps_client.specs.declared.line.Line.{Line};
ghost use Rattle.class_counts.specs.Tallies.{Tallies, class_of, counted, numbers_text};

use gps_client::Line;
use gps_fixed::{Bytes, NoMemory, push_decimal};

/// How many lines are of each class. A number stays at its greatest value.
#[derive(Drop)]
pub(crate) struct Tally {
    numbers: [u64; 10],
}

/// The class of a line, in the order in which the numbers are written.
fn class_of(line: &Line) -> usize
    ensures { result ≡ class_of line.now }
{
    match line {
        Line::Version => 0,
        Line::Devices(_) => 1,
        Line::Device {
            path: _,
            activated: _,
        } => 2,
        Line::Watch(_) => 3,
        Line::Poll(_) => 4,
        Line::Tpv { device: _, fix: _ } => 5,
        Line::Sky { device: _, sky: _ } => 6,
        Line::Toff { device: _, pair: _ } => 7,
        Line::Pps { device: _, pair: _ } => 8,
        Line::Error(_) => 9,
    }
}

#[tactic(auto, unfolding(crate::specs::Tallies::counted))]
fn push_number(out: &mut Bytes, name: &[u8], number: u64) -> Result<(), NoMemory>
    ensures { OnOk result (out.new ≡ out.old ++ counted name.now number) }
{
    out.extend_from_slice(name)?;
    push_decimal(out, number)
}

impl Tally {
    #[tactic(auto, using(crate::proofs::Tallying::none_yet))]
    pub(crate) fn new() -> Tally
        ensures { Tallies result.numbers [] }
    {
        Tally { numbers: [0; 10] }
    }

    /// Counts one more line.
    #[tactic(auto, using(crate::proofs::Tallying::one_more))]
    pub(crate) fn add(&mut self, line: &Line)
        ensures { (values : List Line) → Tallies self.old.numbers values → Tallies self.new.numbers (values ++ line.now ∷ []) }
    {
        let class = class_of(line);
        self.numbers[class] = self.numbers[class].saturating_add(1);
    }

    /// Adds the numbers of all classes, in one line.
    #[tactic(auto, unfolding(crate::specs::Tallies::numbers_text))]
    pub(crate) fn push(&self, out: &mut Bytes) -> Result<(), NoMemory>
        ensures { OnOk result (out.new ≡ out.old ++ numbers_text self.now.numbers) }
    {
        push_number(out, b"version ", self.numbers[0])?;
        push_number(out, b" devices ", self.numbers[1])?;
        push_number(out, b" device ", self.numbers[2])?;
        push_number(out, b" watch ", self.numbers[3])?;
        push_number(out, b" poll ", self.numbers[4])?;
        push_number(out, b" tpv ", self.numbers[5])?;
        push_number(out, b" sky ", self.numbers[6])?;
        push_number(out, b" toff ", self.numbers[7])?;
        push_number(out, b" pps ", self.numbers[8])?;
        push_number(out, b" error ", self.numbers[9])?;
        out.push(b'\n')
    }
}
