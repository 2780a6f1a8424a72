ghost use Rattle.std.specs.Prelude.{◌≡◌, ◌<◌, IfOk, length, true};
ghost use Rattle.json_line.specs.Lines.{suits, text_of};

use gps_fixed::NoMemory;
use gps_report::{Body, Form, Names, PacketKind, Report};
use json_line::line_of;
use session_core::Item;
use std::alloc::Global;

/// A report in each form in which some policy can select it.
#[derive(Drop)]
pub enum Forms {
    /// A JSON line.
    Line(Item),
    /// A sentence as it came.
    Sentence(Item),
    /// A frame as a line of hexadecimal digits, and as it came.
    Frame { hex: Item, verbatim: Item },
}

fn item_of(alloc: Global, report: &Report, form: Form, names: &Names) -> Result<Item, NoMemory>
    requires named { report.now.device < length names.now }
    requires suits { suits form report.now.body ≡ true }
    ensures { IfOk result (λ item. item ≡ text_of form names.now report.now) }
{
    let line = line_of(alloc, report, form, names)?;
    Item::of(alloc, line)
}

impl Forms {
    ghost use Rattle.std.specs.Prelude.{◌≡◌, ◌<◌, IfOk, length};
    ghost use Rattle.book_batch.specs.Forms.{form_in, forms_of};

    pub(crate) fn of(alloc: Global, report: &Report, names: &Names) -> Result<Forms, NoMemory>
        requires named { report.now.device < length names.now }
        ensures { IfOk result (λ forms. forms ≡ forms_of names.now report.now) }
    {
        match &report.body {
            Body::Packet(packet) => match packet.kind {
                PacketKind::Nmea => {
                    Ok(Forms::Sentence(item_of(alloc, report, Form::Text, names)?))
                }
                PacketKind::Ubx => {
                    let hex = item_of(alloc, report, Form::Hex, names)?;
                    let verbatim = item_of(alloc, report, Form::Verbatim, names)?;
                    Ok(Forms::Frame { hex, verbatim })
                }
            },
            Body::Tpv(_) | Body::Sky(_) | Body::Toff(_) | Body::Pps(_) | Body::Device(_) => {
                Ok(Forms::Line(item_of(alloc, report, Form::Json, names)?))
            }
        }
    }

    /// The same items once more, without a copy.
    pub(crate) fn share(&self) -> Result<Forms, NoMemory>
        ensures { IfOk result (λ forms. forms ≡ self.now) }
    {
        match self {
            Forms::Line(item) => Ok(Forms::Line(item.share()?)),
            Forms::Sentence(item) => Ok(Forms::Sentence(item.share()?)),
            Forms::Frame { hex, verbatim } => Ok(Forms::Frame {
                hex: hex.share()?,
                verbatim: verbatim.share()?,
            }),
        }
    }

    /// The item of a form; the others are dropped.
    pub(crate) fn into_item(self, form: Form) -> Item
        ensures { result ≡ form_in self form }
    {
        match self {
            Forms::Line(item) | Forms::Sentence(item) => item,
            Forms::Frame { hex, verbatim } => match form {
                Form::Hex => hex,
                Form::Json | Form::Text | Form::Verbatim => verbatim,
            },
        }
    }
}
