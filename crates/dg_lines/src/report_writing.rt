//! Writes the lines of a report.
ghost use Rattle.std.specs.Prelude.{◌≡◌, ◌++◌, ◌≤◌, length, OnOk, OnErr};
ghost use Rattle.dg_lines.specs.Fields.{IsPrefixOf};
ghost use Rattle.dg_script.specs.Report.{report_line};

use crate::spelling::Field::{Crc, Number, Small, Word};
use crate::spelling::{push_line, push_line_of};
use dg_script::{Cause, Report};
use std::alloc::AllocError;

/// Appends the line of a report and LF. If memory runs out, a prefix of these was appended.
#[tactic(auto, unfolding(dg_script::specs::Report::report_line))]
pub fn write_report(report: &Report, out: &mut Vec<u8>) -> Result<(), AllocError>
    ensures ok { OnOk result (out.new.items ≡ out.old.items ++ report_line report.now) }
    ensures err { OnErr result (IsPrefixOf out.new.items (out.old.items ++ (report_line report.now))) }
    ensures kept { length out.old.items ≤ length out.new.items }
{
    push_line_of! { out, *report;
        Report::Order { mote, number, image, version } => b"order", Small(mote), Number(number), Small(image), Number(version);
        Report::Lost { mote, image } => b"none", Small(mote), Small(image);
        Report::Have { mote, image, version, pages } => b"have", Small(mote), Small(image), Number(version), Small(pages);
        Report::Start { mote, image, version, length, crc } => b"start",
            Small(mote), Small(image), Number(version), Number(length), Crc(crc);
        Report::Off { mote } => b"off", Small(mote);
        Report::SentAdvert { mote } => b"sent", Small(mote), Word(b"advert");
        Report::SentRequest { mote, to, image, version, page, count } => b"sent",
            Small(mote), Word(b"request"), Number(u32::from(to)), Small(image), Number(version), Small(page), Small(count);
        Report::SentData { mote, image, version, page, packet } => b"sent",
            Small(mote), Word(b"data"), Small(image), Number(version), Small(page), Small(packet);
        Report::Refused { mote, cause: Cause::Off } => b"no", Small(mote), Word(b"off");
        Report::Refused { mote, cause: Cause::Frame } => b"no", Small(mote), Word(b"frame");
        Report::Refused { mote, cause: Cause::Link } => b"no", Small(mote), Word(b"link");
        Report::Refused { mote, cause: Cause::Image } => b"no", Small(mote), Word(b"image");
        Report::Refused { mote, cause: Cause::Empty } => b"no", Small(mote), Word(b"empty");
        Report::Refused { mote, cause: Cause::TooLarge { length } } => b"no", Small(mote), Word(b"toolarge"), Number(length);
        Report::Refused { mote, cause: Cause::Reserved } => b"no", Small(mote), Word(b"reserved");
        Report::Refused { mote, cause: Cause::Stale { version } } => b"no", Small(mote), Word(b"stale"), Number(version);
        Report::Refused { mote, cause: Cause::Taken } => b"no", Small(mote), Word(b"taken");
        Report::Refused { mote, cause: Cause::Worn { room } } => b"no", Small(mote), Word(b"worn"), Number(room);
        Report::Refused { mote, cause: Cause::OldOrder { number } } => b"no", Small(mote), Word(b"oldorder"), Number(number);
        Report::Taken { image, version } => b"no", Word(b"image"), Small(image), Number(version), Word(b"taken");
        Report::End { events } => b"end", Number(events);
        Report::MoteOn { mote, image, version } => b"mote", Small(mote), Word(b"on"), Small(image), Number(version);
        Report::MoteOff { mote } => b"mote", Small(mote), Word(b"off");
        Report::Kept { mote, image, version, pages } => b"kept", Small(mote), Small(image), Number(version), Small(pages);
    }
}
