//! What a service writes: its trace, which is a script, and the last line of its status.
ghost use Rattle.std.specs.Prelude.{◌≡◌, ◌≤◌, ◌++◌, ◌∷◌, [], OnOk, OnErr, IfErr};
ghost use Rattle.dg_words.specs.Counts.{Rose};
ghost use Rattle.dg_base.specs.Outside.{Puts, PutsPrefix};
ghost use Rattle.dg_netcfg.specs.Readings.{IsAllowed};
ghost use Rattle.dg_script.specs.Sizes.{most_motes};
ghost use Rattle.dg_script.specs.Fitting.{FitsEvent};
ghost use Rattle.dg_script.specs.Spelling.{line_text};
ghost use Rattle.dg_script.specs.declared.line.Line.TheVariants.{Happens as EventLine};
ghost use Rattle.dg_serve.specs.Traces.{lines_text, head_lines};

use crate::stop::Stop;
use dg_base::{Event, Sink, WriteFailed};
use dg_lines::{write_event, write_line};
use dg_netcfg::NetProfile;
use dg_script::Line;
use std::alloc::AllocError;

/// Writes a text.
pub fn put<K: Sink>(text: &[u8], out: &mut K) -> Result<(), Stop>
    ensures ok { OnOk result (Puts (K.written out.old) (K.written out.new) text.now) }
    ensures err { OnErr result (PutsPrefix (K.written out.old) (K.written out.new) text.now) }
    ensures cause { IfErr result (λ why. why ≡ Stop.Write) }
    ensures counts { K.faults out.old ≤ K.faults out.new }
    ensures failed { OnErr result (Rose (K.faults out.old) (K.faults out.new)) }
    ensures unfailed { OnOk result (K.faults out.new ≡ K.faults out.old) }
{
    match out.write(text) {
        Ok(()) => Ok(()),
        Err(WriteFailed) => Err(Stop::Write),
    }
}

/// The first lines of a trace: the motes, that the boards are used as they are, and the links.
pub(crate) fn write_head(profile: &NetProfile, text: &mut Vec<u8>) -> Result<(), AllocError>
    requires { IsAllowed profile.now }
    ensures { OnOk result (text.new.items ≡ text.old.items ++ lines_text (head_lines profile.now)) }
{
    write_line(&Line::Motes(profile.motes), text)?;
    write_line(&Line::Boards, text)?;
    for link in profile.links.as_slice() {
        write_line(&Line::Link(link.0, link.1), text)?;
    }
    Ok(())
}

/// Makes a text the line of an event.
pub fn event_line(event: &Event, text: &mut Vec<u8>) -> Result<(), AllocError>
    requires { FitsEvent most_motes event.now }
    ensures { OnOk result (text.new.items ≡ line_text (EventLine event.now) ++ 10 ∷ []) }
{
    text.clear();
    write_event(event, text)
}
