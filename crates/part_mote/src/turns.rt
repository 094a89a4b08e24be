//! What a mote does over its chip.
ghost use Rattle.std.specs.Prelude.{◌≡◌, ◌<◌, ◌^◌, None, OnOk, IfOk};
ghost use Rattle.dg_mote.specs.Motes.{sent_in};
ghost use Rattle.dg_node.specs.Nodes.{IsTimelyNode};

use anyhow::{Result, bail};
use dg_frame::Frame;
use dg_mote::Outbox;
use dg_node::{At, Node, TickFault, a_node_stays_timely};
use dg_nor::Nor;

/// A chip powers on at moment 0: it starts, and its mote, which is wide, is made.
pub fn wake<N: Nor>(chip: &mut N, id: u16) -> Result<Node>
    ensures { IfOk result (λ node. IsTimelyNode (N.device chip.new).image node 0) }
{
    a_node_stays_timely();
    let at = At {
        id,
        wide: true,
        now: 0,
        word: u32::from(id),
    };
    let powered = Node::power(chip, at)?;
    Ok(powered.node)
}

/// A mote hears what came, and does what is due. What it sends is returned.
pub fn turn<N: Nor>(
    node: &mut Node,
    chip: &mut N,
    now: u64,
    word: u32,
    came: Option<Frame>,
) -> Result<Option<Frame>>
    requires node { IsTimelyNode (N.device chip.old).image node.old now }
    requires moment { now < 2 ^ 62 }
    ensures { OnOk result (IsTimelyNode (N.device chip.new).image node.new now) }
{
    hear(node, chip, now, word, came)?;
    let mut out = Outbox::new();
    tick(node, chip, now, word, &mut out)?;
    Ok(out.take())
}

/// A mote hears what came.
fn hear<N: Nor>(
    node: &mut Node,
    chip: &mut N,
    now: u64,
    word: u32,
    came: Option<Frame>,
) -> Result<()>
    requires node { IsTimelyNode (N.device chip.old).image node.old now }
    requires moment { now < 2 ^ 62 }
    ensures { OnOk result (IsTimelyNode (N.device chip.new).image node.new now) }
{
    match came {
        Some(frame) => hear_frame(node, chip, now, word, frame.as_slice()),
        None => Ok(()),
    }
}

/// A mote hears a frame.
fn hear_frame<N: Nor>(
    node: &mut Node,
    chip: &mut N,
    now: u64,
    word: u32,
    frame: &[u8],
) -> Result<()>
    requires node { IsTimelyNode (N.device chip.old).image node.old now }
    requires moment { now < 2 ^ 62 }
    ensures { OnOk result (IsTimelyNode (N.device chip.new).image node.new now) }
{
    a_node_stays_timely();
    node.hear(chip, now, word, frame)?;
    Ok(())
}

/// A mote does what is due.
fn tick<N: Nor>(node: &mut Node, chip: &mut N, now: u64, word: u32, out: &mut Outbox) -> Result<()>
    requires node { IsTimelyNode (N.device chip.old).image node.old now }
    requires moment { now < 2 ^ 62 }
    requires empty { sent_in out.old ≡ None }
    ensures { OnOk result (IsTimelyNode (N.device chip.new).image node.new now) }
{
    a_node_stays_timely();
    match node.tick(chip, now, word, out) {
        Ok(_) => Ok(()),
        Err(TickFault::Stopped) => bail!("the chip is stopped"),
        Err(TickFault::NoImage) => bail!("no image can be started"),
    }
}
