//! Ends the replay of a script.
ghost use Rattle.std.specs.Prelude.{◌≡◌, ◌++◌, ◌<◌, ◌≤◌, ℕ, List, length, IfOk, OnOk};
ghost use Rattle.std.specs.List.{flat_map, range_with_len};
ghost use Rattle.dg_end.specs.Lines.{text_outcome};
ghost use Rattle.dg_drip.specs.Network.{Network};
ghost use Rattle.dg_drip_replay.specs.Standing.{NetworkStands};
ghost use Rattle.dg_drip_script.specs.Reports.{value_text, node_text, final_text};
ghost use Rattle.dg_drip_script.specs.Scripts.{DripScript, network_of};
ghost use Rattle.dg_drip_run.specs.inner.Playing.{PlayerStands, IsPlaying};
ghost use Rattle.dg_drip_run.specs.inner.Lines.{ScriptEnds};

use crate::player::Player;
use dg_drip::{Entry, KEYS};
use dg_drip_replay::DripNetwork;
use dg_drip_script::{push_end, push_entry};
use dg_end::End;
use dg_script::LineFault;
use std::alloc::{AllocError, Global};

// Appends what a node keeps of a key, where it is something.
fn push_value(text: &mut Vec<u8>, node: u8, key: u8, entry: Entry) -> Result<(), AllocError>
    ensures { OnOk result (text.new.items ≡ text.old.items ++ value_text node key entry) }
{
    if entry.number == 0 {
        return Ok(());
    }
    push_entry(text, b"value", node, key, entry)
}

// Appends what a node keeps, by key.
fn push_node(text: &mut Vec<u8>, network: &DripNetwork, node: u8) -> Result<(), AllocError>
    requires { node < length network.now.nodes.items }
    ensures { (w : Network) → NetworkStands network.now w → OnOk result (text.new.items ≡ text.old.items ++ node_text w node) }
{
    for key in 0..KEYS as u8 {
        push_value(text, node, key, network.entry(node, key))?;
    }
    Ok(())
}

// Appends what this many nodes keep, by node and key.
fn push_nodes(text: &mut Vec<u8>, network: &DripNetwork, nodes: u8) -> Result<(), AllocError>
    requires { nodes ≤ length network.now.nodes.items }
    ensures { (w : Network) → NetworkStands network.now w
        → OnOk result (text.new.items ≡ text.old.items ++ flat_map (node_text w) (range_with_len 0 nodes)) }
{
    for node in 0..nodes {
        push_node(text, network, node)?;
    }
    Ok(())
}

// Appends the last lines of a script.
fn push_final(text: &mut Vec<u8>, player: &Player) -> Result<(), AllocError>
    requires { player.now.standing.nodes ≤ length player.now.network.nodes.items }
    ensures { (s : DripScript) (before : List ℕ) → PlayerStands player.now s before
        → OnOk result (text.new.items ≡ text.old.items ++ final_text (network_of s) s.nodes (length s.items)) }
{
    push_end(text, player.events)?;
    push_nodes(text, &player.network, player.standing.nodes)
}

/// Ends a script whose lines were all played, `line` being the number of the next one. Answers the last lines of its report.
pub fn end_script(alloc: Global, player: &Player, line: u32) -> Result<Vec<u8>, End>
    requires { IsPlaying player.now }
    ensures { (s : DripScript) (before : List ℕ) → PlayerStands player.now s before
        → ScriptEnds (text_outcome (λ text. text.items) result) s line }
{
    if player.standing.nodes == 0 {
        return Err(End::BadLine {
            line,
            fault: LineFault::Place,
        });
    }
    let mut text = Vec::new(alloc);
    push_final(&mut text, player)?;
    Ok(text)
}
