//! The verb `wrap`.
ghost use Rattle.std.specs.Prelude.{◌≡◌, ◌≤◌, ◌++◌, IfOk, codes, length};
ghost use Rattle.dg_base.specs.Hexadecimal.{hex_text};
ghost use Rattle.dg_ihex.specs.Written.{written_file};
ghost use Rattle.dg_ihex.specs.Sizes.{longest_image};
ghost use Rattle.dg_outside.specs.Outside.{input_of};
ghost use Rattle.dg_end.specs.Lines.{text_outcome};
ghost use Rattle.dg_end.specs.Texts.{line};
ghost use Rattle.dg_chain_tool.specs.Verbs.{wrap_by};
ghost use Rattle.dg_chain_tool.specs.Done.{FedText};

use dg_base::{Source, push_hex};
use dg_chain::{Wrapped, wrap};
use dg_end::End;
use dg_ihex::write_ihex;
use dg_tool::read_image;
use std::alloc::{AllocError, Global};

/// The line of a root, and then the HEX file of the image.
fn wrapped_report(alloc: Global, wrapped: &Wrapped) -> Result<Vec<u8>, AllocError>
    requires some { 1 ≤ length wrapped.now.image }
    requires fits { length wrapped.now.image ≤ longest_image }
    ensures { IfOk result (λ text. text.items ≡ line (codes "root " ++ hex_text wrapped.now.root)
        ++ written_file wrapped.now.image) }
{
    let mut text = Vec::new(alloc);
    text.extend_from_slice(b"root ")?;
    push_hex(&mut text, wrapped.root.as_slice())?;
    text.push(b'\n')?;
    let file = write_ihex(alloc, wrapped.image.as_slice())?;
    text.extend_from_slice(&file)?;
    Ok(text)
}

/// The text of the payload that an input spells.
pub(crate) fn wrap_input<S: Source>(alloc: Global, input: &mut S) -> Result<Vec<u8>, End>
    ensures done { FedText (text_outcome (λ text. text.items) result) wrap_by (input_of (S.Source, input.old))
        (input_of (S.Source, input.new)) }
    ensures counts { S.faults input.old ≤ S.faults input.new }
{
    let payload = read_image(alloc, input)?;
    let wrapped = wrap(alloc, &payload)?;
    let text = wrapped_report(alloc, &wrapped)?;
    Ok(text)
}
