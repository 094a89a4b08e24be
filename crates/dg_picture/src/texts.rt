//! The texts that are the same in each picture, and how its head begins.
ghost use Rattle.std.specs.Prelude.{◌≡◌, ◌++◌, ◌<◌, OnOk};
ghost use Rattle.dg_picture.specs.Texts.{form_of, class_of, legend, first_text, head_text};

use crate::pieces::{Piece, push_pieces};
use dg_story::Mark;
use std::alloc::AllocError;

/// Title, colours and legend. The colours of the images can be distinguished with colour blindness.
pub const LEGEND: &[u8] = b"<title>How an image spread</title>
<desc>A row for each mote. From left to right: the time, or the lines of a report. A bar is as high as the pages that a mote
keeps of an image; a line with a number begins a version of it. A triangle is a start, a diamond an order, a cross a loss of
power. Where the ground is grey, the mote is off. At the right: what each mote runs and keeps at the end.</desc>
<style>
text{font:11px sans-serif;fill:#222}.m{text-anchor:end}.a{font-size:9px;text-anchor:middle}.h{font-size:16px}
g text,.k{font-size:9px}
.p{fill:#fff}.f{fill:#ddd}.r{stroke:#bbb;fill:none}.v{stroke:#222;fill:none}
g .n,.n{font-size:9px;paint-order:stroke;stroke:#fff;stroke-width:2px;stroke-linejoin:round}
.s0{fill:#9f9714}.i1,.s1{fill:#1a3b89}.i2,.s2{fill:#800800}.i3,.s3{fill:#18aa64}
.i4,.s4{fill:#ca63a0}.i5,.s5{fill:#8985ed}.i6,.s6{fill:#00071d}
.s0,.s1,.s2,.s3,.s4,.s5,.s6{stroke:#fff}
.o0,.o1,.o2,.o3,.o4,.o5,.o6{fill:#222;stroke:#fff}
.x{fill:none;stroke:#222;stroke-width:2}
@media(prefers-color-scheme:dark){text{fill:#ddd}.p{fill:#14171a}.f{fill:#3a3f44}.r{stroke:#555}.v,.x{stroke:#eee}
g .n,.n{stroke:#14171a}
.s0{fill:#ffdc0c}.i1,.s1{fill:#6c92db}.i2,.s2{fill:#d54819}.i3,.s3{fill:#46ff95}
.i4,.s4{fill:#a65770}.i5,.s5{fill:#8833f1}.i6,.s6{fill:#dbffff}
.s0,.s1,.s2,.s3,.s4,.s5,.s6{stroke:#14171a}
.o0,.o1,.o2,.o3,.o4,.o5,.o6{fill:#eee;stroke:#14171a}}
</style>
<path class=\"p\" d=\"M0 0h1600v1000h-1600z\"/>
<text class=\"h\" x=\"100\" y=\"18\">How an image spread</text>
<path class=\"i1\" d=\"M100 38h24v-8h-24z\"/><text x=\"130\" y=\"38\">pages of image 1</text>
<path class=\"i2\" d=\"M240 38h24v-8h-24z\"/><text x=\"270\" y=\"38\">2</text>
<path class=\"i3\" d=\"M286 38h24v-8h-24z\"/><text x=\"316\" y=\"38\">3</text>
<path class=\"i4\" d=\"M332 38h24v-8h-24z\"/><text x=\"362\" y=\"38\">4</text>
<path class=\"i5\" d=\"M378 38h24v-8h-24z\"/><text x=\"408\" y=\"38\">5</text>
<path class=\"i6\" d=\"M424 38h24v-8h-24z\"/><text x=\"454\" y=\"38\">6</text>
<path class=\"v\" d=\"M478 39v-12\"/><text class=\"n\" x=\"484\" y=\"38\">2</text><text x=\"498\" y=\"38\">version 2 begins</text>
<path class=\"s0\" d=\"M606 38l4-7 4 7z\"/><text x=\"620\" y=\"38\">start of golden</text>
<path class=\"s1\" d=\"M722 38l4-7 4 7z\"/><path class=\"s2\" d=\"M732 38l4-7 4 7z\"/><path class=\"s3\" d=\"M742 38l4-7 4 7z\"/>
<path class=\"s4\" d=\"M752 38l4-7 4 7z\"/><path class=\"s5\" d=\"M762 38l4-7 4 7z\"/><path class=\"s6\" d=\"M772 38l4-7 4 7z\"/>
<text x=\"786\" y=\"38\">start of an image</text>
<path class=\"o1\" d=\"M904 39m0-8l4 4-4 4-4-4z\"/><text x=\"914\" y=\"38\">order to start an image</text>
<path class=\"x\" d=\"M1064 39m-3-7l6 6m0-6l-6 6\"/><text x=\"1074\" y=\"38\">loss of power</text>
<path class=\"f\" d=\"M1168 38h24v-8h-24z\"/><text x=\"1198\" y=\"38\">off</text>
<text x=\"1312\" y=\"38\">at the end</text>
";

/// The form of a mark, from the left end of its lane's bottom on.
pub fn form_of(mark: Mark) -> &'static [u8]
    ensures { result.now ≡ form_of mark }
{
    match mark {
        Mark::Started { .. } => b"l4-7 4 7z",
        Mark::Ordered { .. } => b"m0-8l4 4-4 4-4-4z",
        Mark::Lost => b"m-3-7l6 6m0-6l-6 6",
    }
}

/// Appends the class of a mark, which gives its colour.
pub fn push_class(out: &mut Vec<u8>, mark: Mark) -> Result<(), AllocError>
    ensures { OnOk result (out.new.items ≡ out.old.items ++ class_of mark) }
{
    match mark {
        Mark::Started { image } => push_pieces(out, &[Piece::Text(b"s"), Piece::Small(image)]),
        Mark::Ordered { image } => push_pieces(out, &[Piece::Text(b"o"), Piece::Small(image)]),
        Mark::Lost => out.extend_from_slice(b"x"),
    }
}

// Appends title, colours and legend.
#[tactic(auto, unfolding(crate::specs::Texts::legend))]
fn push_legend(out: &mut Vec<u8>) -> Result<(), AllocError>
    ensures { OnOk result (out.new.items ≡ out.old.items ++ legend) }
{
    out.extend_from_slice(LEGEND)
}

// Appends the first tag, of a picture whose rows end here.
fn push_first(out: &mut Vec<u8>, foot: u32) -> Result<(), AllocError>
    requires { foot < 200000 }
    ensures { OnOk result (out.new.items ≡ out.old.items ++ first_text foot) }
{
    let height = foot + 24;
    push_pieces(
        out,
        &[
            Piece::Text(b"<svg xmlns=\"http://www.w3.org/2000/svg\" width=\"1600\" height=\""),
            Piece::Number(height),
            Piece::Text(b"\" viewBox=\"0 0 1600 "),
            Piece::Number(height),
            Piece::Text(b"\" role=\"img\">\n"),
        ],
    )
}

/// Appends what comes before the rows.
#[tactic(auto, unfolding(crate::specs::Texts::head_text))]
pub fn push_head(out: &mut Vec<u8>, foot: u32) -> Result<(), AllocError>
    requires { foot < 200000 }
    ensures { OnOk result (out.new.items ≡ out.old.items ++ head_text foot) }
{
    push_first(out, foot)?;
    push_legend(out)?;
    Ok(())
}
