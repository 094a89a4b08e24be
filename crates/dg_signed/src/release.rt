//! What is signed, and the name under which it is received.
ghost use Rattle.std.specs.Prelude.{◌≡◌, ◌≤◌, ◌<◌, ◌⊎◌, None, IfSome, IsTrue, string_bytes};
ghost use Rattle.dg_base.specs.Texts.{spells_name};
ghost use Rattle.dg_object.specs.Sizes.{slots};

use dg_base::is_name;
use dg_object::SLOTS;
use dg_xmss::NODE_SIZE;

/// A version of an image, from 1 on, and the root of its pages.
#[derive(Debug, Drop)]
pub struct Release {
    pub image: u8,
    pub version: u32,
    pub root: [u8; NODE_SIZE],
    ghost known: { image < slots },
    ghost numbered: { 1 ≤ version },
}

impl Release {
    /// None where a chip has no slot for the image, or the version is 0.
    pub fn new(image: u8, version: u32, root: [u8; NODE_SIZE]) -> Option<Release>
        ensures some { IfSome result (λ r. (r.image ≡ image) × (r.version ≡ version) × (r.root ≡ root)) }
        ensures none { result ≡ None → (slots ≤ image) ⊎ (version ≡ 0) }
    {
        if image >= SLOTS || version == 0 {
            return None;
        }
        Some(Release {
            image,
            version,
            root,
        })
    }
}

/// The name of an image: 1 to 16 letters, digits, `_`, `-` and `.`.
#[derive(Debug, Drop)]
pub struct ImageName {
    pub text: String,
    ghost spelled: { IsTrue (spells_name (string_bytes text)) },
}

impl ImageName {
    /// None if the text is not a name.
    pub fn new(text: String) -> Option<ImageName>
        ensures some { IfSome result (λ n. n.text ≡ text) }
    {
        if is_name(text.as_bytes()) {
            return Some(ImageName { text });
        }
        None
    }
}
