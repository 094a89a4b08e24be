//! The images that were declared.
ghost use Rattle.std.specs.Prelude.{◌≤◌, IsTrue, length};
ghost use Rattle.dg_base.specs.Texts.{spells_name};
ghost use Rattle.dg_rules.specs.Sizes.{most_content};

use dg_base::Bytes;
use dg_rules::ImageVersion;
use std::alloc::{AllocError, Global};
use std::collections::BTreeMap;

/// An image that was declared.
#[derive(Drop)]
pub struct Image {
    pub name: Bytes,
    pub content: Bytes,
    ghost named: { IsTrue (spells_name name) },
    ghost few: { length content ≤ most_content },
}

/// The images, by their image versions.
#[derive(Drop)]
pub struct Images {
    pub(crate) by_image_version: BTreeMap<ImageVersion, Image>,
}

impl Images {
    ghost use Rattle.std.specs.Prelude.{◌≡◌, ◌∷◌, ◌++◌, List, [], None, OnOk, OnErr, option_map};
    ghost use Rattle.dg_object.specs.Object.{Row};
    ghost use Rattle.dg_shared.specs.Images.{found, row_of_image, Declares, NothingDeclared};

    /// No images.
    pub fn new(alloc: Global) -> Images
        ensures { NothingDeclared result }
    {
        Images {
            by_image_version: BTreeMap::new(alloc),
        }
    }

    /// The image that was declared with this image version.
    pub fn get(&self, image_version: ImageVersion) -> Option<&Image>
        ensures { option_map (λ i. i.now) result ≡ found self.now image_version }
    {
        self.by_image_version.get(&image_version)
    }

    /// Declares an image whose version was not declared. Without memory nothing is declared.
    pub fn add(&mut self, image_version: ImageVersion, image: Image) -> Result<(), AllocError>
        requires { found self.old image_version ≡ None }
        ensures added { OnOk result ((rows : List Row) → Declares self.old rows
            → Declares self.new (rows ++ row_of_image image_version image ∷ [])) }
        ensures unchanged { OnErr result ((rows : List Row) → Declares self.old rows → Declares self.new rows) }
    {
        match self.by_image_version.insert(image_version, image) {
            Ok(_) => Ok(()),
            Err(_failed) => Err(AllocError),
        }
    }
}
