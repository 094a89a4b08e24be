//! What is found of chips, as values.
use dg_chain::DIGEST_SIZE;

/// An image, and the root of the hash chain that its pages are to be.
#[derive(Drop)]
pub struct Rooted {
    pub image: u8,
    pub root: [u8; DIGEST_SIZE],
}

/// What is not sound of a chip.
#[derive(Clone, Copy)]
pub enum Flaw {
    /// A data page that an image keeps does not have the CRC that page 0 keeps of it.
    Image { image: u8, page: u8 },
    /// The same of a data page in program memory.
    Program { page: u8 },
    /// The image is not whole, or its pages are not those that the root names.
    Root { image: u8 },
}

/// Whether the bytes of a file are a chip that is sound.
#[derive(Clone, Copy)]
pub enum Verdict {
    Sound,
    /// The first that is not sound: images by their number, then program memory, then the root.
    Flawed(Flaw),
    /// They are not a chip, or one that is not a volume.
    NoVolume,
}

/// One of two chips.
#[derive(Clone, Copy)]
pub enum Side {
    First,
    Second,
}

/// The chip that is ahead in an image: it keeps a page, and the other keeps nothing of the image, or an older version, or fewer
/// pages of the same.
#[derive(Clone, Copy)]
pub struct Ahead {
    pub side: Side,
    /// Whether the other chip has the two commits left that it takes to begin another version.
    pub has_room: bool,
    /// Whether the other chip keeps another profile of the version: another count of pages, or another page 0.
    pub other_profile: bool,
}

/// The pages that both chips have of one version of an image.
#[derive(Clone, Copy)]
pub enum SharedPages {
    /// They do not both have one version.
    Nothing,
    /// Each page that both have is equal, byte for byte.
    Equal,
    /// The first page that differs.
    Differ { page: u8 },
}

/// How two chips compare in an image.
#[derive(Clone, Copy)]
pub struct ImageCompared {
    /// None where neither is ahead.
    pub ahead: Option<Ahead>,
    pub shared: SharedPages,
    /// Whether both keep the same, or neither keeps anything.
    pub alike: bool,
}

/// How the program memories of two chips compare.
#[derive(Clone, Copy)]
pub struct ProgramCompared {
    pub shared: SharedPages,
    /// Whether both are blank, or set to the same, with equal pages.
    pub alike: bool,
}

/// How the orders of two chips compare.
#[derive(Clone, Copy)]
pub struct OrderCompared {
    /// The chip with the larger number. None where they are equal.
    pub ahead: Option<Side>,
    /// Whether both keep the same order or none, and both have waived it or neither has.
    pub alike: bool,
}

/// How two chips compare.
#[derive(Drop)]
pub struct Comparison {
    /// Of each image, by its number.
    pub images: Vec<ImageCompared>,
    pub program: ProgramCompared,
    pub order: OrderCompared,
    /// Whether all of it is alike.
    pub alike: bool,
}

/// What two files show beside each other.
#[derive(Drop)]
pub enum Compared {
    Volumes(Comparison),
    /// The first of the files that is not a volume.
    NoVolume(Side),
}
