//! The layout of a picture.
ghost use Rattle.std.specs.Prelude.{◌≡◌, ℕ, ◌+◌, ◌*◌, ◌/◌, ◌^◌, ◌≤◌, ◌<◌, drop, take_while};
ghost use Rattle.std.specs.List.{prefix_len};
ghost use Rattle.dg_layout.specs.Layout.{step_among, step_of, grid_of, left_of, right_of, is_before, rows_of, lane_bottom};
ghost use Rattle.dg_layout.specs.Layout.{middle, foot, height_of};

use dg_story::{Told, images, motes};

/// How much of the axis a column may have, in lines.
pub const LINE_STEPS: [u64; 12] = [1, 2, 5, 10, 20, 50, 100, 200, 500, 1000, 2000, 5000];

/// How much of the axis a column may have, in milliseconds, so that ten columns are a round time.
pub const MOMENT_STEPS: [u64; 26] = [
    1,
    2,
    5,
    10,
    20,
    50,
    100,
    200,
    500,
    1000,
    2000,
    3000,
    6000,
    12_000,
    30_000,
    60_000,
    180_000,
    360_000,
    720_000,
    1_440_000,
    2_160_000,
    4_320_000,
    8_640_000,
    43_200_000,
    86_400_000,
    864_000_000,
];

/// The columns of a picture.
#[derive(Clone, Copy, Debug, PartialEq, Eq)]
pub struct Grid {
    /// How much of the axis a column has.
    pub per: u64,
    /// How many columns there are.
    pub columns: u8,
    /// How wide a column is, in units.
    pub width: u8,
}

/// The rows of a picture.
#[derive(Clone, Copy, Debug, PartialEq, Eq)]
pub struct Frame {
    /// How many rows there are, one for each mote.
    pub rows: u32,
    /// How many lanes a row has below the one of golden, one for each image.
    pub images: u8,
    /// How high these lanes are, in units.
    pub lane: u8,
    /// How high a row is, in units.
    pub row: u8,
}

// The least of some steps by which 240 columns reach the last place, or else the least number that does.
#[tactic(auto, using(crate::proofs::LayoutLemmas::steps))]
fn step_among(steps: &[u64], last: u64) -> u64
    ensures value { result ≡ step_among steps.now last }
    ensures within { last / 240 < result }
{
    let least = last / 240;
    for step in steps {
        if least < *step {
            return *step;
        }
    }
    least + 1
}

// How much of the axis a column has, where the last place is this.
fn step_for(timed: bool, last: u64) -> u64
    ensures value { result ≡ step_of timed last }
    ensures within { last / 240 < result }
{
    if timed {
        return step_among(&MOMENT_STEPS, last);
    }
    step_among(&LINE_STEPS, last)
}

/// The columns, where the last place is this.
#[tactic(auto, using(crate::proofs::LayoutLemmas::grids), unfolding(crate::specs::Layout::grid_of))]
pub fn grid_for(timed: bool, last: u64) -> Grid
    ensures value { result ≡ grid_of timed last }
    ensures fits { (k : ℕ) → k < result.columns → k * result.per ≤ last }
    ensures few { result.columns ≤ 240 }
{
    let per = step_for(timed, last);
    let whole = last / per;
    let columns = whole as u8 + 1;
    let width = (1200 / u32::from(columns)).min(40) as u8;
    Grid {
        per,
        columns,
        width,
    }
}

/// Where a column begins.
#[tactic(auto, using(crate::proofs::LayoutLemmas::small_product))]
pub fn left_of(grid: Grid, column: u8) -> u32
    ensures { result ≡ left_of grid column }
{
    let across = u32::from(column) * u32::from(grid.width);
    100 + across
}

/// Where the last column ends.
pub fn right_of(grid: Grid) -> u32
    ensures { result ≡ right_of grid }
{
    left_of(grid, grid.columns)
}

/// The place at which a column begins.
pub fn place_at(grid: Grid, column: u8) -> u64
    requires { column * grid.per < 2 ^ 64 }
    ensures { result ≡ column * grid.per }
{
    u64::from(column) * grid.per
}

// The place after this many columns.
fn place_after(per: u64, columns: u8) -> u128
    ensures { result ≡ columns * per }
{
    u128::from(columns) * u128::from(per)
}

// How many of the first changes come before a place.
fn leading(changes: &[Told], place: u128) -> usize
    ensures { result ≡ prefix_len (is_before place) changes.now }
{
    for (count, here) in changes.iter().enumerate() {
        if u128::from(here.place) >= place {
            return count;
        }
    }
    changes.len()
}

/// The changes of a column, of those from its beginning on, and the changes after it.
pub fn next_column(changes: &[Told], per: u64, column: u8) -> (&[Told], &[Told])
    requires { column < 255 }
    ensures column { result.0.now ≡ take_while (is_before ((column + 1) * per)) changes.now }
    ensures behind { result.1.now ≡ drop (prefix_len (is_before ((column + 1) * per)) changes.now) changes.now }
{
    changes.split_at(leading(changes, place_after(per, column + 1)).min(changes.len()))
}

/// The rows for what is reported.
#[tactic(auto, using(crate::proofs::LayoutLemmas::lanes_fit), unfolding(crate::specs::Layout::rows_of))]
pub fn frame_for(told: &[Told]) -> Frame
    ensures value { result ≡ rows_of told.now }
    ensures rows { result.rows ≤ 256 }
{
    let images = images(told);
    let lane = (48 / images.max(1)).min(16);
    let lanes = lane * images;
    Frame {
        rows: motes(told),
        images,
        lane,
        row: 10 + lanes,
    }
}

/// The bottom of a lane, in units from the top.
#[tactic(auto, using(crate::proofs::LayoutLemmas::small_product))]
pub fn base_of(frame: Frame, mote: u32, image: u8) -> u32
    requires mote { mote < 256 }
    ensures value { result ≡ lane_bottom frame mote image }
    ensures least { 1 ≤ result }
    ensures bound { result < 200000 }
{
    let down = u32::from(frame.row) * mote;
    let across = u32::from(frame.lane) * u32::from(image);
    56 + down + across
}

/// The bottom of the lowest lane of a row, in units from the top.
pub fn bottom_of(frame: Frame, mote: u32) -> u32
    requires mote { mote < 256 }
    ensures { result ≡ lane_bottom frame mote frame.images }
{
    base_of(frame, mote, frame.images)
}

/// The bottom of the name of a row, in units from the top.
#[tactic(auto, using(crate::proofs::LayoutLemmas::small_product))]
pub fn middle_of(frame: Frame, mote: u32) -> u32
    requires mote { mote < 256 }
    ensures { result ≡ middle frame mote }
{
    let down = u32::from(frame.row) * mote;
    51 + down + u32::from(frame.row) / 2
}

/// The bottom of all rows, in units from the top.
#[tactic(auto, using(crate::proofs::LayoutLemmas::small_product))]
pub fn foot_of(frame: Frame) -> u32
    requires rows { frame.rows ≤ 256 }
    ensures value { result ≡ foot frame }
    ensures bound { result < 200000 }
{
    let down = u32::from(frame.row) * frame.rows;
    48 + down
}

/// The height of pages, in units, where this many fill a lane but for a gap above.
#[tactic(auto, using(crate::proofs::LayoutLemmas::small_product))]
pub fn height_of(lane: u8, count: u8, most: u8) -> u32
    ensures { result ≡ height_of lane count most }
{
    if count == 0 {
        return 0;
    }
    let full = u32::from(lane.saturating_sub(1));
    let parts = u32::from(count) * full;
    (parts / u32::from(most.max(1))).max(1)
}
