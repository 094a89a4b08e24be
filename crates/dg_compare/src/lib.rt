//! Whether what a chip keeps is sound, and how two chips compare. Both are only read.
#![tactic(auto)]

mod comparing;
mod flaws;
mod kept;
mod opening;
mod orders;
mod pages;
mod programs;
mod results;
mod verifying;

pub use comparing::compare;
pub use results::{
    Ahead, Compared, Comparison, Flaw, ImageCompared, OrderCompared, ProgramCompared, Rooted,
    SharedPages, Side, Verdict,
};
pub use verifying::verify;
