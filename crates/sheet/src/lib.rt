// Sheets: the text form of an address-block image. A text is read as a sheet exactly where it is that
// sheet written out, within the limits, and else refused with 15; no text is that of two sheets.
#![tactic(auto)]

pub mod column;
pub mod error;
pub mod head;
pub mod line;
pub mod reading;
pub mod sheet;
pub mod writing;
