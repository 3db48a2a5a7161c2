// A sheet as bytes, by who reads it: the verdict on it, where an item lies, and the item as a part of the sheet; a pair's
// word, split and joined. Every call takes any bytes.
#![tactic(auto)]

mod accepted;
mod reader;

pub use accepted::Sheet;
pub use ceilings::Caller;
pub use pair_words::{Pair, join, split, word};
pub use pairs::Refused;
pub use reader::{item, locate, verdict};
