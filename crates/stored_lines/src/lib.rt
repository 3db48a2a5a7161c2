// Lines of stored cases, each read as what it gives or what it asks.
#![tactic(auto)]

mod line;
mod roofs;
mod words;

pub use line::{Case, Job, Line, Pitches, Question, UnreadableLine};
