//! The top call: all that the program does, over any source of input and any site.
//!
//! It stands on every layer below. [`run`] carries the promise of the whole: what is said, with
//! which status, and when each status may come, as functions of the words and the whole input.
#![tactic(auto)]

mod answering;
mod birth;
mod converse;
mod input;
pub mod laws;
pub mod lines;
mod once;
mod reading;
mod requests;
mod saying;
mod serve;
mod session;
pub mod status;
mod texts;
pub mod top;
mod trial;
mod words;

pub use lines::{LineReader, SessionLine};
pub use reading::ReadFault;
pub use serve::AnyWarehouse;
pub use status::Status;
pub use top::run;
