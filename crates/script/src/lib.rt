// The script language of document 01's "Script program": lines are read, answers are written, and input is cut into lines. It knows no hub.
#![tactic(auto)]

mod answer;
mod hex;
mod input;
mod line;
mod number;
mod text;
mod writer;

pub use answer::Word;
pub use input::take_line;
pub use line::{LONGEST_LINE, MOST_BYTES, Parsed, Verb, parse_line};
pub use text::part;
pub use writer::Writer;
