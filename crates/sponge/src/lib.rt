// The Ascon sponge, in every mode: the record of a sponge that is not done yet, into which bytes are fed and from which output is drawn.
#![tactic(auto)]

mod record;

pub use record::Record;
