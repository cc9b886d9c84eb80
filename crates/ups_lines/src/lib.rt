//! Lines as text, whatever their meaning: their words, the bytes of a word with escapes, the bytes of a data set made
//! from attributes, and printed values and attributes. Verbs, requests and managers are unknown here.
#![tactic(auto)]

mod attributes;
mod elements;
mod fault;
mod laws;
mod limits;
mod paths;
mod printing;
mod spelling;
mod text;
mod words;

pub use attributes::{LineAttribute, attributes_of};
pub use elements::{elements_of, put_argument};
pub use fault::{LineFault, LineReason};
pub use laws::{what_is_printed_is_read_again, words_encode_one_data_set};
pub use limits::limits_are_as_defined;
pub use printing::{Way, put_hex, put_set, put_text};
pub use spelling::spelled;
pub use text::Text;
pub use words::{Words, filled, number_of, tag_of};
