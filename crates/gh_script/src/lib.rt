//! Scripts of goroutines: what they say, and how a text spells them.
//!
//! A script gives settings and the shapes of types, and then the statements of 1 to 32 goroutines.
//! Statements between `repeat` and `end` stand several times; all goroutines together have at most
//! 200,000, repetitions written out. The grammar stands in specs/Grammar.antt: a text is read line by
//! line, and each line is refused for the first cause of a table that it meets. [`parse`] answers what
//! that grammar says of a text, both ways: a script exactly where the text spells it, a fault exactly
//! where it is refused so.
//! [`script_form`] says the same without the reading line by line: which lines a script has, and
//! what they say (specs/Form.antt).
//! [`Script::make`] makes a script without a text, for users of the heap as a library: their goroutines only count.
//! The heap has no use of the text once it is parsed, so a [`Script`] keeps only what was said.
#![tactic(auto)]

mod cause;
mod draft;
mod fault;
mod form;
mod generated;
mod given;
mod goroutine;
mod key;
mod line;
mod made;
mod reading;
mod saying;
mod script;
mod shape_text;
mod statement;
mod word;

pub use fault::{ParseError, ScriptFault, Why};
pub use form::script_form;
pub use generated::{
    generate, generated_goroutines_keep_apart, generated_scripts_have_their_size,
    generated_scripts_spell,
};
pub use line::{Sentence, behind, feed_index, next_word, stripped, words};
pub use made::Wishes;
pub use reading::{MOST_BYTES, one_reading, parse};
pub use script::Script;
pub use statement::{Settings, Stmt};
pub use word::{is_name, number};
