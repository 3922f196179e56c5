//! The reader of patterns and of objects.
//!
//! `read_pattern` returns a pattern exactly if the text spells its tree, and `read_object` the parts of an object in the same
//! way. `read_rule_pattern` and `read_rule_object` read the texts of rules for files: their literals may have any bytes, and
//! their sets several literals. Each may also run out of memory:
//!
//! - `specs/Grammar.antt` and `specs/ObjectGrammar.antt` are the grammars, with a constructor for each rule, and with all
//!   limits: what is read is spelled so (the clause `found`), and what is spelled so is read (`only`).
//! - `specs/Reading.antt` and `specs/Objects.antt` read a list of characters from left to right, and give the first fault and
//!   its place. The calls return that result (the clause `exact`).
//! - `Memory` is returned only for a text that is short and not blank, and of a document also ASCII (the clause `late`).
//! - `one_tree` and `one_object` are the laws that no text spells two trees or two objects. `memory_is_no_fault` is the law
//!   that no text has the fault `Memory`. `one_rule_tree`, `one_rule_object` and `memory_is_no_rule_fault` are those of rules.
#![tactic(auto)]

mod characters;
mod depth;
mod faults;
mod keywords;
mod laws;
mod object_reader;
mod objects;
mod piece;
mod reader;
mod reading;
mod rule_object_reader;
mod rule_reading;
mod sets;
mod tokens;

pub use faults::ReadFault;
pub use laws::{
    memory_is_no_fault, memory_is_no_rule_fault, one_object, one_rule_object, one_rule_tree,
    one_tree,
};
pub use objects::{ByteObject, BytePart, Object, Part};
pub use reading::{read_object, read_pattern};
pub use rule_reading::{read_rule_object, read_rule_pattern};
pub use sno_pattern::{Name, Names, Pattern, Text};
