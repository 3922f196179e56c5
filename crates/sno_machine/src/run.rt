//! Nodes are run: one step after the other, one start after the other.

pub(crate) mod branching;
pub(crate) mod conditions;
pub(crate) mod entries;
pub(crate) mod history;
pub(crate) mod known;
pub(crate) mod learnt;
pub(crate) mod leaves;
pub(crate) mod one_character;
pub(crate) mod pair_rounds;
pub(crate) mod pairs;
pub(crate) mod parts;
pub(crate) mod progress;
pub(crate) mod rounds;
pub(crate) mod rows;
pub(crate) mod running;
pub(crate) mod scanning;
pub(crate) mod search;
pub(crate) mod seeking;
pub(crate) mod singles;
pub(crate) mod stepping;
pub(crate) mod subject;
pub(crate) mod together;
