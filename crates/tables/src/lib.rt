// What the two programs that compare the library with a table share: the words of a table, and the
// counts that a program prints. Of a word it is promised which width or which node it says.
#![tactic(auto)]

pub mod compared;
pub mod line;
pub mod node_word;
pub mod row;
pub mod width;
