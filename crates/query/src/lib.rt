// Queries on an image whose values are sites. The input that has an image, its sites and the queries
// is loaded, a line is read as a query exactly where it is that query's text, and a query is answered
// by the longest entry of the image's register that contains its block, or by why there is no answer.
#![tactic(auto)]

pub mod address;
pub mod input;
pub mod lines;
pub mod number;
pub mod query;
pub mod reply;
pub mod response;
pub mod site;
