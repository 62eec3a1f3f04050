//! What a book is: a list of rows of one width. And the listed book, which takes them in any order.
#![tactic(auto)]

mod book;
mod fault;
mod listed;
mod refusal;

pub use book::Book;
pub use fault::ListingFault;
pub use listed::{ListedBook, examine};
pub use refusal::RowRefusal;
