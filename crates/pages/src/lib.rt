//! Pages: what text is printed to. Printing on a page never fails; a page that could not take some of
//! the text says so at its end.
#![tactic(auto)]

mod page;
mod text_page;

pub use page::Page;
pub use text_page::TextPage;
