// The lines of a report as text: words and decimal numbers, put as bytes on a page.
#![tactic(auto)]

mod line;
mod page;

pub use page::Page;
