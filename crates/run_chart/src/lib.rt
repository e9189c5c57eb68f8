//! A run as a picture: a chart of its messages as one SVG, a column a node and a row an event. What is drawn is one list
//! of marks, and the text is made of that list alone.
#![tactic(auto)]

pub mod boards;
pub mod charting;
mod drawing;
pub mod label;
pub mod law;
pub mod mark;
mod moment;
mod picture;
mod piece;
pub mod place;
pub mod row;
pub mod stretch;

pub use boards::board_chart;
pub use charting::{ChartError, chart};
pub use mark::Mark;
pub use row::Span;
