//! Rows of held steps that several owners share, in any threads: what a query takes in its turn, and is answered from
//! outside of it (PS3.4 CC.2.7, CC.2.8).
#![tactic(auto)]

mod answering;
mod first;
mod shared_part;
mod shared_row;
mod shared_rows;

pub use shared_part::SharedPart;
pub use shared_row::SharedRow;
pub use shared_rows::SharedRows;
