//! The tables of the service: what is known about a history of accepted requests without reading it again. An accepted
//! request is planned first, then room is made for its effect on the tables, and then it is carried out, which takes no
//! memory and can't fail (PS3.4 annex CC).
#![tactic(auto)]

mod acting;
mod carrying;
mod choosing;
mod entering;
mod freeing;
pub mod laws;
mod peers;
mod plan;
mod room;
mod rows;
mod settling;
mod step_plans;
mod sweeping;
mod tables;
mod telling;
mod used;
mod watch_plans;

pub use carrying::carry_out;
pub use entering::{begin, make_room};
pub use peers::place_of;
pub use plan::Plan;
pub use rows::HeldStep;
pub use step_plans::plan_step;
pub use sweeping::plan_sweep;
pub use tables::Tables;
pub use ups_steps::HeldRow;
pub use watch_plans::{plan_end, plan_subscription, plan_suspend};
