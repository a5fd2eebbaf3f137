//! Retargets scan calls: the same cells loaded, and the same verdict, on chains in another order.
//!
//! Floor: patterns, on lane_kernels, stil_types, stil_tester and base_types.
//! Contract: what `retarget_call` writes does on the new chains what the read call does on the old
//! ones, for whatever the cells hold before. Begin with `specs/Retargeting.antt`; `specs/Moved.antt`
//! says which call that is. `Map` also knows where each cell stands (`specs/Homes.antt`).
#![tactic(auto)]

mod call;
mod exits;
mod home;
mod homes;
mod judge;
mod laws;
mod map;
mod route;
mod side;
mod strings;

pub use call::retarget_call;
pub use home::Home;
pub use judge::judge_call;
pub use laws::moved_law;
pub use map::{Map, map_of};
