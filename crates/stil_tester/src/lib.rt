//! Scan chains and what patterns do on them: single shifts, scan calls worked out chain by chain, and plays.
//!
//! Floor: patterns, on stil_types and base_types.
//! Contract: `shift_step`, `scan_call`, `play` and `Player` do what `specs/Shifting.antt` and
//! `specs/Runs.antt` say, and `device_law` says that no device tells patterns of the same
//! meaning apart. Begin with `specs/Symbols.antt`; `specs/ChainCalls.antt` says what a scan call
//! does to one chain alone.
#![tactic(auto)]

mod chain_call;
mod chains;
mod checks;
mod device;
mod keeper;
mod laws;
mod player;
mod playing;
mod results;
mod scan;
mod shift;
mod symbol;

pub use chains::{ChainBits, Chains};
pub use checks::{are_chains, call_by_shifts, is_call_for};
pub use device::{Device, Hold, Mix, Told};
pub use laws::{device_law, meaning_law};
pub use player::Player;
pub use playing::play;
pub use results::{PlayLog, ScanResult};
pub use scan::scan_call;
pub use shift::shift_step;
pub use symbol::{Expect, Symbol};
