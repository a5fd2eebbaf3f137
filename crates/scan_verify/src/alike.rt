//! Whether the statements of patterns, and the heads of STIL texts, are alike (IEEE 1450-1999, in this profile).

mod head;
mod labels;
mod names;
mod standing;
mod staying;
mod tokens;

pub use head::same_head;
pub use labels::have_same_heading;
pub use names::have_same_names;
pub use staying::StayingTokens;
pub use tokens::have_same_tokens;
