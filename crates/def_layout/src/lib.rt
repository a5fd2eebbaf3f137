//! How statements of NETS and the section SCANCHAINS of a DEF text are written anew (LEF/DEF 5.8, in this profile).
//!
//! Floor: writers, on base_types, token_forms, def_tokens and def_syntax.
//! Contract: `section_text` and `net_text` write exactly the texts of `specs/Sections.antt` and `specs/Nets.antt`, and these are
//! read back as what was meant, as `specs/SectionForms.antt` and `specs/NetForms.antt` say. Begin with `net.rt`.
#![tactic(auto)]

mod chains;
mod laws;
mod net;
mod section;
mod words;

pub use chains::{ChainLayout, ElementLayout, PartitionLayout, TerminalLayout};
pub use laws::{options_law, slice_law, word_law};
pub use net::{ConnectionLayout, NetLayout, net_text};
pub use section::section_text;
