//! That nothing is wrong with made designs and their patterns, for every number of units.
//!
//! Floor: top, on netlist_core, cell_table, stil_types, stil_parts, stil_head, stil_reader, design_files, design_maker,
//! base_types, def_tokens, def_syntax, def_layout, def_reader, lef_pins, token_forms, chain_trace, chain_rules,
//! design_elements, traced_paths, design_places, head_checks, verilog_syntax, verilog_names, verilog_checks,
//! verilog_reader, stil_tokens, stil_syntax, stil_blocks, stil_calls, declared_chains, head_chains and path_numbers.
//! Contract: `made_law` of `laws.rt` (`specs/Laws.antt`). What the texts denote say `designs.rt`, `verilog.rt` and `patterns.rt`, the
//! paths `paths.rt`; that nothing is wrong with them beside each other `checks.rt` and `files.rt`.
#![tactic(auto)]

mod checks;
mod designs;
mod files;
mod laws;
mod paths;
mod patterns;
mod verilog;

pub use checks::{
    made_agreement_law, made_chains_law, made_elements_law, made_heads_law, made_places_law,
    made_traces_law,
};
pub use designs::{made_design_law, made_macros_law, made_statements_law, made_table_law};
pub use files::made_files_law;
pub use laws::made_law;
pub use paths::made_paths_law;
pub use patterns::{made_head_law, made_patterns_law};
pub use verilog::{made_module_law, made_verilog_law, made_words_law};
