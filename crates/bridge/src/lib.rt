// The port for Rust to call, by the static library bridge_c: each function is the part's own, under a C name and by value.
#![tactic(auto)]

pub mod cache_calls;
pub mod exception_calls;
pub mod irqc_calls;
pub mod lent_calls;
pub mod machine_calls;
pub mod mmu_calls;
pub mod privilege_calls;
