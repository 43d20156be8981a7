// `bridge` under C names, as a static library: each export asks the library's function of its name and states that function's clauses again.
#![tactic(auto)]

mod cache_calls;
mod exception_calls;
mod irqc_calls;
mod lent_calls;
mod machine_calls;
mod mmu_calls;
mod privilege_calls;
