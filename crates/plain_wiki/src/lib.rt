//! The plain wiki: its state, what stands against each request, and its step. Definitions alone; docs/ARCHITECTURE.md has the
//! design.
#![tactic(auto)]
