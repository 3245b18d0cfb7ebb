//! The values of operators: those of the language, and those that the host of a program lends it; and the host itself, which
//! keeps the operators that it lends beside a closure that answers their values.
//!
//! It stands on nothing else. Begin with `op_value` in `op.rt` and with the tables that it and the host's operators are
//! held to, `specs/OpValue.antt` and `specs/HostValue.antt`; then `Host` in `host.rt` with `specs/Host.antt`.
#![tactic(auto)]

mod data_type;
mod error;
mod host;
mod inputs;
mod kind;
mod op;
mod ops;
mod table;

pub use data_type::DataType;
pub use error::OpsError;
pub use host::Host;
pub use inputs::Inputs;
pub use kind::{HostKind, host_value};
pub use op::{Op, op_value};
pub use ops::Ops;
pub use std::alloc::AllocError as OutOfMemory;
pub use table::Table;
