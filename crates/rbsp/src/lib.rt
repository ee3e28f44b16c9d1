// Escaping (Rec 7.3.1, 7.4.1): NAL bytes to RBSP bytes and back, from the Rust's src/rbsp.rs.
#![tactic(auto)]

pub use desk::Pushed;

pub mod nal;
pub mod reader;
pub mod writer;
