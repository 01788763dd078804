//! The requests file as values: what its rows mean, and exactly why a file is refused.
#![tactic(auto)]

mod request_fault;
pub mod request_laws;
mod request_list;
mod requests;

pub use request_fault::{RequestFault, RequestWhy};
pub use request_list::RequestList;
pub use requests::read_requests;
