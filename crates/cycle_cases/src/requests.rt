//! Requests that are read from fields.

ghost use Rattle.std.specs.Prelude.{◌≡◌, ◌≤◌, ◌<◌, true, All, AllPairs};

use crate::values::frame;
use async_window::Request;
use cases::{Fault, time};
use std::alloc::Global;

/// The requests of fields that each write an arrival, a colon and a frame.
pub fn requests(alloc: Global, fields: &str) -> Result<Vec<Request>, Fault> {
    let mut requests = Vec::new(alloc);
    if fields.is_empty() {
        return Ok(requests);
    }
    for field in fields.split(' ') {
        requests.push(request(alloc, field)?)?;
    }
    Ok(requests)
}

/// The request of a field.
fn request(alloc: Global, field: &str) -> Result<Request, Fault> {
    let Some((at, data)) = field.split_once(':') else {
        return Err(Fault::Unread);
    };
    let at = time(at)?;
    let frame = frame(alloc, data)?;
    Ok(Request { at, frame })
}

/// Whether arrivals never fall and are below 10,000 bit times.
pub fn are_in_order(requests: &[Request]) -> bool
    ensures arrivals { result ≡ true → AllPairs (λ one other. one.at ≤ other.at) requests.now }
    ensures early { result ≡ true → All (λ request. request.at < 10000) requests.now }
{
    let mut last = 0;
    for request in requests {
        if request.at < last || request.at >= 10_000 {
            return false;
        }
        last = request.at;
    }
    true
}
