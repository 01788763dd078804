//! The requests file: rows `AT,ID,DATA` of comma-separated fields.
//!
//! AT is the arrival in bit times, below 2^40, and never falls from row to row. ID is an owned
//! identifier, as a decimal number or as `0x` and one to three hexadecimal digits. DATA is two
//! hexadecimal digits for each of 0 to 8 bytes. There are at most 50,000 rows.

ghost use Rattle.std.specs.Prelude.{◌≡◌, ◌⊎◌, ℕ, ◌<◌, ◌≤◌, ◌&&◌, ◌++◌, [], ◌∷◌, IfOk, IfErr, IfSome};
ghost use Rattle.std.specs.Prelude.{Err, Ok, Some, None, map, length, get_or, false, true};
ghost use Rattle.std.specs.Prelude.{List, option_and_then, option_map, MatchResult};
ghost use Rattle.profile.specs.Limits.{greatest_identifier};
ghost use Rattle.can_frame.specs.DataFrame.{IsFrame, frame_with};
ghost use Rattle.text_fields.specs.CsvRows.{rows_of, trimmed};
ghost use Rattle.text_fields.specs.Decimal.{number_of, within};
ghost use Rattle.text_fields.specs.RecordReading.{fields_in};
ghost use Rattle.requests_file.specs.RequestRow.{hexadecimal_of, identifier_of, identifier_in};
ghost use Rattle.requests_file.specs.RequestRow.{bytes_in, is_owned, arrival_above, meaning, IsRequest};
ghost use Rattle.requests_file.specs.RequestOwners.{IsOwnedTable};
ghost use Rattle.async_window.specs.declared.request.Owner.{Owner};
ghost use Rattle.requests_file.specs.declared.request_fault.RequestFault.TheVariants.{Memory};
ghost use Rattle.requests_file.specs.RequestsFile.{AreRequests, IsRequestFault, AreLegal, requests_of};

use super::request_fault::{RequestFault, RequestWhy};
use async_window::{Owner, Request};
use can_frame::Frame;
use profile::{ARRIVALS_END, GREATEST_IDENTIFIER, LEAST_ASYNCHRONOUS};
use std::alloc::{AllocError, Global};
use text_fields::{
    Record, begin_reading, field_of, next_record, number, read_bytes, read_hexadecimal, read_number,
};

/// The greatest arrival, in bit times.
const MAX_ARRIVAL: u64 = ARRIVALS_END - 1;

/// The most rows.
const MAX_REQUESTS: usize = 50_000;

/// The most hexadecimal digits of an identifier.
const MAX_DIGITS: usize = 3;

/// How many numbers an identifier's type has.
const NUMBERS: usize = 65_536;

/// The number that one to three hexadecimal digits write.
fn read_short(digits: &[u8]) -> Option<u16>
    ensures value { result ≡ hexadecimal_of digits.now }
{
    if digits.is_empty() || digits.len() > MAX_DIGITS {
        return None;
    }
    let number = read_hexadecimal(digits)?;
    Some(number as u16)
}

/// The decimal number that the field writes, up to 65,535.
fn read_decimal(field: &[u8]) -> Option<u16>
    ensures value { result ≡ option_and_then (within 0 65535) (number_of field.now) }
{
    let number = read_number(field)?;
    if number <= 65_535 {
        Some(number as u16)
    } else {
        None
    }
}

/// The identifier that the field writes.
fn read_identifier(field: &[u8]) -> Option<u16>
    ensures value { result ≡ identifier_of field.now }
{
    if let [b'0', b'x', digits @ ..] = field {
        read_short(digits)
    } else {
        read_decimal(field)
    }
}

/// The identifier in the second field of a row.
fn identifier(row: &Record<'_>) -> Option<u16>
    ensures value { result ≡ identifier_in (map trimmed (fields_in row.now)) }
{
    let field = field_of(row, 1)?;
    read_identifier(field)
}

/// The frame of an identifier and of the bytes in the third field of a row.
fn read_frame(row: &Record<'_>, id: u16) -> Option<Frame>
    requires identifier { id ≤ greatest_identifier }
    ensures value { result ≡ option_map (frame_with id) (bytes_in (map trimmed (fields_in row.now))) }
    ensures legal { IfSome result IsFrame }
{
    let field = field_of(row, 2)?;
    let bytes = read_bytes(field)?;
    match Frame::new(id, bytes.as_slice()) {
        Ok(frame) => Some(frame),
        Err(_) => unreachable!(),
    }
}

/// A table of so many places in which nothing stands.
fn nothing_owned(alloc: Global, count: usize) -> Result<Vec<bool>, AllocError>
    ensures whole { IfOk result (λ owned. length owned.items ≡ count) }
    ensures none { IfOk result (λ owned. (place : ℕ) → get_or owned.items place false ≡ false) }
{
    vec![in alloc; false; count]
}

/// Which numbers are identifiers of owners.
fn owned_numbers(alloc: Global, owners: &[Owner]) -> Result<Vec<bool>, RequestFault>
    ensures ok { IfOk result (λ owned. IsOwnedTable owners.now owned.items) }
    ensures fault { IfErr result (λ fault. fault ≡ Memory) }
{
    let mut owned = nothing_owned(alloc, NUMBERS)?;
    for owner in owners {
        owned[usize::from(owner.id)] = true;
    }
    Ok(owned)
}

/// Whether the number is an asynchronous identifier that has an owner.
fn is_owned(owned: &[bool], id: u16) -> bool
    requires whole { length owned.now ≡ 65536 }
    ensures value { (owners : List Owner) → IsOwnedTable owners owned.now → result ≡ is_owned owners id }
    ensures legal { result ≡ true → id ≤ greatest_identifier }
{
    LEAST_ASYNCHRONOUS <= id && id <= GREATEST_IDENTIFIER && owned[usize::from(id)]
}

/// The arrival in the last row, and 0 where there is none.
fn last_arrival(above: &[Request]) -> u64
    ensures value { result ≡ arrival_above above.now }
{
    match above.last() {
        Some(request) => request.at,
        None => 0,
    }
}

/// The request of a row below these requests.
fn read_row(row: &Record<'_>, owned: &[bool], above: &[Request]) -> Result<Request, RequestWhy>
    requires whole { length owned.now ≡ 65536 }
    ensures value { (owners : List Owner) → IsOwnedTable owners owned.now
        → result ≡ meaning owners above.now (map trimmed (fields_in row.now)) }
    ensures legal { (owners : List Owner) → IsOwnedTable owners owned.now → IfOk result (IsRequest owners) }
    ensures in_order { IfOk result (λ request. arrival_above above.now ≤ request.at) }
    ensures few { IfOk result (λ request. length above.now < 50000) }
{
    if row.len() != 3 {
        return Err(RequestWhy::Fields);
    }
    let Some(at) = number(row, 0, 0..=MAX_ARRIVAL) else {
        return Err(RequestWhy::Number);
    };
    let Some(id) = identifier(row) else {
        return Err(RequestWhy::Number);
    };
    if !is_owned(owned, id) {
        return Err(RequestWhy::Identifier);
    }
    let Some(frame) = read_frame(row, id) else {
        return Err(RequestWhy::Data);
    };
    if at < last_arrival(above) {
        return Err(RequestWhy::Order);
    }
    if above.len() >= MAX_REQUESTS {
        return Err(RequestWhy::Many);
    }
    Ok(Request { at, frame })
}

/// Puts a request behind the others, without a call where there is room.
#[inline(always)]
fn put(requests: &mut Vec<Request>, request: Request) -> Result<(), AllocError>
    ensures put { IfOk result (λ _. requests.new.items ≡ requests.old.items ++ request ∷ []) }
{
    if requests.len() < requests.capacity() {
        requests.push_reserved(request);
        return Ok(());
    }
    requests.push(request)?;
    Ok(())
}

/// Reads a requests file, where these are the owners of identifiers.
///
/// # Errors
///
/// `Row` with the first row that is none and why, and `Memory` where memory ran out.
pub fn read_requests(
    alloc: Global,
    bytes: &[u8],
    owners: &[Owner],
) -> Result<Vec<Request>, RequestFault>
    ensures ok { IfOk result (λ requests. AreRequests owners.now (rows_of bytes.now) requests.items) }
    ensures fault { IfErr result (IsRequestFault owners.now (rows_of bytes.now)) }
    ensures legal { IfOk result (λ requests. AreLegal owners.now requests.items) }
    ensures value { MatchResult result (λ requests. requests_of owners.now bytes.now ≡ Ok requests.items)
        (λ fault. (fault ≡ Memory) ⊎ (requests_of owners.now bytes.now ≡ Err fault)) }
{
    let owned = owned_numbers(alloc, owners)?;
    let mut reader = begin_reading(alloc, bytes);
    let mut row = Record::new(alloc);
    let mut requests = Vec::new(alloc);
    while next_record(&mut reader, &mut row)? {
        match read_row(&row, &owned, &requests) {
            Ok(request) => put(&mut requests, request)?,
            Err(why) => {
                let number = requests.len() as u64 + 1;
                return Err(RequestFault::Row { number, why });
            }
        }
    }
    // The room for more requests is given back: the list stays for the whole run.
    requests.shrink_to_fit();
    Ok(requests)
}
