//! The words of a call.

ghost use Rattle.std.specs.Prelude.{◌≡◌, ◌<◌, ◌==◌, [], ◌∷◌, length, map, string_bytes, IfOk, IfSome};
ghost use Rattle.std.specs.List.{slice_split};
ghost use Rattle.std.specs.Option.{option_map_or};
ghost use Rattle.fttcan_run_c.specs.Called.{words_of};

use std::alloc::{AllocError, Global};
use std::str;

/// The first word of a text, and what follows its byte 0, where there is one.
fn cut(text: &str) -> (&str, Option<&str>)
    ensures words { slice_split (λ byte. byte == 0) text.now
        ≡ result.0.now ∷ option_map_or (λ rest. slice_split (λ byte. byte == 0) rest.now) result.1 [] }
    ensures shorter { IfSome result.1 (λ rest. length rest.now < length text.now) }
{
    match text.split_once('\0') {
        Some((word, rest)) => (word, Some(rest)),
        None => (text, None),
    }
}

/// The words of a text.
fn words_in(alloc: Global, text: &str) -> Result<Vec<String>, AllocError>
    ensures words { IfOk result
        (λ words. map string_bytes words.items ≡ slice_split (λ byte. byte == 0) text.now) }
{
    let mut words = Vec::new(alloc);
    let mut left = Some(text);
    while let Some(text) = left {
        let (word, rest) = cut(text);
        words.push(String::from_str(alloc, word)?)?;
        left = rest;
    }
    Ok(words)
}

/// The words between bytes 0. Bytes that are not UTF-8 count as no words, which is no command.
pub fn words_of(alloc: Global, bytes: &[u8]) -> Result<Vec<String>, AllocError>
    ensures words { IfOk result (λ words. map string_bytes words.items ≡ words_of bytes.now) }
{
    match str::from_utf8(bytes) {
        Ok(text) => words_in(alloc, text),
        Err(_) => Ok(Vec::new(alloc)),
    }
}
