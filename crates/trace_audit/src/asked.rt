//! What the next bytes of a log may ask for.
//!
//! It is seen quickly, and nothing is promised of it: whether the rows of the event stand there is seen when their text is
//! compared with the bytes.

/// What the row with which a text begins may ask for.
#[derive(Clone, Copy, Debug)]
pub enum AskedEvent {
    /// The answer to the next change of operator `caller`, planned from the cycle `from`.
    Change { caller: u8, from: u64 },
    /// The next look of operator `caller`.
    Look { caller: u8 },
    /// The opening of the next cycle.
    Opening,
    /// The end of the log.
    End,
}

/// The number that the first bytes write as decimal digits, modulo 2^64.
fn decimal_ahead(bytes: &[u8]) -> u64 {
    let mut number = 0u64;
    for byte in bytes {
        let digit = byte.wrapping_sub(b'0');
        if digit > 9 {
            return number;
        }
        number = number.wrapping_mul(10).wrapping_add(u64::from(digit));
    }
    number
}

/// The change that bytes behind the word of its row may ask for. An operator has one digit.
fn change_ahead(bytes: &[u8]) -> Option<AskedEvent> {
    match bytes {
        [digit, b',', from @ ..] => Some(AskedEvent::Change {
            caller: digit.wrapping_sub(b'0'),
            from: decimal_ahead(from),
        }),
        _ => None,
    }
}

/// The look that bytes behind the word of its row may ask for.
fn look_ahead(bytes: &[u8]) -> Option<AskedEvent> {
    match bytes {
        [digit, b',', ..] => Some(AskedEvent::Look {
            caller: digit.wrapping_sub(b'0'),
        }),
        _ => None,
    }
}

/// What the first bytes may ask for.
pub fn asked_ahead(bytes: &[u8]) -> Option<AskedEvent> {
    match bytes {
        [b'o', b'p', b'e', b'n', b',', ..] => Some(AskedEvent::Opening),
        [b's', b'u', b'b', b'm', b'i', b't', b',', later @ ..] => change_ahead(later),
        [b'l', b'o', b'o', b'k', b',', later @ ..] => look_ahead(later),
        [b'e', b'n', b'd', b',', ..] => Some(AskedEvent::End),
        _ => None,
    }
}
