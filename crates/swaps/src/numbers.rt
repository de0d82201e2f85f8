// Numbers in decimal.

// The number that these digits write, if there are any and it is one of the type, which has fewer than 64 bits. They are added up here and not by the
// library's `parse`, which reads text: a look at all bytes first and a test at every step took half as long again.
pub(crate) fn read_number<N: TryFrom<u64>>(digits: &[u8]) -> Option<N>
where
    N::Error: Drop,
{
    if digits.is_empty() {
        return None;
    }
    let mut value = 0u64;
    for byte in digits {
        let digit = byte.wrapping_sub(b'0');
        if digit > 9 {
            return None;
        }
        value = value.saturating_mul(10).saturating_add(u64::from(digit));
    }
    N::try_from(value).ok()
}

// A chain number: digits, with a minus sign before them or not.
pub(crate) fn read_chain_number(text: &[u8]) -> Option<i16> {
    match text.strip_prefix(b"-") {
        Some(digits) => {
            let number: u16 = read_number(digits)?;
            i16::try_from(-i32::from(number)).ok()
        }
        None => read_number(text),
    }
}
