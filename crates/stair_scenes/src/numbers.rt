ghost use Rattle.std.specs.Prelude.{◌<◌, IfSome};

/// Reads a number, and the others that are added to it, taken from it, and so on, from left to right.
pub(crate) fn read_number(text: &str) -> Option<u64> {
    let mut total = 0;
    let mut operator = b'+';
    let mut operand = None;
    for byte in text.bytes() {
        if byte.is_ascii_digit() {
            operand = Some(with_digit(operand, byte)?);
        } else {
            total = worked_out(total, operator, operand?)?;
            operator = byte;
            operand = None;
        }
    }
    worked_out(total, operator, operand?)
}

fn with_digit(front: Option<u64>, digit: u8) -> Option<u64> {
    let tens = front.unwrap_or(0).checked_mul(10)?;
    tens.checked_add(u64::from(digit.saturating_sub(b'0')))
}

fn worked_out(total: u64, operator: u8, operand: u64) -> Option<u64> {
    match operator {
        b'+' => total.checked_add(operand),
        b'-' => total.checked_sub(operand),
        b'*' => total.checked_mul(operand),
        b'/' => total.checked_div(operand),
        b'%' => total.checked_rem(operand),
        _ => None,
    }
}

/// Reads a number of 32 bits.
pub(crate) fn read_u32(text: &str) -> Option<u32> {
    u32::try_from(read_number(text)?).ok()
}

/// Reads the number of a slot.
pub(crate) fn read_slot(text: &str) -> Option<u8>
    ensures { IfSome result (λ slot. slot < 32) }
{
    let slot = u8::try_from(read_number(text)?).ok()?;
    if slot < 32 { Some(slot) } else { None }
}
