use stair_script::{Line, print_line, read_line};
use std::test::Fail;

// Each row is a line, and the text as which it is printed.
const PRINTED: [(Line, &str); 6] = [
    (Line::Blank, ""),
    (Line::Read(5), "read 5"),
    (Line::Read(0), "read 0"),
    (Line::Scrub(10), "scrub 10"),
    (Line::Replace(3), "replace 3"),
    (Line::Rebuild(u64::MAX), "rebuild 18446744073709551615"),
];

#[test]
fn prints_lines_that_are_read_again(rt: HostRuntime) -> Result<(), Fail> {
    for (line, text) in PRINTED {
        let printed = print_line(rt.alloc(), &line)?;
        assert_eq!(rt; printed.as_slice(), text.as_bytes());
        assert_eq!(rt; read_line(printed.as_slice()), Some(line));
    }
    Ok(())
}

// Byte k of the sector is k mod 256, so each byte comes twice.
#[test]
fn prints_each_byte_in_lower_case(rt: HostRuntime) -> Result<(), Fail> {
    let digits = b"0123456789abcdef";
    let mut contents = [0; 512];
    let mut text = b"write 7 ".to_vec(rt.alloc())?;
    let mut byte = 0u8;
    for place in contents.iter_mut() {
        *place = byte;
        text.push(digits[usize::from(byte / 16)])?;
        text.push(digits[usize::from(byte % 16)])?;
        byte = byte.wrapping_add(1);
    }
    let line = Line::Write(7, contents);
    let printed = print_line(rt.alloc(), &line)?;
    assert_eq!(rt; printed.as_slice(), text.as_slice());
    assert_eq!(rt; read_line(printed.as_slice()), Some(line));
    Ok(())
}
