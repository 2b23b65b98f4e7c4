// Bytes written to a text.
use crate::hex_text;
use std::alloc::AllocError;

#[test]
fn two_capital_digits_for_each_byte(rt: HostRuntime) -> Result<(), AllocError> {
    assert_eq!(rt; hex_text(rt.alloc(), &[0x0A, 0xF0])?.as_str(), "0AF0");
    Ok(())
}
