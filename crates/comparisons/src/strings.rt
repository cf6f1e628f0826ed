//! Names as fields of tables.

ghost use Rattle.std.specs.Prelude.{◌≡◌, ◌<◌, ◌++◌, OnOk};
ghost use Rattle.std.specs.List.{flat_map, list_any};
ghost use Rattle.comparisons.specs.Tables.{character, field, hex_digit as hex_digit_of, needs_quotes as is_special, quoted, string};

use plain_pages::Page;
use std::alloc::AllocError;

/// Whether a byte can't stand in a field of comma-separated values without quotation marks (RFC 4180).
fn needs_quotes(byte: u8) -> bool
    ensures { result ≡ is_special byte }
{
    byte == b',' || byte == b'"' || byte == b'\n' || byte == b'\r'
}

/// Whether some byte of a name can't.
fn any_needs_quotes(name: &[u8]) -> bool
    ensures { result ≡ list_any is_special name.now }
{
    name.iter().any(|byte| needs_quotes(*byte))
}

/// Writes a byte of a field between quotation marks.
fn write_quoted(page: &mut Page, byte: u8) -> Result<(), AllocError>
    ensures { OnOk result (page.new ≡ page.old ++ quoted byte) }
{
    if byte == b'"' {
        page.write_bytes(b"\"\"")
    } else {
        page.write_bytes(&[byte])
    }
}

/// Writes bytes of a field between quotation marks.
fn write_all_quoted(page: &mut Page, name: &[u8]) -> Result<(), AllocError>
    ensures { OnOk result (page.new ≡ page.old ++ flat_map quoted name.now) }
{
    for byte in name {
        write_quoted(page, *byte)?;
    }
    Ok(())
}

/// Writes a name as a field of comma-separated values.
pub(crate) fn write_field(page: &mut Page, name: &str) -> Result<(), AllocError>
    ensures { OnOk result (page.new ≡ page.old ++ field name.now) }
{
    if !any_needs_quotes(name.as_bytes()) {
        return page.text(name);
    }
    page.text("\"")?;
    write_all_quoted(page, name.as_bytes())?;
    page.text("\"")
}

/// A digit to the base 16.
fn hex_digit(number: u8) -> u8
    requires { number < 16 }
    ensures { result ≡ hex_digit_of number }
{
    if number < 10 {
        number + b'0'
    } else {
        number + 87
    }
}

/// Writes a byte of a string of JSON (RFC 8259).
fn write_character(page: &mut Page, byte: u8) -> Result<(), AllocError>
    ensures { OnOk result (page.new ≡ page.old ++ character byte) }
{
    if byte < b' ' {
        page.text("\\u00")?;
        return page.write_bytes(&[hex_digit(byte / 16), hex_digit(byte % 16)]);
    }
    if byte == b'"' || byte == b'\\' {
        page.write_bytes(&[b'\\', byte])
    } else {
        page.write_bytes(&[byte])
    }
}

/// Writes bytes of a string of JSON.
fn write_characters(page: &mut Page, name: &[u8]) -> Result<(), AllocError>
    ensures { OnOk result (page.new ≡ page.old ++ flat_map character name.now) }
{
    for byte in name {
        write_character(page, *byte)?;
    }
    Ok(())
}

/// Writes a name as a string of JSON.
pub(crate) fn write_string(page: &mut Page, name: &str) -> Result<(), AllocError>
    ensures { OnOk result (page.new ≡ page.old ++ string name.now) }
{
    page.text("\"")?;
    write_characters(page, name.as_bytes())?;
    page.text("\"")
}
