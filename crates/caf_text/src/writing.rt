ghost use Rattle.std.specs.Prelude.{◌≡◌, ◌<◌, ◌++◌, flat_map, slice_index, string_bytes, OnOk, OnErr, IfOk};
ghost use Rattle.hex.specs.Hex.{lower_digits};
ghost use Rattle.caf_text.specs.TextForm.{scalar_text, escape};
ghost use Rattle.caf_words.specs.Datum.{a_flag, a_text, some_bytes, an_unsigned, a_signed, a_place};

use crate::quoted::is_escaped;
use caf_types::Memory;
use itoa::Buffer;
use std::alloc::Global;

/// Adds a piece as it stands.
pub fn add_plain(text: &mut String, piece: &str) -> Result<(), Memory>
    ensures added { OnOk result (string_bytes text.new ≡ string_bytes text.old ++ piece.now) }
    ensures kept { OnErr result (string_bytes text.new ≡ string_bytes text.old) }
{
    text.push_str(piece)?;
    Ok(())
}

/// Adds the text form of a flag.
pub fn add_flag(text: &mut String, flag: bool) -> Result<(), Memory>
    ensures added { OnOk result (string_bytes text.new ≡ string_bytes text.old ++ scalar_text (a_flag flag)) }
    ensures kept { OnErr result (string_bytes text.new ≡ string_bytes text.old) }
{
    if flag {
        add_plain(text, "true")
    } else {
        add_plain(text, "false")
    }
}

/// Adds the text form of a number.
pub fn add_unsigned(text: &mut String, number: u64) -> Result<(), Memory>
    ensures added { OnOk result (string_bytes text.new ≡ string_bytes text.old ++ scalar_text (an_unsigned number)) }
    ensures kept { OnErr result (string_bytes text.new ≡ string_bytes text.old) }
{
    let mut buffer = Buffer::new();
    add_plain(text, buffer.format(number))
}

/// Adds the text form of a number with its sign.
pub fn add_signed(text: &mut String, number: i64) -> Result<(), Memory>
    ensures added { OnOk result (string_bytes text.new ≡ string_bytes text.old ++ scalar_text (a_signed number)) }
    ensures kept { OnErr result (string_bytes text.new ≡ string_bytes text.old) }
{
    let mut buffer = Buffer::new();
    add_plain(text, buffer.format(number))
}

/// Adds the text form of a place.
pub fn add_place(text: &mut String, place: u32) -> Result<(), Memory>
    ensures added { OnOk result (string_bytes text.new ≡ string_bytes text.old ++ scalar_text (a_place place)) }
    ensures kept { OnErr result (string_bytes text.new ≡ string_bytes text.old) }
{
    let piece = format!(in *text.allocator(); "@{place}")?;
    add_plain(text, piece.as_str())
}

fn digit(value: u8) -> u8
    requires { value < 16 }
    ensures { result ≡ slice_index lower_digits value }
{
    b"0123456789abcdef"[value as usize]
}

fn add_bytes_to(escaped: &mut Vec<u8>, bytes: &[u8]) -> Result<(), Memory>
    ensures { OnOk result (escaped.new.items ≡ escaped.old.items ++ bytes.now) }
{
    escaped.extend_from_slice(bytes)?;
    Ok(())
}

fn add_escaped(escaped: &mut Vec<u8>, byte: u8) -> Result<(), Memory>
    ensures { OnOk result (escaped.new.items ≡ escaped.old.items ++ escape byte) }
{
    if byte == b'"' || byte == b'\\' {
        return add_bytes_to(escaped, &[b'\\', byte]);
    }
    if byte == b'\n' {
        return add_bytes_to(escaped, b"\\n");
    }
    if is_escaped(byte) {
        return add_bytes_to(escaped, &[b'\\', b'x', digit(byte / 16), digit(byte % 16)]);
    }
    add_bytes_to(escaped, &[byte])
}

fn add_each_escaped(escaped: &mut Vec<u8>, bytes: &[u8]) -> Result<(), Memory>
    ensures { OnOk result (escaped.new.items ≡ escaped.old.items ++ flat_map escape bytes.now) }
{
    for byte in bytes {
        add_escaped(escaped, *byte)?;
    }
    Ok(())
}

/// The text with its escapes.
fn with_escapes(alloc: Global, content: &str) -> Result<String, Memory>
    ensures { IfOk result (λ escaped. string_bytes escaped ≡ flat_map escape content.now) }
{
    let mut escaped = Vec::new(alloc);
    add_each_escaped(&mut escaped, content.as_bytes())?;
    match String::from_utf8(escaped) {
        Ok(text) => Ok(text),
        Err(_) => unreachable!(),
    }
}

/// Adds the text form of a text, in quotes.
pub fn add_quoted(alloc: Global, text: &mut String, content: &str) -> Result<(), Memory>
    ensures added { OnOk result (string_bytes text.new ≡ string_bytes text.old ++ scalar_text (a_text content.now)) }
    ensures kept { OnErr result (string_bytes text.new ≡ string_bytes text.old) }
{
    let escaped = with_escapes(alloc, content)?;
    let piece = format!(in alloc; "\"{escaped}\"")?;
    add_plain(text, piece.as_str())
}

/// Adds the text form of bytes.
pub fn add_bytes(alloc: Global, text: &mut String, content: &[u8]) -> Result<(), Memory>
    ensures added { OnOk result (string_bytes text.new ≡ string_bytes text.old ++ scalar_text (some_bytes content.now)) }
    ensures kept { OnErr result (string_bytes text.new ≡ string_bytes text.old) }
{
    let digits = hex::encode(alloc, content)?;
    let piece = format!(in alloc; "x\"{digits}\"")?;
    add_plain(text, piece.as_str())
}
