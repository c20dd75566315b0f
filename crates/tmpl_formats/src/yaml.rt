//! YAML: a machine that reads it byte by byte.
ghost use Rattle.std.specs.Prelude.{◌≡◌, ◌++◌, [], ◌∷◌, IfOk, OnOk, Some, None, option_map, if◌then◌else◌};
ghost use Rattle.tmpl_formats.specs.YamlScalar as spec;
ghost use Rattle.tmpl_formats.specs.computed.Yaml as computed;
ghost use Rattle.tmpl_formats.specs.computed.YamlView.{config_of};

use crate::mistake::Mistake;
use crate::yaml_line::{Control, Move, Place, Spot, Write, is_margin, move_of};
use crate::yaml_nest::{Nest, happen, is_in_brackets};
use std::alloc::{AllocError, Global};

/// The machine: the two bytes before, what was read last, the plain scalar that is read, and what is open.
#[derive(Drop)]
struct Yaml {
    before: u8,
    last: u8,
    control: Control,
    scalar: Vec<u8>,
    nest: Nest,
}

/// A control character, other than a tab and a newline.
fn is_control(byte: u8) -> bool
    ensures { result ≡ spec.is_control byte }
{
    byte < 32 && byte != b'\t' && byte != b'\n' || byte == 127
}

/// The bytes of U+2028 and U+2029.
fn is_separator(before: u8, last: u8, byte: u8) -> bool
    ensures { result ≡ spec.is_separator before last byte }
{
    before == 226 && last == 128 && (byte == 168 || byte == 169)
}

/// The bytes of U+FEFF, U+FFFE and U+FFFF.
fn is_mark(before: u8, last: u8, byte: u8) -> bool
    ensures { result ≡ spec.is_mark before last byte }
{
    before == 239 && (last == 187 && byte == 191 || last == 191 && byte >= 190)
}

/// Whether a byte after two others completes no character of YAML.
fn is_unprintable(before: u8, last: u8, byte: u8) -> bool
    ensures { result ≡ spec.is_unprintable before last byte }
{
    is_control(byte)
        || last == 194 && byte < 160
        || is_separator(before, last, byte)
        || is_mark(before, last, byte)
}

/// Begins a plain scalar with dashes and a byte.
fn begin(scalar: &mut Vec<u8>, dashes: &[u8], byte: u8) -> Result<(), AllocError>
    ensures { OnOk result (scalar.new.items ≡ dashes.now ++ byte ∷ []) }
{
    scalar.clear();
    scalar.extend_from_slice(dashes)?;
    Ok(scalar.push(byte)?)
}

/// Writes what becomes of a plain scalar.
fn write(scalar: &mut Vec<u8>, write: Write) -> Result<(), AllocError>
    ensures { OnOk result (scalar.new.items ≡ computed.written write scalar.old.items) }
{
    match write {
        Write::Keep => Ok(()),
        Write::Start(byte) => begin(scalar, b"", byte),
        Write::Add(byte) => Ok(scalar.push(byte)?),
        Write::Dash(byte) => begin(scalar, b"-", byte),
        Write::Dashes(byte) => begin(scalar, b"--", byte),
    }
}

/// Does what a byte does; whether a text may go on so.
fn go(yaml: &mut Yaml, step: Move) -> Result<bool, AllocError>
    ensures { IfOk result (λ went. computed.went step (config_of yaml.old) ≡ (if went then Some (config_of yaml.new) else None)) }
{
    write(&mut yaml.scalar, step.write)?;
    yaml.control = step.control;
    happen(&mut yaml.nest, step.event)
}

/// Reads a byte that completes no character that is unprintable; whether a text may go on so.
fn advance_printable(yaml: &mut Yaml, byte: u8) -> Result<bool, AllocError>
    ensures { IfOk result (λ went. computed.moved (config_of yaml.old) byte ≡ (if went then Some (config_of yaml.new) else None)) }
{
    let in_brackets = is_in_brackets(&yaml.nest);
    match move_of(yaml.control, &yaml.scalar, in_brackets, byte) {
        Some(step) => go(yaml, step),
        None => Ok(false),
    }
}

/// Keeps a byte, for the characters that it is part of.
fn keep(yaml: &mut Yaml, byte: u8)
    ensures { config_of yaml.new ≡ computed.kept byte (config_of yaml.old) }
{
    yaml.before = yaml.last;
    yaml.last = byte;
}

/// Reads a byte; whether a text may go on so.
fn advance(yaml: &mut Yaml, byte: u8) -> Result<bool, AllocError>
    ensures { IfOk result (λ went. computed.step (config_of yaml.old) byte ≡ (if went then Some (config_of yaml.new) else None)) }
{
    if is_unprintable(yaml.before, yaml.last, byte) {
        return Ok(false);
    }
    keep(yaml, byte);
    advance_printable(yaml, byte)
}

/// Whether a line begins, outside brackets.
fn begins_line(control: Control) -> bool
    ensures { result ≡ computed.begins_line control }
{
    match control {
        Control::At(spot) => is_margin(spot),
        Control::Block(_, column) => column == 0,
        Control::Indent(_, _, column) => column == 0,
        _ => false,
    }
}

/// Whether a line begins.
fn is_done(yaml: &Yaml) -> bool
    ensures { result ≡ computed.is_done (config_of yaml.now) }
{
    begins_line(yaml.control) && !is_in_brackets(&yaml.nest)
}

/// Reads the end of the text, as that of a line; whether a text may end there.
fn finish(yaml: &mut Yaml) -> Result<bool, AllocError>
    ensures { IfOk result (λ done. done ≡ computed.ends (config_of yaml.old)) }
{
    Ok(advance(yaml, b'\n')? && is_done(yaml))
}

/// The machine at the start of a text.
fn new_yaml(alloc: Global) -> Yaml
    ensures { config_of result ≡ computed.start }
{
    Yaml {
        before: 0,
        last: 0,
        control: Control::At(Spot {
            place: Place::Line,
            column: 0,
        }),
        scalar: Vec::new(alloc),
        nest: Nest::new(alloc),
    }
}

/// What may stand at a place.
fn wanted_at(place: Place) -> &'static str {
    match place {
        Place::Line => "an entry at a column that is open, or a value",
        Place::Item(_) => "an item",
        Place::Value(_) => "a value",
        Place::End => "the end of the line",
        Place::Flow => "an entry, a comma or the end of brackets",
    }
}

/// What may stand there, by a control.
fn wanted(control: Control) -> &'static str {
    match control {
        Control::At(spot) => wanted_at(spot.place),
        Control::Dash(_) | Control::Dashes => "a space, or more of a plain scalar",
        Control::Closed => "a space or the end of the line",
        Control::Comment => "a printable character",
        Control::Plain(_) | Control::PlainColon(_, _) | Control::PlainSpace(_, _) =>
            "a scalar or a key that YAML 1.1 and YAML 1.2 take for the same",
        Control::Double(_) => "a printable character or a closing \"",
        Control::Escape(_) => "an escape of YAML",
        Control::Code(_, _, _) => "a hexadecimal digit of a character",
        Control::Single(_) => "a printable character or a closing '",
        Control::Quote(_) | Control::Quoted(_) => "a colon after a key, or the end of a value",
        Control::QuotedColon(_) => "a space after the colon of a key",
        Control::Header(_) | Control::HeaderEnd(_) => "the end of the line",
        Control::Block(_, _) | Control::Indent(_, _, _) =>
            "a line of the block scalar at its column, or an entry at a column that is open",
        Control::Text(_, _) => "a printable character",
    }
}

/// Where a text ceases to be YAML.
pub(crate) fn yaml_mistake(alloc: Global, text: &[u8]) -> Result<Option<Mistake>, AllocError>
    ensures { IfOk result (λ m. option_map (λ m. m.offset) m ≡ computed.yaml_mistake text.now) }
{
    let mut yaml = new_yaml(alloc);
    for (offset, byte) in text.iter().enumerate() {
        let control = yaml.control;
        if !advance(&mut yaml, *byte)? {
            return Ok(Some(Mistake {
                offset,
                wanted: wanted(control),
            }));
        }
    }
    let control = yaml.control;
    if finish(&mut yaml)? {
        Ok(None)
    } else {
        Ok(Some(Mistake {
            offset: text.len(),
            wanted: wanted(control),
        }))
    }
}
