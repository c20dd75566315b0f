//! Whether a text is of a format.
ghost use Rattle.std.specs.Prelude.{◌≡◌, ◌≤◌, length, IfOk, IfNone, IfSome, option_map};
ghost use Rattle.tmpl_formats.specs.Format.{IsOf};
ghost use Rattle.tmpl_formats.specs.computed.Format as computed;

use crate::csv::csv_mistake;
use crate::env::env_mistake;
use crate::format::Format;
use crate::json_lines::json_lines_mistake;
use crate::json_text::json_mistake;
use crate::lines::lines_mistake;
use crate::mistake::{Mistake, earlier_of, not_utf8};
use crate::nginx::nginx_mistake;
use crate::yaml::yaml_mistake;
use std::alloc::{AllocError, Global};

/// Where the machine of a format refuses a text.
fn machine_mistake(
    alloc: Global,
    format: &Format,
    text: &[u8],
) -> Result<Option<Mistake>, AllocError>
    ensures { IfOk result (λ m. option_map (λ m. m.offset) m ≡ computed.machine_mistake format.now text.now) }
{
    match format {
        Format::Json => json_mistake(alloc, text),
        Format::JsonLines => json_lines_mistake(alloc, text),
        Format::Env => Ok(env_mistake(text)),
        Format::Csv(columns) => Ok(csv_mistake(*columns, text)),
        Format::Nginx => Ok(nginx_mistake(text)),
        Format::Yaml => yaml_mistake(alloc, text),
        Format::Lines(pattern) => lines_mistake(alloc, pattern, text),
    }
}

/// The first place at which a text ceases to be of a format, or none where it is of the format.
pub fn first_mistake(
    alloc: Global,
    format: &Format,
    text: &[u8],
) -> Result<Option<Mistake>, AllocError>
    ensures value { IfOk result (λ m. option_map (λ m. m.offset) m ≡ computed.mistake_of format.now text.now) }
    ensures of_format { IfOk result (λ m. IfNone m (IsOf format.now text.now)) }
    ensures within { IfOk result (λ m. IfSome m (λ m. m.offset ≤ length text.now)) }
{
    let refused = machine_mistake(alloc, format, text)?;
    Ok(earlier_of(not_utf8(text), refused))
}
