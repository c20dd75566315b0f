//! The arguments that ask for help.
ghost use Rattle.std.specs.Prelude.{◌≡◌, map};
ghost use Rattle.std.specs.String.{string_bytes};
ghost use Rattle.tmpl_tool.specs.Help.{asks_help, helps_in};

/// Whether some word after the first one, and before any `--`, is `-h` or `--help`.
pub(crate) fn asks_help(words: &[String]) -> bool
    ensures { result ≡ asks_help (map (λ word. string_bytes word) words.now) }
{
    match words.split_first() {
        None => false,
        Some((_, rest)) => helps_in(rest),
    }
}

/// Whether some word before any `--` is `-h` or `--help`.
fn helps_in(words: &[String]) -> bool
    ensures { result ≡ helps_in (map (λ word. string_bytes word) words.now) }
{
    for word in words {
        match word.as_str() {
            "--" => return false,
            "-h" | "--help" => return true,
            _ => {}
        }
    }
    false
}
