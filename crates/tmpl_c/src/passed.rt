//! What the caller passes.

/// A template file in memory.
#[repr(C)]
#[derive(Clone, Copy)]
pub struct File<'a> {
    /// Its path, as a text: the template of the file itself is named by the last part of it.
    pub name: &'a [u8],
    pub bytes: &'a [u8],
}

/// The name of a template.
#[repr(C)]
#[derive(Clone, Copy)]
pub struct Name<'a> {
    pub bytes: &'a [u8],
}

/// What is asked of a template: whether it may fail over data of a JSON Schema.
#[repr(C)]
#[derive(Clone, Copy)]
pub struct Question<'a> {
    /// The schema, and the name by which findings call it.
    pub schema: File<'a>,
    /// The template that is rendered; empty for the own one of the first file.
    pub name: &'a [u8],
    /// Templates that may be missing, since their call is meant to fail.
    pub stops: &'a [Name<'a>],
    /// The mode for missing keys: 1 default, 2 invalid, 3 zero, 4 error; any other number is each of them.
    pub mode: u8,
    /// The form of the findings: 1 JSON, 2 SARIF; any other number is lines.
    pub format: u8,
}
