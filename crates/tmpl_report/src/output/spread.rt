//! The same templates with each node on a line of its own, so that the line of a fault says of which node it is. Before each
//! node stands a comment with a newline in it, which writes nothing and trims what the node's own marker trims.

use crate::Result;
use std::alloc::{AllocError, Global};
use tmpl_problems::Source;
use tmpl_syntax::{Node, NodeKind, ParseKind, Set, parse_file};

/// The comment before a node, and before one that trims the text before it.
const COMMENT: &[u8] = b"{{/*\n*/}}";

const TRIMMING: &[u8] = b"{{- /*\n*/ -}}";

/// For each node its line here, and how many bytes of the file as it was given stand before it.
type Lines = Vec<(u64, usize)>;

/// A file whose nodes are on lines of their own.
#[derive(Drop)]
struct Spread<'a> {
    name: &'a str,
    lines: Lines,
}

/// Templates whose nodes are on lines of their own.
#[derive(Drop)]
pub(crate) struct SpreadSet<'a> {
    pub(crate) set: Set,
    files: Vec<Spread<'a>>,
}

/// A node of a file as it was given.
#[derive(Drop, PartialEq)]
pub(crate) struct Origin<'a> {
    pub(crate) file: &'a str,
    /// How many bytes of the file stand before it.
    pub(crate) start: usize,
}

impl<'a> SpreadSet<'a> {
    /// The templates of files that make a set; none where a file is too long with its comments.
    pub(crate) fn of(alloc: Global, set: &Set, files: &[Source<'a>]) -> Result<Option<Self>> {
        let mut all = SpreadSet {
            set: Set::new(alloc),
            files: Vec::new(alloc),
        };
        for file in files {
            let starts = starts_in(alloc, set, file.name)?;
            let (bytes, lines) = spread_file(alloc, file.bytes.as_slice(), starts.as_slice())?;
            if !add_file(alloc, &mut all.set, file.name, bytes.as_slice())? {
                return Ok(None);
            }
            all.files.push(Spread {
                name: file.name,
                lines,
            })?;
        }
        Ok(Some(all))
    }

    /// The node on a line of a file.
    pub(crate) fn origin(&self, file: &[u8], line: u64) -> Option<Origin<'a>> {
        let mut files = self.files.as_slice().iter();
        let spread = files.find(|spread| spread.name.as_bytes() == file)?;
        let mut lines = spread.lines.as_slice().iter();
        let (_, start) = lines.find(|found| found.0 == line)?;
        Some(Origin {
            file: spread.name,
            start: *start,
        })
    }
}

/// Adds the templates of a file to a set. Whether the file is accepted.
pub(crate) fn add_file(alloc: Global, set: &mut Set, file: &str, bytes: &[u8]) -> Result<bool> {
    match parse_file(alloc, set, file, bytes) {
        Ok(()) => Ok(true),
        Err(fault) if matches!(fault.kind, ParseKind::OutOfMemory) => Err(AllocError),
        Err(_) => Ok(false),
    }
}

/// Where the nodes of a file begin, each place once, in order.
fn starts_in(alloc: Global, set: &Set, file: &str) -> Result<Vec<usize>> {
    let mut starts = Vec::new(alloc);
    for name in set.names() {
        if let Some(tree) = set.get(name) {
            if tree.file.as_slice() == file.as_bytes() {
                add_starts(tree.nodes.as_slice(), &mut starts)?;
            }
        }
    }
    starts.sort_unstable();
    starts.dedup();
    Ok(starts)
}

/// Adds where nodes begin.
#[cycle(starts)]
fn add_starts(nodes: &[Node], starts: &mut Vec<usize>) -> Result<()> {
    for node in nodes {
        starts.push(node.start)?;
        if let NodeKind::Control(control) = &node.what {
            add_starts(control.body.as_slice(), starts)?;
            add_starts(control.other.as_slice(), starts)?;
        }
    }
    Ok(())
}

/// The bytes of a file with a comment at each of these places, and the lines of what begins there.
fn spread_file(alloc: Global, bytes: &[u8], starts: &[usize]) -> Result<(Vec<u8>, Lines)> {
    let mut made = Vec::new(alloc);
    let mut lines = Vec::new(alloc);
    let mut from: usize = 0;
    let mut line: u64 = 1;
    for start in starts {
        let before = bytes.get(from..*start).unwrap_or(&[]);
        let newlines = before.iter().filter(|byte| **byte == b'\n').count() as u64;
        line = line.saturating_add(newlines).saturating_add(1);
        made.extend_from_slice(before)?;
        made.extend_from_slice(comment_before(bytes.get(*start..).unwrap_or(&[])))?;
        lines.push((line, *start))?;
        from = *start;
    }
    made.extend_from_slice(bytes.get(from..).unwrap_or(&[]))?;
    Ok((made, lines))
}

/// The comment before what begins so.
fn comment_before(rest: &[u8]) -> &'static [u8] {
    match rest {
        [b'{', b'{', b'-', b' ' | b'\t' | b'\r' | b'\n', ..] => TRIMMING,
        _ => COMMENT,
    }
}
