//! Lists with a number for each template.
ghost use Rattle.std.specs.Prelude.{◌≡◌, get_or};

use std::alloc::{AllocError, Global};

/// The same number, this many times.
pub(crate) fn repeat(alloc: Global, count: usize, number: usize) -> Result<Vec<usize>, AllocError> {
    let mut numbers = Vec::new(alloc);
    numbers.resize(count, number)?;
    Ok(numbers)
}

/// The number of a template, and 0 where it has none.
pub(crate) fn at(numbers: &[usize], template: usize) -> usize
    ensures { result ≡ get_or numbers.now template 0 }
{
    numbers.get(template).copied().unwrap_or(0)
}

/// Sets the number of a template that has one.
pub(crate) fn put(numbers: &mut [usize], template: usize, number: usize) {
    if let Some(old) = numbers.get_mut(template) {
        *old = number;
    }
}
