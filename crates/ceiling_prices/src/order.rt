//! Orders of the marks in which inner ones come before outer ones.

use crate::marks::{Marks, Standing, bit_of};
use std::alloc::{AllocError, Global};

/// A mark, with how it stands among others.
#[derive(Clone, Copy)]
struct Placed {
    mark: u8,
    standing: Standing,
}

/// The marks that may be passed, those first that are passed most often: with the fewest passes
/// comes the last, which pays. An inner mark is passed more often than an outer one.
pub fn by_passes(alloc: Global, marks: &Marks) -> Result<Vec<u8>, AllocError> {
    let mut placed = Vec::new(alloc);
    for (mark, standing) in (0..u8::MAX).zip(&marks.list) {
        if standing.most > 0 {
            placed.push(Placed {
                mark,
                standing: *standing,
            })?;
        }
    }
    placed.reverse();
    placed.sort_by_key(|one| u128::MAX - one.standing.passes)?;
    placed.iter().map(|one| one.mark).collect(alloc)
}

/// The same marks, those first that are among some.
pub fn with_first(alloc: Global, order: &[u8], some: u64) -> Result<Vec<u8>, AllocError> {
    let mut marks = Vec::new(alloc);
    add_some(&mut marks, order, some)?;
    add_some(&mut marks, order, !some)?;
    Ok(marks)
}

/// The same marks, those last that are among some.
pub fn with_last(alloc: Global, order: &[u8], some: u64) -> Result<Vec<u8>, AllocError> {
    with_first(alloc, order, !some)
}

/// Adds those that are among some.
fn add_some(marks: &mut Vec<u8>, order: &[u8], some: u64) -> Result<(), AllocError> {
    for mark in order {
        if bit_of(*mark) & some != 0 {
            marks.push(*mark)?;
        }
    }
    Ok(())
}
