//! What a heap takes from its script when it opens.

ghost use Rattle.std.specs.Prelude.{All, ◌≡◌, ◌<◌, ◌^◌, sum, vec_len, IfOk};
ghost use Rattle.gh_ever.specs.Lists.{counts_of};

use gh_base::{Bits, Shape, Shapes};
use gh_script::Script;
use std::alloc::{AllocError, Global};

/// A copy of the shape.
fn copy_of_shape(alloc: Global, shape: &Shape) -> Result<Shape, AllocError>
    ensures { IfOk result (λ copy. copy ≡ shape.now) }
{
    Ok(Shape {
        words: shape.words,
        noscan: shape.noscan,
        bits: Bits {
            words: Vec::from_slice(alloc, &shape.bits.words)?,
        },
    })
}

/// A copy of the shapes.
pub fn copy_of(alloc: Global, shapes: &Shapes) -> Result<Shapes, AllocError>
    ensures { IfOk result (λ copy. copy ≡ shapes.now) }
{
    let mut rows = Vec::new(alloc);
    for shape in &shapes.rows {
        rows.push(copy_of_shape(alloc, shape)?)?;
    }
    Ok(Shapes { rows })
}

/// How many statements each goroutine has.
pub fn counts_of(alloc: Global, script: &Script) -> Result<Vec<u32>, AllocError>
    ensures counted { IfOk result (λ counts. counts.items ≡ counts_of script.now) }
    ensures few { IfOk result (λ counts. vec_len counts < 2 ^ 32) }
{
    let mut counts = Vec::new(alloc);
    for g in 0..script.goroutines() {
        counts.push(script.count(g))?;
    }
    Ok(counts)
}

/// How many statements there are.
pub fn total_of(counts: &Vec<u32>) -> usize
    requires { vec_len counts.now < 2 ^ 32 }
    ensures total { result ≡ sum counts.now.items }
    ensures fits { All (λ n. n < 2 ^ 32) counts.now.items }
{
    let mut total = 0;
    for count in counts {
        total += *count as usize;
    }
    total
}
