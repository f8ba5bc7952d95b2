//! Cauchy matrices over GF(2^8).
#![tactic(auto)]

ghost use Rattle.std.specs.Prelude.{◌≡◌, ◌<◌, ◌++◌, length, IfOk};
ghost use Rattle.stair_cauchy.specs.Entries.{IsCauchy, IsDistinct, SquaresAreNonsingular, entry};

use stair_gf::inv;
use std::alloc::{AllocError, Global};
use std::marker::Model;

/// A matrix of bytes.
#[derive(Debug, Drop)]
pub struct Matrix {
    rows: usize,
    columns: usize,
    entries: Vec<u8>,
}

impl Model for Matrix {
    ghost use Rattle.std.specs.Prelude.{◌≡◌, ◌*◌, vec_len};
    ghost use Rattle.stair_cauchy.specs.Entries.{Entries};

    ghost Value = { Entries };

    ghost view = { λ m. record { rows = m.rows; columns = m.columns; entries = m.entries.items } };

    ghost invariant = { λ m. vec_len m.entries ≡ m.rows * m.columns };
}

impl Matrix {
    /// The Cauchy matrix over the points `xs` of its rows and `ys` of its columns: entry (i, j) is 1/(x_i + y_j), where
    /// the sum is the exclusive or. All points are distinct.
    pub fn cauchy(alloc: Global, xs: &[u8], ys: &[u8]) -> Result<Matrix, AllocError>
        requires some_rows { 0 < length xs.now }
        requires some_columns { 0 < length ys.now }
        requires distinct { IsDistinct (xs.now ++ ys.now) }
        ensures entries { IfOk result (λ matrix. IsCauchy matrix xs.now ys.now) }
        ensures nonsingular { IfOk result SquaresAreNonsingular }
    {
        let mut entries = Vec::new(alloc);
        for x in xs {
            for y in ys {
                entries.push(inv(*x ^ *y))?;
            }
        }
        Ok(Matrix {
            rows: xs.len(),
            columns: ys.len(),
            entries,
        })
    }

    /// The entry in this row and column, each counted from 0.
    pub fn at(&self, row: usize, column: usize) -> u8
        requires row_in { row < self.now.rows }
        requires column_in { column < self.now.columns }
        ensures { result ≡ entry self.now row column }
    {
        self.entries[row * self.columns + column]
    }
}
