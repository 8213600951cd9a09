// Loss rows as lines of a charge source.
ghost use Rattle.std.specs.Prelude.{◌≡◌};
ghost use Rattle.losses.specs.Bounds.{loss_ranged};
ghost use Rattle.losses.specs.Lines.{outside_at, loss_line, loss_basis};

use crate::row::{Field, LossRow};
use charges::fault::{Cause, Fault};
use charges::reader::{BasisReader, Reader};

// The fault of line n, which has a field outside its limits.
fn outside(n: usize, field: Field) -> Fault
    ensures { result ≡ outside_at n field }
{
    Fault::in_source(Cause::FieldOutside, n, field.number())
}

// The reader of loss rows.
#[derive(Clone, Copy, PartialEq, Eq, Debug)]
pub struct LossReader;

impl Reader<LossRow> for LossReader {
    ghost line_of = { λ s n row. loss_line n row };

    ghost ranged = { λ s n row. loss_ranged n row };

    fn read(&self, n: usize, row: &LossRow) -> Result<(u16, u8, i64), Fault> {
        let loss = row.loss().map_err(|field| outside(n, field))?;
        Ok((row.resource, row.party, loss.amount))
    }
}

impl BasisReader<LossRow> for LossReader {
    ghost basis_by = { λ s n row. loss_basis row };

    fn rest(&self, _n: usize, row: &LossRow) -> u32 {
        row.loss().map_or(0, |loss| loss.basis)
    }
}
