// Lines as they are submitted: each row tells its amount, and rests on no energy.
ghost use Rattle.charges.specs.Listed.{listed_line};
ghost use Rattle.charges.specs.SourceLaws.{listed_ranged};

use crate::fault::{Cause, Fault};
use crate::limits::{LAST_RESOURCE, MOST_CENTS};
use crate::reader::{BasisReader, Reader};

#[derive(Clone, Copy, PartialEq, Eq, Debug)]
pub struct ListedRow {
    pub resource: u16,
    pub party: u8,
    pub amount: i64,
}

// The reader of listed rows.
#[derive(Clone, Copy, PartialEq, Eq, Debug)]
pub struct Listed;

impl Reader<ListedRow> for Listed {
    ghost line_of = { λ s n row. listed_line n row };

    ghost ranged = { λ s n row. listed_ranged n row };

    fn read(&self, n: usize, row: &ListedRow) -> Result<(u16, u8, i64), Fault> {
        if !(1..=LAST_RESOURCE).contains(&row.resource) {
            return Err(Fault::in_source(Cause::FieldOutside, n, 1));
        }
        if row.amount.unsigned_abs() > MOST_CENTS {
            return Err(Fault::in_source(Cause::AmountBeyond, n, 2));
        }
        Ok((row.resource, row.party, row.amount))
    }
}

impl BasisReader<ListedRow> for Listed {
    ghost basis_by = { λ _ _ _. 0 };

    fn rest(&self, _n: usize, _row: &ListedRow) -> u32 {
        0
    }
}
