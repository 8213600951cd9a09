// A row that is worked out: the line that it gives, and the kWh that the line rests on.
ghost use Rattle.std.specs.Result.{ForOk, ForErr};
ghost use Rattle.std.specs.Prelude.{◌≡◌, ◌≤◌};
ghost use Rattle.readers.specs.Worked.{Payable};

use charges::fault::Fault;

#[derive(Clone, Copy)]
pub struct WorkedRow {
    pub(crate) line: Result<(u16, u8, i64), Fault>,
    pub(crate) basis: u32,
    ghost ranged: { ForOk line Payable },
    ghost rests: { ForOk line (λ _. basis ≤ 1000000) },
    ghost none: { ForErr line (λ _. basis ≡ 0) },
}
