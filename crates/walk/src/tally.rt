// One pass over a source's lines: each is asked for once, checked and added up.
ghost use Rattle.std.specs.Prelude.{◌≡◌, length, MatchResult, OnOk, unwrap_or};
ghost use Rattle.charges.specs.Lines.{line_at};
ghost use Rattle.walk.specs.Flaws.{fits_after, fitting, walked, AllFit, Flawed};
ghost use Rattle.walk.specs.Totals.{party_sums};

use crate::flaw::Flaw;
use charges::interface::LineSource;
use charges::limits::MOST_LINES;

// Whether the party is one of so many, and the resource above the one before, if there is one.
fn is_fit(parties: usize, before: Option<u16>, entry: (u16, u8, i64)) -> bool
    ensures { result ≡ fits_after parties before entry }
{
    let (resource, party, _) = entry;
    (1..=parties).contains(&usize::from(party)) && before.is_none_or(|before| before < resource)
}

// The entry of line n, or how the line is flawed.
fn fit_entry<S: LineSource>(
    source: &S,
    parties: usize,
    before: Option<u16>,
    n: usize,
) -> Result<(u16, u8, i64), Flaw>
    ensures { result ≡ fitting parties (unwrap_or before 0) n (line_at (S.LineSource.lines source.now) n) }
{
    let entry = source
        .line(n)
        .map_err(|fault| Flaw::Faulty { line: n, fault })?;
    if !is_fit(parties, before, entry) {
        return Err(Flaw::Unfit(n));
    }
    Ok(entry)
}

// The total of all amounts, with each party's sum in `paid`, which has one place for each party. A flaw leaves sums that the caller drops.
pub fn walk<S: LineSource>(source: &S, paid: &mut [i64]) -> Result<i64, Flaw>
    ensures answer { result ≡ walked (length paid.old) (S.LineSource.lines source.now) }
    ensures words { MatchResult result (λ _. AllFit (length paid.old) (S.LineSource.lines source.now)) (Flawed (length paid.old) (S.LineSource.lines source.now)) }
    ensures paid { OnOk result (paid.new ≡ party_sums (length paid.old) (S.LineSource.lines source.now)) }
{
    let count = source.count();
    if count > MOST_LINES {
        return Err(Flaw::ManyLines);
    }
    let parties = paid.len();
    paid.fill(0);
    let mut total = 0;
    let mut before = None;
    for n in 1..=count {
        let (resource, party, amount) = fit_entry(source, parties, before, n)?;
        paid[usize::from(party) - 1] += amount;
        total += amount;
        before = Some(resource);
    }
    Ok(total)
}
