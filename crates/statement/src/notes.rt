// What is noted of each standing settlement: the steps of its lines.
use crate::steps::{Steps, tell_layers};
use charges::interface::LineSource;
use charges::rowsource::RowSource;
use day::records::{Settlement, SlotName, SourceName};
use daybook::ledger::{Ledger, Posted, listed_source, loss_source};
use daybook::tables::{Layers, Tables};
use emergency::row::EmergencyRow;
use readers::emergency_rows::EmergencyReader;
use sharing::choice::RuleChoice;
use std::alloc::{AllocError, Global};
use text::answers::Answers;

// The steps of one line, and the party that it is paid to.
#[derive(Drop)]
pub struct LineNote {
    pub party: u8,
    pub steps: Answers,
}

// A standing settlement.
#[derive(Drop)]
pub struct Standing {
    pub slot: SlotName,
    pub rule: RuleChoice,
    pub posted: Posted,
    pub lines: Vec<LineNote>,
}

// The emergency rows as a source, each worked out anew with its steps.
fn emergency_source<'a>(
    tables: &'a Tables,
    ledger: &Ledger<'a>,
) -> RowSource<'a, EmergencyRow, EmergencyReader<'a>> {
    RowSource {
        rows: tables.emergency.as_slice(),
        reader: EmergencyReader {
            curves: ledger.emergency.curves,
            quarter: tables.emergency_quarter,
        },
    }
}

// Notes each line of a source under the layers.
fn note_lines<R, T: Steps<R> + Drop>(
    heap: Global,
    layers: &Layers,
    source: RowSource<'_, R, T>,
) -> Result<Vec<LineNote>, AllocError> {
    let rows = source.rows;
    let piled = layers.over(source);
    let below = &piled.below.below.below;
    let mut lines = Vec::new(heap);
    for (n, row) in (1usize..).zip(rows) {
        if let (Ok((resource, party, after)), Ok((_, _, before))) = (piled.line(n), below.line(n)) {
            let mut steps = Answers::new(heap);
            writeln!(steps, "    line {n}: resource {resource}")?;
            below.reader.tell(&mut steps, row)?;
            tell_layers(&mut steps, layers, resource, before, after)?;
            lines.push(LineNote { party, steps })?;
        }
    }
    Ok(lines)
}

impl Standing {
    // The notes of a settlement that was accepted, over the tables as they are.
    pub fn of(
        heap: Global,
        settlement: &Settlement,
        posted: Posted,
        ledger: &Ledger<'_>,
        tables: &Tables,
    ) -> Result<Standing, AllocError> {
        let layers = &tables.layers;
        let lines = match settlement.source {
            SourceName::Emergency => note_lines(heap, layers, emergency_source(tables, ledger))?,
            SourceName::Loss => note_lines(heap, layers, loss_source(tables))?,
            SourceName::Listed => note_lines(heap, layers, listed_source(tables))?,
        };
        Ok(Standing {
            slot: settlement.slot,
            rule: settlement.rule,
            posted,
            lines,
        })
    }
}
