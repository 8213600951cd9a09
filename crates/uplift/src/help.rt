// What the program tells of itself.
pub const USAGE: &str = "usage: uplift run|statement|journal [FILE], uplift demo, uplift help";

pub const HELP: &str = "uplift settles the real-time uplift of a day from a text of records.

  uplift run [FILE] [--explain]       does the records in order and answers each; with --explain a refusal is told in words too
  uplift demo                         shows a sample day with its answers
  uplift statement FILE [PARTY]       tells each party's standing settlements with the steps of its formulas, and its balance
  uplift journal FILE [--date=DATE]   writes the standing settlements as a journal for hledger or ledger, dated 2000-01-01 or DATE
  uplift help                         tells this

Without FILE, or with -, the text is read from the standard input. PARTY is a code, or # and a number.
--progress tells on the standard error how many lines are read.
The status is 0, or 1 where a record is malformed or the text cannot be read, or 2 where the call is unclear.
";
