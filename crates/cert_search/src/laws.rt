//! A law of the tables of answers, proved for all nodes.

ghost use Rattle.cert_search.specs.LawsOfTables.{LawAgreeingTables};

/// Nodes that agree on each position have equal answers with exact rows, and equal ones with short
/// paths.
pub fn law_agreeing_tables()
    ensures { LawAgreeingTables }
{}
