//! Laws of all reports.
ghost use Rattle.collect.specs.Merged.{PartsMakeWhole, PartsMakeTrace, MergesWithItself, OrderIsFree};
ghost use Rattle.collect.specs.ReportFaults.{OneFault, NoFault, OneList};

/// One text belongs to one list of races.
pub fn one_list()
    ensures { OneList }
{}

/// Bytes have at most one first faulty line, and the text of a report has none.
pub fn one_fault()
    ensures one { OneFault }
    ensures none { NoFault }
{}

/// Merging: the reports of all parts of one trace make the report of the trace, in any order, and also if some come
/// more than once.
pub fn merging()
    ensures whole { PartsMakeWhole }
    ensures trace { PartsMakeTrace }
    ensures again { MergesWithItself }
    ensures order { OrderIsFree }
{}
