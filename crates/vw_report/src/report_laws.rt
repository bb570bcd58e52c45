ghost use Rattle.vw_report.specs.Least.{LeastTablesAreOfPoints};
ghost use Rattle.vw_report.specs.Reports.{TablesHaveOneText, TextsTellTables};

/// No two tables have one text.
pub fn texts_tell_tables()
    ensures { TextsTellTables }
{}

/// Each list of tables has one text.
pub fn tables_have_one_text()
    ensures { TablesHaveOneText }
{}

/// The least table of a function has what a report says of a function: points that ascend, and at each of them a state
/// between two instructions. So the least tables of a module are read back from their report.
pub fn least_tables_are_of_points()
    ensures { LeastTablesAreOfPoints }
{}
