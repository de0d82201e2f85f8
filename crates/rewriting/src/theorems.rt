// What holds of tables and families, each as the contract of a function that does nothing.
ghost use Rattle.rewriting.specs.Theorems.{ChurchRosser, OneStandard, Families, ReducingTells, OneTable, ReduceEnds, SearchNone};
ghost use Rattle.rewriting.specs.Worked.{Reductions, SettledTable};

// Two reductions of one load meet.
pub fn church_rosser()
    ensures { ChurchRosser }
{}

// Every family has exactly one standard load.
pub fn one_standard()
    ensures { OneStandard }
{}

// Two loads are of one family exactly when their standard loads are the same.
pub fn families()
    ensures { Families }
{}

// To reduce two loads is to decide whether they are of one family.
pub fn reducing_tells()
    ensures { ReducingTells }
{}

// Two settled tables under one order are the same exactly when their books join the same loads.
pub fn one_table()
    ensures { OneTable }
{}

// A reduction that is answered is a reduction, and its end is standard.
pub fn reduce_ends()
    ensures { ReduceEnds }
{}

// The search finds no place exactly when the load is standard.
pub fn search_none()
    ensures { SearchNone }
{}

// The worked reductions come out as the definitions say.
pub fn worked_reductions()
    ensures { Reductions }
{}

// The conditions of a settled table can be met.
pub fn settled_table()
    ensures { SettledTable }
{}
