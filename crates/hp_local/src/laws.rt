//! What the definitions of this crate say of each other.

ghost use Rattle.hp_local.specs.Applied.{ValuesAreLocal};
ghost use Rattle.hp_local.specs.Arrays.{ArraysComplete};
ghost use Rattle.hp_local.specs.Cases.{CasesComplete};
ghost use Rattle.hp_local.specs.Fields.{FieldsStayTrue, FieldsComplete};
ghost use Rattle.hp_local.specs.Frame.{PointsAreKept};
ghost use Rattle.hp_local.specs.Free.{FreeCompletes};
ghost use Rattle.hp_local.specs.Fuel.{FuelIsEnough};
ghost use Rattle.hp_local.specs.Law.{LevelsComplete};
ghost use Rattle.hp_local.specs.Lower.{FreeTablesApplyNone, StepTablesApplyNone, FieldTablesApplyNone, CaseTablesApplyTheirs};
ghost use Rattle.hp_local.specs.Monotone.{ShapesSay, MonotoneCompletes};
ghost use Rattle.hp_local.specs.Nearest.{NearestKeepsOrder, NearestKeepsNumbers, StepsAreNearest, GuardsAreKept, OrdersAreKept};
ghost use Rattle.hp_local.specs.NullGuards.{NullGuardsSuffice};
ghost use Rattle.hp_local.specs.Ordered.{StepsHavePoints, TablesAreSteps};
ghost use Rattle.hp_local.specs.Rows.{FactsAreAddedOnce, NumbersAreTerms};
ghost use Rattle.hp_local.specs.Sorts.{NumbersAreSorted, PointRowsAreSorted, FreeTablesAreSorted, StepTablesAreSorted, CaseTablesAreSorted, FieldTablesAreSorted};
ghost use Rattle.hp_local.specs.Structures.{FunctionsFollowTables, WellFormedTablesAreLower};
ghost use Rattle.hp_local.specs.Substitution.{SubstitutesHaveValues, SubstitutesKeepValues, SubstitutesKeepGuards, SubstitutesApplyTheSame};
ghost use Rattle.hp_local.specs.TableScopes.{TableScopesFit};

/// The value of a term depends on the values of the functions that it applies alone.
pub fn values_are_local()
    ensures { ValuesAreLocal }
{}

/// The values of a function of a structure are the same wherever as many levels are counted as its own, or more.
pub fn fuel_is_enough()
    ensures { FuelIsEnough }
{}

/// In a well-formed structure tables apply functions of lower levels alone, and each function has the values of its table
/// over the functions of the structure itself.
pub fn functions_follow_tables()
    ensures lower { WellFormedTablesAreLower }
    ensures follow { FunctionsFollowTables }
{}

/// The functions through points, of which equal arguments have equal values, have each of them.
pub fn points_are_kept()
    ensures { PointsAreKept }
{}

/// The term of a number has the number as its value.
pub fn numbers_are_terms()
    ensures { NumbersAreTerms }
{}

/// The points of a table, equal ones once, get a further point where none has its arguments.
pub fn facts_are_added_once()
    ensures { FactsAreAddedOnce }
{}

/// Groups with the extension law complete each other, level by level.
pub fn levels_complete()
    ensures { LevelsComplete }
{}

/// A row for each point, and 0 elsewhere, complete a free function.
pub fn free_completes()
    ensures { FreeCompletes }
{}

/// The terms of numbers, the rows of points and the tables of each completion fit the rules on sorts where the numbers,
/// and the guards and bounds of cases, have the sorts.
pub fn completions_are_sorted()
    ensures numbers { NumbersAreSorted }
    ensures rows { PointRowsAreSorted }
    ensures free { FreeTablesAreSorted }
    ensures steps { StepTablesAreSorted }
    ensures cases { CaseTablesAreSorted }
    ensures fields { FieldTablesAreSorted }
{}

/// The scope of the table of a declared function is one over which the tables of completions are sorted.
pub fn table_scopes_fit()
    ensures { TableScopesFit }
{}

/// The step function through points has the values of the points, and its table has the values of the step function.
pub fn steps_have_points()
    ensures points { StepsHavePoints }
    ensures tables { TablesAreSteps }
{}

/// The map to the nearest of a list of numbers keeps the order, the numbers, and the guards whose bounds are among them.
pub fn nearest_is_kept()
    ensures order { NearestKeepsOrder }
    ensures numbers { NearestKeepsNumbers }
    ensures steps { StepsAreNearest }
    ensures guards { GuardsAreKept }
    ensures orders { OrdersAreKept }
{}

/// The step function through its points completes a function with a clause of monotone shape, in each of the ways to
/// write it.
pub fn monotone_completes()
    ensures says { ShapesSay }
    ensures completes { MonotoneCompletes }
{}

/// Rows for the points and then for the cases complete a function whose clauses bound it by cases, where no two guards are
/// true together and the bounds of each are in order.
pub fn cases_complete()
    ensures { CasesComplete }
{}

/// The step functions through the points of an index set complete arrays whose clauses are true at all tuples over it.
pub fn arrays_complete()
    ensures { ArraysComplete }
{}

/// A term whose names are replaced by terms has the value at the values of these: its own where each replacement has the
/// value of its name. It applies no other function than it did, where no replacement applies one.
pub fn substitutes_have_values()
    ensures at_values { SubstitutesHaveValues }
    ensures values { SubstitutesKeepValues }
    ensures guards { SubstitutesKeepGuards }
    ensures applied { SubstitutesApplyTheSame }
{}

/// The tables of completions apply no function but those in the guards and bounds of cases.
pub fn completions_apply_lower()
    ensures free { FreeTablesApplyNone }
    ensures steps { StepTablesApplyNone }
    ensures cases { CaseTablesApplyTheirs }
    ensures fields { FieldTablesApplyNone }
{}

/// A clause of fields that is true at the points is true in the tables, where the pointers of fields in it that are read
/// further are not null.
pub fn fields_stay_true()
    ensures { FieldsStayTrue }
{}

/// Rows for the points in the universe, a pointer outside it being null, complete fields whose clauses are null-guarded.
pub fn fields_complete()
    ensures { FieldsComplete }
{}

/// A clause of fields is null-guarded where each pointer of a field that is read further has a null guard in it.
pub fn null_guards_suffice()
    ensures { NullGuardsSuffice }
{}
