//! What literals, arguments, definitions, sums and congruence say of values, and what stays while they are made.

ghost use Rattle.hp_base.specs.Laws.{AddedLinesAreLast, ApplicationsArePoints, ArgumentsAreSmall, ArgumentsBegin, ArgumentsFit, ArgumentsKeepFit, ArgumentsKeepMade, ArgumentsKeepSums, ArgumentsKeepTruth, ArgumentsSay, ArgumentsStayFit, CongruenceFits, CongruenceIsAdded, CongruenceSays, DefinedNamesHaveWords, DefinedWordsHaveSorts, DefinitionsBegin, DefinitionsFit, DefinitionsKeepFit, DefinitionsKeepLines, DefinitionsKeepMade, DefinitionsKeepSums, DefinitionsSay, DefinitionsStand, LinesKeepSums, LiteralsFit, LiteralsSay, ScopesWiden, SumsHoldByBodies, SumsHoldByLines, SumsSay};

/// Where the words have the values of their names, and these are of their sorts, one of the literals of an atom is true
/// exactly where the atom is true, or false for the other sign.
pub fn literals_say()
    ensures { LiteralsSay }
{}

/// The literals of an atom whose numbers are small together can be decided.
pub fn literals_fit()
    ensures { LiteralsFit }
{}

/// The word of a definition stands at the place of its name.
pub fn defined_names_have_words()
    ensures { DefinedNamesHaveWords }
{}

/// The word of a definition has the sort of its name.
pub fn defined_words_have_sorts()
    ensures { DefinedWordsHaveSorts }
{}

/// A word that has a sort keeps it while more is added.
pub fn scopes_widen()
    ensures { ScopesWiden }
{}

/// A line that is added stands behind those that were there, and the names stay.
pub fn added_lines_are_last()
    ensures { AddedLinesAreLast }
{}

/// Each sum has its line with one more line, where each had it before.
pub fn lines_keep_sums()
    ensures { LinesKeepSums }
{}

/// A ground set in which the argument of a term was made begins with what was there.
pub fn arguments_begin()
    ensures { ArgumentsBegin }
{}

/// The argument of a term has the value of the term, where the words have the values of their names and sums those of
/// their forms, also once more was added.
pub fn arguments_say()
    ensures { ArgumentsSay }
{}

/// The argument of a term of a sort is of that sort, and all definitions fit where they did before.
pub fn arguments_fit()
    ensures { ArgumentsFit }
{}

/// An argument of a sort stays one while more is added.
pub fn arguments_stay_fit()
    ensures { ArgumentsStayFit }
{}

/// The offset of an argument is small where the numbers of its term are small together.
pub fn arguments_are_small()
    ensures { ArgumentsAreSmall }
{}

/// Each sum has its line once an argument was made, where each had it before.
pub fn arguments_keep_sums()
    ensures { ArgumentsKeepSums }
{}

/// All lines can be decided once an argument was made, where all could before.
pub fn arguments_keep_fit()
    ensures { ArgumentsKeepFit }
{}

/// The lines that are added with an argument are true where sums have the values of their forms.
pub fn arguments_keep_truth()
    ensures { ArgumentsKeepTruth }
{}

/// The names are names that can be made once an argument was made, where they were before.
pub fn arguments_keep_made()
    ensures { ArgumentsKeepMade }
{}

/// A ground set in which an application was defined begins with what was there.
pub fn definitions_begin()
    ensures { DefinitionsBegin }
{}

/// The name of an application is that of a definition with its function and arguments, also once more was added.
pub fn definitions_stand()
    ensures { DefinitionsStand }
{}

/// The name of an application has the value of the function at the values of the arguments, where each definition has the
/// value of its body, also once more was added.
pub fn definitions_say()
    ensures { DefinitionsSay }
{}

/// The name of an application at arguments of the sorts of its function has the sort of the result, and all definitions
/// fit where they did before.
pub fn definitions_fit()
    ensures { DefinitionsFit }
{}

/// Each sum has its line once an application was defined, where each had it before.
pub fn definitions_keep_sums()
    ensures { DefinitionsKeepSums }
{}

/// All lines can be decided once an application was defined, where all could before.
pub fn definitions_keep_fit()
    ensures { DefinitionsKeepFit }
{}

/// The lines stay while an application is defined.
pub fn definitions_keep_lines()
    ensures { DefinitionsKeepLines }
{}

/// The names are names that can be made once an application at small arguments was defined, where they were before.
pub fn definitions_keep_made()
    ensures { DefinitionsKeepMade }
{}

/// The line of a sum is true exactly where its name has the value of its form.
pub fn sums_say()
    ensures { SumsSay }
{}

/// Where each definition has the value of its body, each sum has that of its form.
pub fn sums_hold_by_bodies()
    ensures { SumsHoldByBodies }
{}

/// Where each sum has its line and all lines are true, each sum has the value of its form.
pub fn sums_hold_by_lines()
    ensures { SumsHoldByLines }
{}

/// What is defined as an application of a function has the sort of its result, and small arguments of its sorts.
pub fn applications_are_points()
    ensures { ApplicationsArePoints }
{}

/// The line of two applications of one function is true exactly where equal arguments give equal values.
pub fn congruence_says()
    ensures { CongruenceSays }
{}

/// The line of two applications of one function can be decided.
pub fn congruence_fits()
    ensures { CongruenceFits }
{}

/// Where the line of two applications was added, its literals are those of the two, and nothing else has changed.
pub fn congruence_is_added()
    ensures { CongruenceIsAdded }
{}
