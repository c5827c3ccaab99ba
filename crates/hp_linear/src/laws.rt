//! What ties linear forms to the values of terms, and literals to comparisons of forms and to the truth of atoms.

ghost use Rattle.hp_linear.specs.Laws.{LinLiteralsAreFit, LinLiteralsCompare, LiteralsAreFit, LiteralsAreTrueWithAtoms, TermsHaveFitLins, TermsHaveLinValues};

/// A num term has the value of its form, in each environment that gives the words the values of their names.
pub fn terms_have_lin_values()
    ensures { TermsHaveLinValues }
{}

/// One of the literals that compare two forms is true exactly where their values stand in the relation.
pub fn lin_literals_compare()
    ensures { LinLiteralsCompare }
{}

/// Where the words have the values of their names, one of the literals of an atom of num terms is true exactly where the
/// atom is true, or, for the other sign, false.
pub fn literals_are_true_with_atoms()
    ensures { LiteralsAreTrueWithAtoms }
{}

/// The form of a num term is over names of sort num, and none of its coefficients is 0.
pub fn terms_have_fit_lins()
    ensures { TermsHaveFitLins }
{}

/// The literals that compare two forms over names of sort num can be decided.
pub fn lin_literals_are_fit()
    ensures { LinLiteralsAreFit }
{}

/// The literals of an atom of num terms can be decided, and none of their coefficients is 0.
pub fn literals_are_fit()
    ensures { LiteralsAreFit }
{}
