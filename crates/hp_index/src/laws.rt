//! What ties forms and pointers to the values of terms, and literals to comparisons of forms and to the truth of atoms;
//! and which forms and literals are fit.

ghost use Rattle.hp_index.specs.Laws.{FormLiteralsAreFit, FormLiteralsCompare, LiteralsAreFit, LiteralsAreTrueWithAtoms, OffsetsAreWithinWeights, PtrLiteralsAreFit, PtrLiteralsAreTrueWithAtoms, TermsHaveFitForms, TermsHaveFitPointers, TermsHaveFormValues, TermsHavePointerValues};

/// An idx term has the value of its form, in each environment that gives the words the values of their names.
pub fn terms_have_form_values()
    ensures { TermsHaveFormValues }
{}

/// Where the names have values of their sorts, one of the literals that compare two forms over names of sort idx is true
/// exactly where the values of the forms stand in the relation.
pub fn form_literals_compare()
    ensures { FormLiteralsCompare }
{}

/// Where the words have the values of their names, and these are of their sorts, one of the literals of an atom of idx
/// terms is true exactly where the atom is true, or false for the other sign.
pub fn literals_are_true_with_atoms()
    ensures { LiteralsAreTrueWithAtoms }
{}

/// A ptr term has the value of its name, or that of null, in each environment that gives the words the values of their
/// names.
pub fn terms_have_pointer_values()
    ensures { TermsHavePointerValues }
{}

/// Where the words have the values of their names, the literal of an atom of ptr terms is true exactly where the atom is
/// true, or false for the other sign.
pub fn ptr_literals_are_true_with_atoms()
    ensures { PtrLiteralsAreTrueWithAtoms }
{}

/// The number of a form has at most the magnitude that the numerators of its term's numbers add up to.
pub fn offsets_are_within_weights()
    ensures { OffsetsAreWithinWeights }
{}

/// The form of an idx term is over names of sort idx, with a small number where those of the term are small together: the
/// magnitudes of its numerators add up to at most 4 * 10^24.
pub fn terms_have_fit_forms()
    ensures { TermsHaveFitForms }
{}

/// The literals that compare two forms over names of sort idx with small numbers can be decided.
pub fn form_literals_are_fit()
    ensures { FormLiteralsAreFit }
{}

/// The literals of an atom of idx terms whose numbers are small together can be decided.
pub fn literals_are_fit()
    ensures { LiteralsAreFit }
{}

/// The name of a ptr term is one of sort ptr.
pub fn terms_have_fit_pointers()
    ensures { TermsHaveFitPointers }
{}

/// The literal of an atom of ptr terms can be decided.
pub fn ptr_literals_are_fit()
    ensures { PtrLiteralsAreFit }
{}
