//! Laws of the rules on sorts, of weights and of words. None has a cause to fail: they speak of all terms, and nothing
//! is computed.

ghost use Rattle.hp_terms.specs.Laws.{AgreeingScopesFormAlike, AgreeingScopesSortAlike, ApplicationsFollowProfiles, MadeWordsAreNotPlain, MadeWordsDiffer, PartsOfSortedTermsAreSorted, PartsWeighNoMore, SortedTermsHaveSortedValues, WiderScopesKeepForms, WiderScopesKeepSorts};

/// A term of a sort has a value of that sort, where names, functions and pointer numbers have values of their sorts.
pub fn sorted_terms_have_sorted_values()
    ensures { SortedTermsHaveSortedValues }
{}

/// A term is of the same sorts in two scopes, and has the same first sort, where they say the same of all that occurs in it.
pub fn agreeing_scopes_form_alike()
    ensures { AgreeingScopesFormAlike }
{}

/// An atom has the same sort in two scopes, and is sorted in both or in none, where they say the same of all that occurs
/// in it.
pub fn agreeing_scopes_sort_alike()
    ensures { AgreeingScopesSortAlike }
{}

/// A term of a sort stays one in a scope that says more.
pub fn wider_scopes_keep_forms()
    ensures { WiderScopesKeepForms }
{}

/// A sorted atom stays sorted in a scope that says more, and keeps its sort.
pub fn wider_scopes_keep_sorts()
    ensures { WiderScopesKeepSorts }
{}

/// Each part of a term that is of some sort is of some sort.
pub fn parts_of_sorted_terms_are_sorted()
    ensures { PartsOfSortedTermsAreSorted }
{}

/// An application of a sort has a known function, as many arguments as its profile, each of the sort of its place, and
/// the sort is that of the profile's result.
pub fn applications_follow_profiles()
    ensures { ApplicationsFollowProfiles }
{}

/// Each part of a term weighs at most as much as the term.
pub fn parts_weigh_no_more()
    ensures { PartsWeighNoMore }
{}

/// The words of definitions with different numbers below 2^64 differ.
pub fn made_words_differ()
    ensures { MadeWordsDiffer }
{}

/// The word of a definition with a number below 2^64 is no plain word.
pub fn made_words_are_not_plain()
    ensures { MadeWordsAreNotPlain }
{}
