//! What the names of a ground problem say of words, sorts and definitions, and what stays so while definitions are
//! added.

ghost use Rattle.hp_defs.specs.Laws.{AddedIsLast, BodiesStayFit, DefinitionsStayFit, FitNamesGrow, NamesBegin, NumbersStay, PlacesAreFirst, PlacesStay, WordsAreDistinct, WordsStandForNames};

/// No two names have one word.
pub fn words_are_distinct()
    ensures { WordsAreDistinct }
{}

/// Each word stands for the name that has it.
pub fn words_stand_for_names()
    ensures { WordsStandForNames }
{}

/// Where nothing but definitions was added, the words and the sorts of the names begin as they did.
pub fn names_begin()
    ensures { NamesBegin }
{}

/// Where nothing but definitions was added, a word that stood for a name stands for it still.
pub fn numbers_stay()
    ensures { NumbersStay }
{}

/// The place of a body is the first at which it stands, and there is none exactly where it stands nowhere.
pub fn places_are_first()
    ensures { PlacesAreFirst }
{}

/// Where nothing but definitions was added, a body that had a place has the same place.
pub fn places_stay()
    ensures { PlacesStay }
{}

/// A body that had no place has the last one where its definition is added.
pub fn added_is_last()
    ensures { AddedIsLast }
{}

/// Where nothing but definitions was added, a body that fitted the names fits them still.
pub fn bodies_stay_fit()
    ensures { BodiesStayFit }
{}

/// Where nothing but definitions was added, the definitions that were there fit the names before them still.
pub fn definitions_stay_fit()
    ensures { DefinitionsStayFit }
{}

/// Where all definitions fit, they all do with one more whose body fits.
pub fn fit_names_grow()
    ensures { FitNamesGrow }
{}
