//! How far declarations and lists of variables are read, and the steps from one token to the next.
//! The steps are those of the machines of `specs/Stages.antt`. Each enum has a drop of its own, which keeps the proofs of its callers short.

ghost use Rattle.std.specs.Prelude.{◌≡◌, ◌++◌, Option, Some, None, IfOk};
ghost use Rattle.hp_body.specs.Given.{Gives};
ghost use Rattle.hp_grammar.specs.Declarations.{constants_of};
ghost use Rattle.hp_grammar.specs.Runs.{◌and_then◌};
ghost use Rattle.hp_read.specs.Stages.{sort_of as sort_of_kind, constants_word, constants_name, constants_step, constants_end, function_word, function_name, function_numeral, function_step, function_end, variables_word, variables_name, variables_step, variables_end};
ghost use Rattle.hp_read.specs.declared.lines.Function.TheVariants.{Argument};
ghost use Rattle.hp_read.specs.declared.lines.Variables.TheVariants.{Colon};

use hp_body::Stop;
use hp_grammar::{Symbol, same};
use hp_num::{List, Text};
use hp_text::Kind;
use hp_tree::{Decl, Sort, Var};
use std::alloc::{AllocError, Global};

/// How far a line of constants is read, behind `const`.
pub enum Constants {
    /// A name has to follow these.
    Name(List<Text>),
    /// Behind a name, the last of these.
    Named(List<Text>),
    /// Behind `:`.
    Colon(List<Text>),
    /// Behind the sort.
    Sorted(List<Text>, Sort),
}

/// How far the declaration of a function is read, behind `fun`.
pub enum Function {
    /// The name has to follow.
    Name,
    /// Behind the name.
    Named(Text),
    /// The sort of an argument has to follow these.
    Argument(Text, List<Sort>),
    /// Behind the sort of an argument, the last of these.
    Sorted(Text, List<Sort>),
    /// Behind `)`.
    Closed(Text, List<Sort>),
    /// Behind `:`.
    Colon(Text, List<Sort>),
    /// Behind the sort of the result.
    Returning(Text, List<Sort>, Sort),
    /// Behind `level`.
    Level(Text, List<Sort>, Sort),
    /// Behind the number of the level.
    Leveled(Text, List<Sort>, Sort, u64),
}

/// How far a list of variables is read, behind `[`.
pub enum Variables {
    /// A variable may follow, or `]`.
    First,
    /// A variable has to follow these.
    Name(List<Var>),
    /// Behind the name of a variable.
    Named(List<Var>, Text),
    /// Behind `:`.
    Colon(List<Var>, Text),
    /// Behind a variable, the last of these.
    Sorted(List<Var>),
}

impl Drop for Constants {
    fn drop(self) {
        match self {
            Constants::Name(_names) => {}
            Constants::Named(_names) => {}
            Constants::Colon(_names) => {}
            Constants::Sorted(_names, _sort) => {}
        }
    }
}

impl Drop for Function {
    fn drop(self) {
        match self {
            Function::Name => {}
            Function::Named(_name) => {}
            Function::Argument(_name, _args) => {}
            Function::Sorted(_name, _args) => {}
            Function::Closed(_name, _args) => {}
            Function::Colon(_name, _args) => {}
            Function::Returning(_name, _args, _result) => {}
            Function::Level(_name, _args, _result) => {}
            Function::Leveled(_name, _args, _result, _level) => {}
        }
    }
}

impl Drop for Variables {
    fn drop(self) {
        match self {
            Variables::First => {}
            Variables::Name(_vars) => {}
            Variables::Named(_vars, _name) => {}
            Variables::Colon(_vars, _name) => {}
            Variables::Sorted(_vars) => {}
        }
    }
}

/// The sort that a word names.
#[tactic(auto, unfolding(crate::specs::Stages::sort_of))]
fn sort_of(kind: Kind) -> Result<Sort, Stop>
    ensures { Gives (λ s. s) result (sort_of_kind kind) }
{
    if same(kind, Kind::Num) {
        Ok(Sort::Num)
    } else if same(kind, Kind::Idx) {
        Ok(Sort::Idx)
    } else if same(kind, Kind::Ptr) {
        Ok(Sort::Ptr)
    } else {
        Err(Stop::Refused)
    }
}

/// The declarations, and each name as a constant of the sort behind them.
fn declare(
    alloc: Global,
    mut decls: List<Decl>,
    names: List<Text>,
    sort: Sort,
) -> Result<List<Decl>, AllocError>
    ensures { IfOk result (λ ds. ds ≡ decls ++ constants_of names sort) }
{
    for name in names.as_slice() {
        let name = name.copy(alloc)?;
        decls.push(Decl::Const { name, sort })?;
    }
    Ok(decls)
}

impl Constants {
    fn word(self, kind: Kind) -> Result<Constants, Stop>
        ensures { Gives (λ c. c) result (constants_word kind self) }
    {
        match self {
            Constants::Named(names) => {
                if same(kind, Kind::Comma) {
                    Ok(Constants::Name(names))
                } else if same(kind, Kind::Colon) {
                    Ok(Constants::Colon(names))
                } else {
                    Err(Stop::Refused)
                }
            }
            Constants::Colon(names) => Ok(Constants::Sorted(names, sort_of(kind)?)),
            _ => Err(Stop::Refused),
        }
    }

    fn name(self, name: Text) -> Result<Constants, Stop>
        ensures { Gives (λ c. c) result (constants_name name self) }
    {
        match self {
            Constants::Name(mut names) => {
                names.push(name)?;
                Ok(Constants::Named(names))
            }
            _ => Err(Stop::Refused),
        }
    }

    /// The line behind one more token.
    pub(crate) fn step(self, symbol: Symbol) -> Result<Constants, Stop>
        ensures { Gives (λ c. c) result (constants_step self symbol) }
    {
        match symbol {
            Symbol::Word(kind) => self.word(kind),
            Symbol::Name(name) => self.name(name),
            Symbol::Numeral(_) => Err(Stop::Refused),
        }
    }

    /// The declarations with those of the line behind them, where the line may end here.
    pub(crate) fn end(self, alloc: Global, decls: List<Decl>) -> Result<List<Decl>, Stop>
        ensures { Gives (λ ds. ds) result (constants_end self and_then λ ds. Some (decls ++ ds)) }
    {
        match self {
            Constants::Sorted(names, sort) => Ok(declare(alloc, decls, names, sort)?),
            _ => Err(Stop::Refused),
        }
    }
}

impl Function {
    fn word(self, alloc: Global, kind: Kind) -> Result<Function, Stop>
        ensures { Gives (λ f. f) result (function_word kind self) }
    {
        match self {
            Function::Named(name) => {
                if same(kind, Kind::OpenRound) {
                    Ok(Function::Argument(name, List::new(alloc)))
                } else {
                    Err(Stop::Refused)
                }
            }
            Function::Argument(name, args) => argument(name, args, kind),
            Function::Sorted(name, args) => {
                if same(kind, Kind::Comma) {
                    Ok(Function::Argument(name, args))
                } else if same(kind, Kind::CloseRound) {
                    Ok(Function::Closed(name, args))
                } else {
                    Err(Stop::Refused)
                }
            }
            Function::Closed(name, args) => {
                if same(kind, Kind::Colon) {
                    Ok(Function::Colon(name, args))
                } else {
                    Err(Stop::Refused)
                }
            }
            Function::Colon(name, args) => Ok(Function::Returning(name, args, sort_of(kind)?)),
            Function::Returning(name, args, result) => {
                if same(kind, Kind::Level) {
                    Ok(Function::Level(name, args, result))
                } else {
                    Err(Stop::Refused)
                }
            }
            _ => Err(Stop::Refused),
        }
    }

    fn name(self, name: Text) -> Result<Function, Stop>
        ensures { Gives (λ f. f) result (function_name name self) }
    {
        match self {
            Function::Name => Ok(Function::Named(name)),
            _ => Err(Stop::Refused),
        }
    }

    fn numeral(self, n: u64) -> Result<Function, Stop>
        ensures { Gives (λ f. f) result (function_numeral n self) }
    {
        match self {
            Function::Level(name, args, result) => Ok(Function::Leveled(name, args, result, n)),
            _ => Err(Stop::Refused),
        }
    }

    /// The declaration behind one more token.
    pub(crate) fn step(self, alloc: Global, symbol: Symbol) -> Result<Function, Stop>
        ensures { Gives (λ f. f) result (function_step self symbol) }
    {
        match symbol {
            Symbol::Word(kind) => self.word(alloc, kind),
            Symbol::Name(name) => self.name(name),
            Symbol::Numeral(n) => self.numeral(n),
        }
    }

    /// The declaration, where it may end here.
    pub(crate) fn end(self) -> Result<Decl, Stop>
        ensures { Gives (λ d. d) result (function_end self) }
    {
        match self {
            Function::Leveled(name, args, result, level) => Ok(Decl::Fun {
                name,
                args,
                result,
                level,
            }),
            _ => Err(Stop::Refused),
        }
    }
}

/// Behind the sort of one more argument.
fn argument(name: Text, mut args: List<Sort>, kind: Kind) -> Result<Function, Stop>
    ensures { Gives (λ f. f) result (function_word kind (Argument name args)) }
{
    let sort = sort_of(kind)?;
    args.push(sort)?;
    Ok(Function::Sorted(name, args))
}

/// Behind the sort of one more variable.
fn variable(mut vars: List<Var>, name: Text, kind: Kind) -> Result<Variables, Stop>
    ensures { Gives (λ v. v) result (variables_word kind (Colon vars name)) }
{
    let sort = sort_of(kind)?;
    vars.push(Var { name, sort })?;
    Ok(Variables::Sorted(vars))
}

impl Variables {
    fn word(self, kind: Kind) -> Result<Variables, Stop>
        ensures { Gives (λ v. v) result (variables_word kind self) }
    {
        match self {
            Variables::Named(vars, name) => {
                if same(kind, Kind::Colon) {
                    Ok(Variables::Colon(vars, name))
                } else {
                    Err(Stop::Refused)
                }
            }
            Variables::Colon(vars, name) => variable(vars, name, kind),
            Variables::Sorted(vars) => {
                if same(kind, Kind::Comma) {
                    Ok(Variables::Name(vars))
                } else {
                    Err(Stop::Refused)
                }
            }
            _ => Err(Stop::Refused),
        }
    }

    fn name(self, alloc: Global, name: Text) -> Result<Variables, Stop>
        ensures { Gives (λ v. v) result (variables_name name self) }
    {
        match self {
            Variables::First => {
                let vars = Vec::with_capacity(alloc, 2)?;
                Ok(Variables::Named(List::from_vec(vars), name))
            }
            Variables::Name(vars) => Ok(Variables::Named(vars, name)),
            _ => Err(Stop::Refused),
        }
    }

    /// The list behind one more token.
    pub(crate) fn step(self, alloc: Global, symbol: Symbol) -> Result<Variables, Stop>
        ensures { Gives (λ v. v) result (variables_step self symbol) }
    {
        match symbol {
            Symbol::Word(kind) => self.word(kind),
            Symbol::Name(name) => self.name(alloc, name),
            Symbol::Numeral(_) => Err(Stop::Refused),
        }
    }

    /// The variables, where the list may end here.
    pub(crate) fn end(self, alloc: Global) -> Result<List<Var>, Stop>
        ensures { Gives (λ vs. vs) result (variables_end self) }
    {
        match self {
            Variables::First => Ok(List::new(alloc)),
            Variables::Sorted(vars) => Ok(vars),
            _ => Err(Stop::Refused),
        }
    }
}
