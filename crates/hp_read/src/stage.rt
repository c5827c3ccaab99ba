//! How far a whole text is read, and the steps from one token to the next.
//! The steps are those of the machine of texts in `specs/`. The enum has a drop of its own, which keeps the proofs of its callers short.

ghost use Rattle.std.specs.Prelude.{◌≡◌, Option, Some, None};
ghost use Rattle.hp_body.specs.Given.{Gives};
ghost use Rattle.hp_body.specs.Moves.{Moves};
ghost use Rattle.hp_grammar.specs.Runs.{◌and_then◌};
ghost use Rattle.hp_body.specs.BodyMachine.{begun as begun_at, body_end};
ghost use Rattle.hp_read.specs.Stages.{constants_end, variables_step};
ghost use Rattle.hp_read.specs.declared.stage.Stage.TheVariants.{Whole, Body as stage_of_body};
ghost use Rattle.hp_body.specs.declared.body.Place.TheVariants.{First};
ghost use Rattle.hp_grammar.specs.Problems.{clause_of};
ghost use Rattle.hp_read.specs.Top.{started, ends_with as ends_with_kind, declaration as declaration_at, between as between_at, item_goes, at_start, at_profile, at_numbered, at_whole, at_clause, constants_stage, function_stage, variables_stage, body_stage, stage_step, top_step, at, top_end, with_item, with_declarations, is_whole as is_whole_stage};

use crate::lines::{Constants, Function, Variables};
use hp_body::{Body, Place, Stop};
use hp_grammar::{Symbol, same};
use hp_num::List;
use hp_text::Kind;
use hp_tree::{Clause, Problem, Var};
use std::alloc::Global;
use std::mem;

/// What of a text is read last.
pub enum Stage {
    /// No token.
    Start,
    /// `profile`.
    Profile,
    /// The number of the profile.
    Numbered,
    /// A whole line, declaration or item.
    Whole,
    Constants(Constants),
    Function(Function),
    /// `clause`.
    Clause,
    Variables(Variables),
    /// A part of a body, which is a query's or not, behind these variables.
    Body(bool, List<Var>, Body),
}

/// The declarations and items that are read whole, and what is read behind them.
#[derive(Drop)]
pub struct Progress {
    pub made: Problem,
    pub stage: Stage,
}

impl Drop for Stage {
    fn drop(self) {
        match self {
            Stage::Start => {}
            Stage::Profile => {}
            Stage::Numbered => {}
            Stage::Whole => {}
            Stage::Constants(_constants) => {}
            Stage::Function(_function) => {}
            Stage::Clause => {}
            Stage::Variables(_variables) => {}
            Stage::Body(_query, _vars, _body) => {}
        }
    }
}

/// Whether the token is this word or sign.
fn ends_with(symbol: &Symbol, kind: Kind) -> bool
    ensures { result ≡ ends_with_kind kind symbol.now }
{
    match symbol {
        Symbol::Word(found) => same(*found, kind),
        Symbol::Name(_) | Symbol::Numeral(_) => false,
    }
}

/// A declaration begins, before which no item stands.
fn declaration(made: &Problem, stage: &mut Stage, next: Stage) -> Result<(), Stop>
    ensures { Moves (at made.now stage.new) result (declaration_at made.now made.now.clauses next) }
{
    match made.clauses.as_slice() {
        [] => {
            *stage = next;
            Ok(())
        }
        [..] => Err(Stop::Refused),
    }
}

/// An item begins.
#[tactic(auto, unfolding(crate::specs::Top::item_goes))]
fn item(alloc: Global, made: &Problem, stage: &mut Stage, kind: Kind) -> Result<(), Stop>
    ensures { Moves (at made.now stage.new) result (item_goes made.now kind) }
{
    let _made = made;
    if same(kind, Kind::Clause) {
        *stage = Stage::Clause;
        Ok(())
    } else if same(kind, Kind::Query) {
        stage.begin(alloc, true, List::new(alloc));
        Ok(())
    } else {
        Err(Stop::Refused)
    }
}

/// A declaration or an item begins.
#[tactic(auto, unfolding(crate::specs::Top::between))]
fn between(alloc: Global, made: &Problem, stage: &mut Stage, kind: Kind) -> Result<(), Stop>
    ensures { Moves (at made.now stage.new) result (between_at made.now kind) }
{
    if same(kind, Kind::Const) {
        let names = Constants::Name(List::new(alloc));
        declaration(made, stage, Stage::Constants(names))
    } else if same(kind, Kind::Fun) {
        declaration(made, stage, Stage::Function(Function::Name))
    } else {
        item(alloc, made, stage, kind)
    }
}

/// The first token of the text.
#[inline(never)]
#[tactic(auto, unfolding(crate::specs::Top::at_start))]
fn start(alloc: Global, made: &Problem, stage: &mut Stage, symbol: Symbol) -> Result<(), Stop>
    ensures { Moves (at made.now stage.new) result (at_start made.now symbol) }
{
    match symbol {
        Symbol::Word(kind) => {
            if same(kind, Kind::Profile) {
                *stage = Stage::Profile;
                Ok(())
            } else {
                between(alloc, made, stage, kind)
            }
        }
        Symbol::Name(_) | Symbol::Numeral(_) => Err(Stop::Refused),
    }
}

/// Behind `profile`, where the number 1 may stand.
#[inline(never)]
#[tactic(auto, unfolding(crate::specs::Top::at_profile))]
fn profile(made: &Problem, stage: &mut Stage, symbol: Symbol) -> Result<(), Stop>
    ensures { Moves (at made.now stage.new) result (at_profile made.now symbol) }
{
    let _made = made;
    match symbol {
        Symbol::Numeral(n) => {
            if n == 1 {
                *stage = Stage::Numbered;
                Ok(())
            } else {
                Err(Stop::Refused)
            }
        }
        Symbol::Word(_) | Symbol::Name(_) => Err(Stop::Refused),
    }
}

/// Behind the number of the profile.
#[inline(never)]
#[tactic(auto, unfolding(crate::specs::Top::at_numbered))]
fn numbered(made: &Problem, stage: &mut Stage, symbol: Symbol) -> Result<(), Stop>
    ensures { Moves (at made.now stage.new) result (at_numbered made.now symbol) }
{
    let _made = made;
    if ends_with(&symbol, Kind::Semicolon) {
        *stage = Stage::Whole;
        Ok(())
    } else {
        Err(Stop::Refused)
    }
}

/// Behind a declaration or an item.
#[inline(never)]
#[tactic(auto, unfolding(crate::specs::Top::at_whole))]
fn whole(alloc: Global, made: &Problem, stage: &mut Stage, symbol: Symbol) -> Result<(), Stop>
    ensures { Moves (at made.now stage.new) result (at_whole made.now symbol) }
{
    match symbol {
        Symbol::Word(kind) => between(alloc, made, stage, kind),
        Symbol::Name(_) | Symbol::Numeral(_) => Err(Stop::Refused),
    }
}

/// The declarations of a line of constants that ends here.
fn end_of_constants(alloc: Global, made: &mut Problem, constants: Constants) -> Result<(), Stop>
    ensures { Moves (at made.new Whole) result (constants_end constants and_then λ ds. Some (with_declarations made.old ds)) }
{
    let decls = mem::replace(&mut made.decls, List::new(alloc));
    let decls = constants.end(alloc, decls)?;
    made.decls = decls;
    Ok(())
}

/// In a line of constants.
#[inline(never)]
#[tactic(auto, unfolding(crate::specs::Top::constants_stage))]
fn in_constants(
    alloc: Global,
    made: &mut Problem,
    stage: &mut Stage,
    constants: Constants,
    symbol: Symbol,
) -> Result<(), Stop>
    ensures { Moves (at made.new stage.new) result (constants_stage made.old constants symbol) }
{
    if ends_with(&symbol, Kind::Semicolon) {
        end_of_constants(alloc, made, constants)?;
        *stage = Stage::Whole;
        Ok(())
    } else {
        let constants = constants.step(symbol)?;
        *stage = Stage::Constants(constants);
        Ok(())
    }
}

/// In the declaration of a function.
#[inline(never)]
#[tactic(auto, unfolding(crate::specs::Top::function_stage))]
fn in_function(
    alloc: Global,
    made: &mut Problem,
    stage: &mut Stage,
    function: Function,
    symbol: Symbol,
) -> Result<(), Stop>
    ensures { Moves (at made.new stage.new) result (function_stage made.old function symbol) }
{
    if ends_with(&symbol, Kind::Semicolon) {
        let decl = function.end()?;
        made.decls.push(decl)?;
        *stage = Stage::Whole;
        Ok(())
    } else {
        let function = function.step(alloc, symbol)?;
        *stage = Stage::Function(function);
        Ok(())
    }
}

/// Behind `clause`.
#[inline(never)]
#[tactic(auto, unfolding(crate::specs::Top::at_clause))]
fn clause(made: &Problem, stage: &mut Stage, symbol: Symbol) -> Result<(), Stop>
    ensures { Moves (at made.now stage.new) result (at_clause made.now symbol) }
{
    let _made = made;
    if ends_with(&symbol, Kind::OpenSquare) {
        *stage = Stage::Variables(Variables::First);
        Ok(())
    } else {
        Err(Stop::Refused)
    }
}

/// In a list of variables.
#[inline(never)]
fn in_variables(alloc: Global, variables: &mut Variables, symbol: Symbol) -> Result<(), Stop>
    ensures { Moves variables.new result (variables_step variables.old symbol) }
{
    let behind = mem::replace(variables, Variables::First).step(alloc, symbol)?;
    *variables = behind;
    Ok(())
}

/// The end of a body.
#[inline(never)]
fn end_of_body(
    alloc: Global,
    made: &mut Problem,
    query: bool,
    vars: &mut List<Var>,
    body: &mut Body,
) -> Result<(), Stop>
    ensures { Moves (at made.new Whole) result (body_end body.old and_then λ r. Some (with_item made.old (clause_of query vars.old r.0 r.1))) }
{
    let sides = body.end(alloc)?;
    made.clauses.push(Clause {
        query,
        vars: mem::replace(vars, List::new(alloc)),
        guard: sides.guard,
        head: sides.head,
    })?;
    Ok(())
}

impl Stage {
    /// A body begins, which is a query's or not, behind these variables.
    #[inline(never)]
    fn begin(&mut self, alloc: Global, query: bool, vars: List<Var>)
        ensures { self.new ≡ stage_of_body query vars (begun_at First) }
    {
        *self = Stage::Body(query, vars, Place::First.begun(alloc));
    }

    /// A line is whole.
    #[inline(never)]
    fn rest(&mut self)
        ensures { self.new ≡ Whole }
    {
        *self = Stage::Whole;
    }

    /// The text goes behind one more token, in its place.
    #[inline(never)]
    #[tactic(auto, unfolding(crate::specs::Top::body_stage, crate::specs::Top::variables_stage))]
    fn turn(&mut self, alloc: Global, made: &mut Problem, symbol: Symbol) -> Result<(), Stop>
        ensures { Moves (at made.new self.new) result (stage_step made.old self.old symbol) }
    {
        match self {
            Stage::Body(query, vars, body) => {
                if !ends_with(&symbol, Kind::Semicolon) {
                    return body.step(alloc, symbol);
                }
                end_of_body(alloc, made, *query, vars, body)?;
                self.rest();
                Ok(())
            }
            Stage::Variables(variables) => {
                if !ends_with(&symbol, Kind::CloseSquare) {
                    return in_variables(alloc, variables, symbol);
                }
                let vars = mem::replace(variables, Variables::First).end(alloc)?;
                self.begin(alloc, false, vars);
                Ok(())
            }
            Stage::Constants(constants) => {
                let before = mem::replace(constants, Constants::Name(List::new(alloc)));
                in_constants(alloc, made, self, before, symbol)
            }
            Stage::Function(function) => {
                let before = mem::replace(function, Function::Name);
                in_function(alloc, made, self, before, symbol)
            }
            Stage::Start => start(alloc, made, self, symbol),
            Stage::Profile => profile(made, self, symbol),
            Stage::Numbered => numbered(made, self, symbol),
            Stage::Whole => whole(alloc, made, self, symbol),
            Stage::Clause => clause(made, self, symbol),
        }
    }

    /// The text goes behind one more token. What comes most stands here alone: the other steps are kept out of line, since each call
    /// clears a frame of many large locals.
    #[tactic(auto, unfolding(crate::specs::Top::body_stage, crate::specs::Top::variables_stage))]
    fn step(&mut self, alloc: Global, made: &mut Problem, symbol: Symbol) -> Result<(), Stop>
        ensures { Moves (at made.new self.new) result (stage_step made.old self.old symbol) }
    {
        match self {
            Stage::Body(_query, _vars, body) => {
                if !ends_with(&symbol, Kind::Semicolon) {
                    return body.step(alloc, symbol);
                }
            }
            Stage::Variables(variables) => {
                if !ends_with(&symbol, Kind::CloseSquare) {
                    return in_variables(alloc, variables, symbol);
                }
            }
            _ => {}
        }
        self.turn(alloc, made, symbol)
    }

    /// Whether the text may end here.
    fn is_whole(&self) -> bool
        ensures { result ≡ is_whole_stage self.now }
    {
        matches!(self, Stage::Start | Stage::Whole)
    }
}

impl Progress {
    /// Nothing is read yet.
    pub(crate) fn new(alloc: Global) -> Progress
        ensures { result ≡ started }
    {
        Progress {
            made: Problem {
                profile: 1,
                decls: List::new(alloc),
                clauses: List::new(alloc),
            },
            stage: Stage::Start,
        }
    }

    /// The text goes behind one more token.
    pub(crate) fn step(&mut self, alloc: Global, symbol: Symbol) -> Result<(), Stop>
        ensures { Moves self.new result (top_step self.old symbol) }
    {
        self.stage.step(alloc, &mut self.made, symbol)
    }

    /// The problem, where the text may end here.
    pub(crate) fn end(self) -> Option<Problem>
        ensures { result ≡ top_end self }
    {
        if self.stage.is_whole() {
            Some(self.made)
        } else {
            None
        }
    }
}
