//! Equal arguments give equal values: the line of two applications of one function.

ghost use Rattle.std.specs.Prelude.{◌≡◌, ◌<◌, Ok, length};
ghost use Rattle.std.specs.List.{All};
ghost use Rattle.hp_index.specs.Fit.{IsSmallSide};
ghost use Rattle.hp_linear.specs.Answers.{Answers, Pushed};
ghost use Rattle.hp_defs.specs.Made.{IsSmallArg, IsSmallBody};
ghost use Rattle.hp_base.specs.Making.{Begins, Makes};
ghost use Rattle.hp_base.specs.Congruence.{apart_literals, arg_form, arg_lin, arg_literals, arg_pointer, body_args, congruence_at, congruence_literals, point_of, value_arg};

use crate::limit::computed;
use crate::lines::add_line;
use hp_defs::{Ground, Signature};
use hp_index::{IndexForm, asks_same, form_literals};
use hp_linear::{lin_literals, named_lin, number_lin, zero_lin};
use hp_lit::{Arg, Body, Def, GroundErr, Lin, Line, Lit, Name, Origin, PtrLit, Refusal};
use hp_num::List;
use hp_tree::{Cmp, Sort};
use std::alloc::Global;

/// An argument as a linear form.
fn arg_lin(alloc: Global, arg: Arg) -> Result<Lin, Refusal>
    ensures { Answers (Ok (arg_lin arg)) result }
{
    match arg {
        Arg::Number(number) => Ok(number_lin(alloc, number)),
        Arg::Named(name) => named_lin(alloc, name),
        Arg::Index { .. } | Arg::Null => Ok(zero_lin(alloc)),
    }
}

/// An argument as a name plus a whole number.
#[tactic(auto, using(hp_index::proofs::Bounds::offset_is_side))]
fn arg_form(arg: Arg) -> IndexForm
    requires { IsSmallArg arg }
    ensures form { result ≡ arg_form arg }
    ensures small { IsSmallSide result.offset }
{
    match arg {
        Arg::Number(_) | Arg::Null => IndexForm {
            base: None,
            offset: 0,
        },
        Arg::Named(name) => IndexForm {
            base: Some(name),
            offset: 0,
        },
        Arg::Index { base, offset } => IndexForm { base, offset },
    }
}

/// An argument as a pointer.
fn arg_pointer(arg: Arg) -> Option<Name>
    ensures { result ≡ arg_pointer arg }
{
    match arg {
        Arg::Named(name) => Some(name),
        Arg::Number(_) | Arg::Index { .. } | Arg::Null => None,
    }
}

/// Adds the literals that compare two arguments of a sort behind those that are there.
fn push_arg_literals(
    alloc: Global,
    sort: Sort,
    cmp: Cmp,
    left: Arg,
    right: Arg,
    lits: &mut List<Lit>,
) -> Result<(), Refusal>
    requires left { IsSmallArg left }
    requires right { IsSmallArg right }
    ensures { Pushed (arg_literals sort cmp left right) lits.old lits.new result }
{
    match sort {
        Sort::Num => {
            let left = arg_lin(alloc, left)?;
            let right = arg_lin(alloc, right)?;
            lin_literals(alloc, cmp, &left, &right, lits)
        }
        Sort::Idx => {
            form_literals(cmp, arg_form(left), arg_form(right), lits)?;
            Ok(())
        }
        Sort::Ptr => {
            lits.push(Lit::Ptr(PtrLit {
                same: asks_same(cmp),
                left: arg_pointer(left),
                right: arg_pointer(right),
            }))?;
            Ok(())
        }
    }
}

/// The literals that say that two lists of arguments of these sorts differ at one of the places.
fn apart_literals(
    alloc: Global,
    sorts: &[Sort],
    left: &[Arg],
    right: &[Arg],
) -> Result<List<Lit>, Refusal>
    requires left { All IsSmallArg left.now }
    requires right { All IsSmallArg right.now }
    ensures { Answers (apart_literals sorts.now left.now right.now) result }
{
    let mut lits = List::new(alloc);
    let mut at = 0;
    while at < sorts.len() && at < left.len() && at < right.len() {
        push_arg_literals(alloc, sorts[at], Cmp::Ne, left[at], right[at], &mut lits)?;
        at += 1;
    }
    Ok(lits)
}

/// The arguments of an application.
fn body_args(body: &Body) -> &[Arg]
    requires { IsSmallBody body.now }
    ensures args { result.now ≡ body_args body.now }
    ensures small { All IsSmallArg result.now }
{
    match body {
        Body::Apply { args, .. } => args.as_slice(),
        Body::Sum(_) => &[],
    }
}

/// A name as an argument of a sort.
fn value_arg(sort: Sort, name: Name) -> Arg
    ensures arg { result ≡ value_arg sort name }
    ensures small { IsSmallArg result }
{
    match sort {
        Sort::Num | Sort::Ptr => Arg::Named(name),
        Sort::Idx => Arg::Index {
            base: Some(name),
            offset: 0,
        },
    }
}

/// The literals that say that the arguments of two applications differ or their values are equal.
fn congruence_literals(
    alloc: Global,
    signature: &Signature,
    left: &Def,
    right: &Def,
) -> Result<List<Lit>, Refusal>
    requires left { IsSmallBody left.now.body }
    requires right { IsSmallBody right.now.body }
    ensures { Answers (congruence_literals signature.now (point_of left.now) (point_of right.now)) result }
{
    let mut lits = apart_literals(
        alloc,
        signature.args.as_slice(),
        body_args(&left.body),
        body_args(&right.body),
    )?;
    let first = value_arg(signature.result, left.name);
    let second = value_arg(signature.result, right.name);
    push_arg_literals(alloc, signature.result, Cmp::Eq, first, second, &mut lits)?;
    Ok(lits)
}

/// Adds the line that says that two applications of a function have different arguments or equal values. The function is
/// given by its place in the order of declarations, the applications by the places of their definitions, all from 0.
///
/// A coefficient may be too wide, with the item that declares the function, and then lines too many; at an error what was
/// there before still is.
#[tactic(auto, using(crate::proofs::Making::begins_same, crate::proofs::Making::begins_trans))]
pub fn add_congruence(
    alloc: Global,
    g: &mut Ground,
    func: u32,
    left: u32,
    right: u32,
) -> Result<(), GroundErr>
    requires known { func < length g.old.names.signatures }
    requires left { left < length g.old.names.definitions }
    requires right { right < length g.old.names.definitions }
    ensures made { Makes (congruence_at func left right) g.old g.new result }
    ensures kept { Begins g.old g.new }
{
    let signature = g.names.signature(func);
    let definitions = g.names.definitions();
    let first = &definitions[left as usize];
    let second = &definitions[right as usize];
    let origin = Origin::Equal {
        left: first.name,
        right: second.name,
    };
    let item = signature.item;
    let lits = computed(item, congruence_literals(alloc, signature, first, second))?;
    add_line(g, Line { lits, origin })
}
