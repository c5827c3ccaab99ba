//! The texts of literals, put at the end of one text.
//! What each text is, is said on the data alone, in `specs/Literals.antt`.
//!
//! Where a call here wants memory and has none, a part of its text may be in `out` already, behind what was there.

ghost use Rattle.std.specs.Prelude.{◌≡◌, ◌++◌, OnOk};
ghost use Rattle.hp_cert.specs.Literals.{bound_sign, difference_text, lit_text, pointer_text, relation_text, same_sign};
ghost use Rattle.hp_cert.specs.Lines.{lits_text};

use crate::forms::{put_name, put_parts};
use hp_defs::Names;
use hp_lit::{Lit, Name, Rel};
use hp_num::Text;
use hp_text::{put_text, put_whole};
use std::alloc::AllocError;

/// Puts the choice between literals, which is false where there is none.
pub fn put_lits(out: &mut Text, names: &Names, lits: &[Lit]) -> Result<(), AllocError>
    ensures { OnOk result (out.new ≡ out.old ++ lits_text names.now lits.now) }
{
    if lits.is_empty() {
        return put_text(out, b"false");
    }
    for (i, lit) in lits.iter().enumerate() {
        if i > 0 {
            put_text(out, b" | ")?;
        }
        put_lit(out, names, lit)?;
    }
    Ok(())
}

/// Puts a literal.
fn put_lit(out: &mut Text, names: &Names, lit: &Lit) -> Result<(), AllocError>
    ensures { OnOk result (out.new ≡ out.old ++ lit_text names.now lit.now) }
{
    match lit {
        Lit::Num(lit) => {
            put_parts(out, names, lit.parts.as_slice())?;
            put_text(out, relation(lit.rel))?;
            put_whole(out, lit.bound)
        }
        Lit::Idx(lit) => {
            put_difference(out, names, lit.left, lit.right)?;
            put_text(out, bound_sign(lit.exact))?;
            put_whole(out, lit.bound)
        }
        Lit::Ptr(lit) => {
            put_pointer(out, names, lit.left)?;
            put_text(out, same_sign(lit.same))?;
            put_pointer(out, names, lit.right)
        }
    }
}

/// Puts the difference of two names, no name being 0.
fn put_difference(
    out: &mut Text,
    names: &Names,
    left: Option<Name>,
    right: Option<Name>,
) -> Result<(), AllocError>
    ensures { OnOk result (out.new ≡ out.old ++ difference_text names.now left right) }
{
    match (left, right) {
        (Some(left), Some(right)) => {
            put_name(out, names, left)?;
            put_text(out, b" - ")?;
            put_name(out, names, right)
        }
        (Some(left), None) => put_name(out, names, left),
        (None, Some(right)) => {
            put_text(out, b"-")?;
            put_name(out, names, right)
        }
        (None, None) => put_text(out, b"0"),
    }
}

/// Puts a pointer, no name being null.
fn put_pointer(out: &mut Text, names: &Names, name: Option<Name>) -> Result<(), AllocError>
    ensures { OnOk result (out.new ≡ out.old ++ pointer_text names.now name) }
{
    match name {
        Some(name) => put_name(out, names, name),
        None => put_text(out, b"null"),
    }
}

/// The sign between a sum and its bound.
fn relation(rel: Rel) -> &'static [u8]
    ensures { result.now ≡ relation_text rel }
{
    match rel {
        Rel::Le => b" <= ",
        Rel::Lt => b" < ",
        Rel::Eq => b" = ",
    }
}

/// The sign between a difference and its bound.
fn bound_sign(exact: bool) -> &'static [u8]
    ensures { result.now ≡ bound_sign exact }
{
    if exact { b" = " } else { b" <= " }
}

/// The sign between pointers.
fn same_sign(same: bool) -> &'static [u8]
    ensures { result.now ≡ same_sign same }
{
    if same { b" = " } else { b" != " }
}
